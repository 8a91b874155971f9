//! Keepers in memory for a replay.
ghost use Rattle.std.specs.Prelude.{◌≡◌, Some, IfOk};
ghost use Rattle.afp_serial.specs.Limits.{most_volumes};
ghost use Rattle.record_keeper.specs.Planned.{never_fails};
ghost use Rattle.afptool_lib.specs.teller.Keepers.{AreFresh};

use crate::teller::new_keepers::NewKeepers;
use afp_base::OutOfMemory;
use afp_serial::limits::MOST_VOLUMES;
use record_keeper::MemoryKeeper;
use std::alloc::Global;

/// Eight keepers in memory that hold nothing and never fail.
pub fn memory_keepers(alloc: Global) -> Result<Vec<MemoryKeeper>, OutOfMemory>
    ensures { IfOk result (λ keepers. AreFresh (λ k. Some k.records) (λ k. never_fails k.planned) keepers.items) }
{
    let mut keepers = Vec::new(alloc);
    while keepers.len() < MOST_VOLUMES {
        keepers.push(MemoryKeeper::new(alloc, Vec::new(alloc)))?;
    }
    Ok(keepers)
}

/// The same, as what a teller is made of.
pub fn new_memory_keepers(alloc: Global) -> Result<NewKeepers<MemoryKeeper>, OutOfMemory>
    ensures { IfOk result (λ keepers. keepers ≡ most_volumes) }
{
    let keepers = memory_keepers(alloc)?;
    Ok(NewKeepers::new(keepers))
}
