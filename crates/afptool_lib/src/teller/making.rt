//! A teller that keepers make which nobody has used.
ghost use Rattle.std.specs.Prelude.{◌≡◌, IfOk};
ghost use Rattle.afp_core.specs.turns.Sureness.{AreSure};
ghost use Rattle.afp_serial.specs.World.{fresh_world};

use crate::teller::new_keepers::NewKeepers;
use crate::teller::teller::SureTeller;
use afp_base::{Moment, OutOfMemory};
use afp_core::{Core, CoreFault};
use afp_serial::House;
use capture_log_server::TellerMaker;
use record_keeper::Keeper;
use std::alloc::Global;

/// The core of a house over new keepers. Their volumes are new, so each load gives one, or there is no memory.
fn core_of<K: Keeper>(
    alloc: Global,
    house: &House,
    fresh: NewKeepers<K>,
    now: Moment,
) -> Result<Core<K>, OutOfMemory>
    ensures world { IfOk result (λ core. core.world ≡ fresh_world house.now now) }
    ensures sure { IfOk result (λ core. AreSure core) }
{
    let keepers = fresh.first(house.volumes().len())?;
    match Core::new(alloc, house, keepers, now) {
        Ok(core) => Ok(core),
        Err(fault) => match fault {
            CoreFault::Memory => Err(OutOfMemory),
            CoreFault::Count => unreachable!(),
            CoreFault::Load { .. } => unreachable!(),
        },
    }
}

/// They make a teller over a core whose volumes are theirs; those that the house has no volume for are let go. With fewer keepers than
/// volumes there is no memory.
impl<K: Keeper> TellerMaker for NewKeepers<K> {
    type Made = SureTeller<K>;

    fn make(self, alloc: Global, house: &House, now: Moment) -> Result<SureTeller<K>, OutOfMemory> {
        let core = core_of(alloc, house, self, now)?;
        Ok(SureTeller::new(core))
    }
}
