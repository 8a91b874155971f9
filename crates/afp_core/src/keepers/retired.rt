//! Settling all keepers at the end.
ghost use Rattle.std.specs.Prelude.{◌≡◌, ◌≤◌, IsErrOf, false, length};
ghost use Rattle.afp_serial.specs.Limits.{most_volumes};
ghost use Rattle.afp_core.specs.keepers.Retiring.{AsksOne, Retires};

use record_keeper::{Keeper, KeeperFault};
use volume_keeper::KeptVolume;

/// How many keepers were settled, how many of these settles failed, and how many found no memory.
#[derive(Clone, Copy, Debug, PartialEq, Eq)]
pub struct Retired {
    pub volumes: u8,
    pub failed: u8,
    pub memory: u8,
}

/// Settles the keeper of a volume, and lets both go.
fn settle_one<K: Keeper>(kept: KeptVolume<K>) -> Result<(), KeeperFault>
    ensures asks { AsksOne K.faults K.sure K.settles kept result }
    ensures failed { IsErrOf result KeeperFault.Failed → kept.sure ≡ false }
{
    let mut kept = kept;
    let answer = kept.settle();
    let _after = kept.keeper();
    answer
}

/// Asks each keeper to settle, once, in order, and lets it go.
pub fn settle_all<K: Keeper>(kept: Vec<KeptVolume<K>>) -> Retired
    requires { length kept.items ≤ most_volumes }
    ensures { Retires K.faults K.sure K.settles kept.items result }
{
    let mut kept = kept;
    let mut retired = Retired {
        volumes: 0,
        failed: 0,
        memory: 0,
    };
    while !kept.is_empty() {
        retired.volumes += 1;
        match settle_one(kept.remove(0)) {
            Ok(()) => {}
            Err(KeeperFault::Failed) => retired.failed += 1,
            Err(KeeperFault::Memory) => retired.memory += 1,
        }
    }
    retired
}
