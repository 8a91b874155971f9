//! A volume that was made, and the commit that a load ends with.
ghost use Rattle.std.specs.Prelude.{◌≡◌, IfErr, IfOk, OnErr, OnOk};
ghost use Rattle.record_keeper.specs.Records.{Makes, TellsOn, changed, same_records};
ghost use Rattle.volume_keeper.specs.loading.Loading.{HasLoadCause};
ghost use Rattle.volume_keeper.specs.loading.lemma.Loading.{IsNotBad};

use crate::loading::loading::LoadFault;
use record_keeper::{Change, Keeper, KeeperFault};
use std::alloc::Global;
use volume_edits::WholeVolume;

/// A volume, and the changes by which what is kept becomes its records: none, where it is those already.
#[derive(Drop)]
pub(crate) struct Made {
    pub(crate) whole: WholeVolume,
    pub(crate) changes: Vec<Change>,
}

/// The volume, once the keeper holds its records. That takes one commit, or none where nothing changes; where it fails all is kept as it was.
pub(crate) fn commit_made<K: Keeper>(
    alloc: Global,
    keeper: &mut K,
    made: Made,
) -> Result<WholeVolume, LoadFault>
    ensures same { IfOk result (λ whole. whole.state ≡ made.whole.state) }
    ensures ok { OnOk result (Makes (changed made.changes.items) (K.records keeper.old) (K.records keeper.new)) }
    ensures err { OnErr result (Makes same_records (K.records keeper.old) (K.records keeper.new)) }
    ensures fault { IfErr result IsNotBad }
    ensures cause { HasLoadCause (K.sure keeper.old) (K.faults keeper.old) (K.faults keeper.new) result }
    ensures told { TellsOn (K.steady keeper.old) (K.faults keeper.old) (K.faults keeper.new) (K.records keeper.old) (K.records keeper.new) }
    ensures sure { K.sure keeper.new ≡ K.sure keeper.old }
    ensures steady { K.steady keeper.new ≡ K.steady keeper.old }
{
    let Made { whole, changes } = made;
    if changes.is_empty() {
        return Ok(whole);
    }
    match keeper.commit(alloc, changes) {
        Ok(()) => Ok(whole),
        Err(KeeperFault::Failed) => Err(LoadFault::Failed),
        Err(KeeperFault::Memory) => Err(LoadFault::Memory),
    }
}
