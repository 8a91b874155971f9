//! A volume beside its keeper.
ghost use Rattle.std.specs.Prelude.{◌≡◌, IfSome, length};
ghost use Rattle.record_keeper.specs.Records.{Records};
ghost use Rattle.volume_keeper_records.specs.Image.{kept_image};

use record_keeper::Keeper;
use std::marker::Model;
use volume_edits::WholeVolume;

/// A volume with its desktop database, and the keeper that holds its records.
///
/// Contracts see the volume, the count of the keeper's faults, whether the keeper is sure, and what its settles answered.
#[derive(Drop)]
pub struct KeptVolume<K: Keeper> {
    pub(crate) keeper: K,
    pub(crate) whole: WholeVolume,
}

impl<K: Keeper> Model for KeptVolume<K> {
    ghost use Rattle.std.specs.Prelude.{◌≡◌, IfSome};
    ghost use Rattle.volume_keeper.specs.kept.Kept.{KeptState};
    ghost use Rattle.record_keeper.specs.Records.{Records};
    ghost use Rattle.volume_keeper_records.specs.Image.{kept_image};

    ghost Value = { KeptState };

    ghost view = { λ a. record { state = a.whole.state; faults = K.faults a.keeper; sure = K.sure a.keeper; settles = K.settles a.keeper } };

    ghost invariant = { λ a. IfSome (K.records a.keeper) (λ (kept : Records). kept ≡ kept_image a.whole.state) };
}

impl<K: Keeper> KeptVolume<K> {
    /// The keeper, which holds the volume's records, and no others.
    pub fn keeper(&self) -> &K
        ensures records { IfSome (K.records result.now) (λ (kept : Records). kept ≡ kept_image self.now.state) }
        ensures faults { K.faults result.now ≡ self.now.faults }
        ensures sure { K.sure result.now ≡ self.now.sure }
        ensures settles { K.settles result.now ≡ self.now.settles }
    {
        &self.keeper
    }

    /// The volume, of which plans are made.
    pub fn whole(&self) -> &WholeVolume
        ensures { result.now.state ≡ self.now.state }
    {
        &self.whole
    }

    /// The id that the next new node draws, 4,294,967,296 where the ids have ended.
    pub fn next_id(&self) -> u64
        ensures { result ≡ self.now.state.next_id }
    {
        let head = self.whole.tree.head();
        head.next_id
    }

    /// How many nodes there are, the root among them.
    pub fn count(&self) -> usize
        ensures { result ≡ length self.now.state.rows }
    {
        self.whole.tree.count()
    }
}
