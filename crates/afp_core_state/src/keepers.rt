//! The keepers of the volumes.
ghost use Rattle.std.specs.Prelude.{◌≡◌, ◌-◌, IfSome, Some, is_some, option_map, slice_get};
ghost use Rattle.afp_core_state.specs.Holding.{AreHeld};
ghost use Rattle.afp_core_state.specs.lemma.Holding.{StandBeside};
ghost use Rattle.afp_serial.specs.World.{volume_at};
ghost use Rattle.record_keeper.specs.Records.{Records};
ghost use Rattle.volume_keeper_records.specs.Image.{kept_image};

use crate::state::State;
use afp_base::VolumeId;
use record_keeper::Keeper;
use volume_keeper::KeptVolume;

impl<K: Keeper> State<K> {
    /// The keeper of the volume of an id, which holds that volume's records, and no others. `None`: there is no such volume.
    pub fn keeper(&self, v: VolumeId) -> Option<&K>
        ensures there { is_some result ≡ is_some (volume_at self.now.world.volumes v.0) }
        ensures records { IfSome result (λ keeper. IfSome (K.records keeper.now) (λ (held : Records). option_map kept_image (volume_at self.now.world.volumes v.0) ≡ Some held)) }
        ensures faults { IfSome result (λ keeper. slice_get self.now.faults (v.0 - 1) ≡ Some (K.faults keeper.now)) }
        ensures sure { IfSome result (λ keeper. slice_get self.now.sure (v.0 - 1) ≡ Some (K.sure keeper.now)) }
    {
        match self.index(v) {
            Some(index) => Some(self.kept[index].keeper()),
            None => None,
        }
    }

    /// What is kept true: each keeper holds the volume at its place. The call does nothing.
    pub fn keepers_hold(&self)
        ensures { AreHeld K.records K.sure K.faults self.now.world.volumes self.now.faults self.now.sure }
    {
        stand_beside(self.kept.as_slice());
    }
}

/// The same of volumes beside their keepers.
fn stand_beside<K: Keeper>(kept: &[KeptVolume<K>])
    ensures { StandBeside K.records K.sure K.faults kept.now }
{
    let mut index = kept.len();
    while index > 0 {
        index -= 1;
        let _keeper = kept[index].keeper();
    }
}
