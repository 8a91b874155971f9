//! The volumes by their ids and by their places, the user of a session, and settling a volume's keeper.
ghost use Rattle.std.specs.Prelude.{◌≡◌, ◌+◌, ◌<◌, None, Some, MatchOption, length, option_map, slice_get};
ghost use Rattle.afp_serial.specs.World.{volume_at};
ghost use Rattle.afp_core_state.specs.OnVolumes.{BecomesKept, IsOpen, IsUser};
ghost use Rattle.volume_keeper.specs.kept.Changing.{Settles};

use crate::state::State;
use afp_base::{SessionNumber, VolumeId};
use record_keeper::{Keeper, KeeperFault};
use volume_keeper::KeptVolume;
use volume_spec::limits::GUEST;

impl<K: Keeper> State<K> {
    /// The index of the volume of an id: ids count from 1, in house order.
    pub fn index(&self, volume: VolumeId) -> Option<usize>
        ensures { MatchOption result (volume_at self.now.world.volumes volume.0 ≡ None) (λ index. (volume.0 ≡ index + 1) × (index < length self.now.world.volumes)) }
    {
        let id = volume.0 as usize;
        if id == 0 || id > self.kept.len() {
            return None;
        }
        Some(id - 1)
    }

    /// The same of a volume that the session has open.
    pub fn opened(&self, session: SessionNumber, volume: VolumeId) -> Option<usize>
        ensures { IsOpen self.now session.0 volume.0 result }
    {
        if !self.sessions.has_volume(session, volume) {
            return None;
        }
        self.index(volume)
    }

    /// The user for whom the session calls: the guest, where nobody logged in.
    pub fn user(&self, session: SessionNumber) -> u32
        ensures { IsUser self.now session.0 result }
    {
        self.sessions.user(session).unwrap_or(GUEST)
    }

    /// The volume at an index.
    pub fn kept_at(&self, index: usize) -> &KeptVolume<K>
        requires { index < length self.now.world.volumes }
        ensures { slice_get self.now.world.volumes index ≡ Some result.now.state }
    {
        &self.kept[index]
    }

    /// How many nodes the volume of an id has, its root among them.
    pub fn nodes(&self, v: VolumeId) -> Option<usize>
        ensures { result ≡ option_map (λ volume. length volume.rows) (volume_at self.now.world.volumes v.0) }
    {
        match self.index(v) {
            Some(index) => Some(self.kept_at(index).count()),
            None => None,
        }
    }

    /// Settles the keeper of the volume at an index.
    pub fn settle_at(&mut self, index: usize) -> Result<(), KeeperFault>
        requires { index < length self.old.world.volumes }
        ensures { BecomesKept self.old index (λ old one. Settles old result one) self.new }
    {
        self.kept[index].settle()
    }
}
