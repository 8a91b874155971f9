//! A volume with its desktop database.
ghost use Rattle.std.specs.Prelude.{◌≡◌, ◌≤◌, true, OnOk};
ghost use Rattle.afp_base.specs.Limits.{most_fork_bytes};
ghost use Rattle.volume_spec.specs.ForkEffect.{would_pass};
ghost use Rattle.volume_spec.specs.SoundVolume.{IsSoundVolume};
ghost use Rattle.volume_spec.specs.TypedVolume.{is_typed_volume};

use afp_base::{MOST_FORK_BYTES, OutOfMemory};
use desktop_db::Desktop;
use std::alloc::Global;
use std::marker::Model;
use volume_tree::Volume;

/// A volume with its desktop database.
///
/// Contracts see the definition's whole volume; and `spare`, a number of nodes, and of elements of any one list of the desktop
/// database, that can be added with no memory.
#[derive(Drop)]
pub struct WholeVolume {
    pub tree: Volume,
    pub desktop: Desktop,
}

impl Model for WholeVolume {
    ghost use Rattle.std.specs.Prelude.{min};
    ghost use Rattle.volume_spec.specs.DesktopLaws.{with_desktop};
    ghost use Rattle.volume_edits.specs.edits.Whole.{VolumeValue};
    ghost use Rattle.volume_edits.specs.edits.lemma.Whole.{IsWhole};

    ghost Value = { VolumeValue };

    ghost view = { λ a. record { state = with_desktop a.tree.state a.desktop.comments a.desktop.icons a.desktop.appls; spare = min a.tree.spare a.desktop.spare } };

    ghost invariant = { λ a. IsWhole (with_desktop a.tree.state a.desktop.comments a.desktop.icons a.desktop.appls) };
}

impl WholeVolume {
    /// What holds of every volume. The call does nothing.
    pub fn keeps_sound(&self)
        ensures sound { IsSoundVolume self.now.state }
        ensures typed { is_typed_volume self.now.state ≡ true }
    {
        let _ = &self.tree;
    }

    /// Whether the bytes of all forks would pass the total, if a fork of so many bytes had so many others.
    pub fn would_pass(&self, old: u64, new: u64) -> bool
        requires { old ≤ most_fork_bytes }
        ensures { result ≡ would_pass self.now.state old new }
    {
        self.tree.used().saturating_add(new) > MOST_FORK_BYTES + old
    }

    /// Makes room for one node more, and for one element more of any list of the desktop database. An error changes nothing but room.
    pub fn reserve(&mut self, alloc: Global) -> Result<(), OutOfMemory>
        ensures room { OnOk result (1 ≤ self.new.spare) }
        ensures state { self.new.state ≡ self.old.state }
    {
        self.tree.reserve(alloc)?;
        self.desktop.reserve()
    }
}
