//! The volumes that a session has open.
ghost use Rattle.std.specs.Prelude.{◌≡◌, ◌==◌, ◌≤◌, [], if◌then◌else◌, length, not, filter};
ghost use Rattle.std.specs.List.{list_any};
ghost use Rattle.afp_serial.specs.Limits.{most_volumes};
ghost use Rattle.afp_serial.specs.OnFork.{placed};
ghost use Rattle.session_table.specs.lemma.Volumes.{ids_from};

use afp_base::VolumeId;
use afp_serial::limits::MOST_VOLUMES;
use std::marker::Model;

/// The ids of the volumes that a session has open: each is from 1 to 8.
///
/// Contracts see them as a list, by rising id.
#[derive(Drop)]
pub struct OpenVolumes {
    opened: [bool; 8],
}

impl Model for OpenVolumes {
    ghost use Rattle.std.specs.Prelude.{List, ℕ};
    ghost use Rattle.session_table.specs.lemma.Volumes.{ids_from};

    ghost Value = { List ℕ };

    ghost view = { λ a. ids_from 1 a.opened };
}

impl OpenVolumes {
    /// None.
    pub fn new() -> OpenVolumes
        ensures { result ≡ [] }
    {
        OpenVolumes {
            opened: [false; MOST_VOLUMES],
        }
    }

    /// Whether this one is open.
    pub fn contains(&self, volume: VolumeId) -> bool
        ensures { result ≡ list_any (λ other. other == volume.0) self.now }
    {
        is_set(&self.opened, volume.0)
    }

    /// Whether none is open.
    pub fn is_empty(&self) -> bool
        ensures { result ≡ (length self.now == 0) }
    {
        are_unset(&self.opened)
    }

    /// This one is open from now on.
    pub fn open(&mut self, volume: VolumeId)
        requires { (1 ≤ volume.0) × (volume.0 ≤ most_volumes) }
        ensures { self.new ≡ (if list_any (λ other. other == volume.0) self.old then self.old else placed (λ other. other) volume.0 self.old) }
    {
        self.opened[volume.0 as usize - 1] = true;
    }

    /// This one is not open from now on.
    pub fn close(&mut self, volume: VolumeId)
        ensures { self.new ≡ filter (λ other. not (other == volume.0)) self.old }
    {
        take_out(&mut self.opened, volume.0);
    }
}

/// Whether the flag of an id is set.
fn is_set(flags: &[bool], id: u16) -> bool
    ensures { result ≡ list_any (λ other. other == id) (ids_from 1 flags.now) }
{
    let id = id as usize;
    if id == 0 {
        return false;
    }
    if id > flags.len() {
        return false;
    }
    flags[id - 1]
}

/// Whether no flag is set.
fn are_unset(flags: &[bool]) -> bool
    ensures { result ≡ (length (ids_from 1 flags.now) == 0) }
{
    !is_some_set(flags)
}

/// Whether some flag is set.
fn is_some_set(flags: &[bool]) -> bool
    ensures { result ≡ list_any (λ flag. flag) flags.now }
{
    flags.iter().any(|flag| *flag)
}

/// The flag of an id is set no more.
fn take_out(flags: &mut [bool], id: u16)
    ensures { ids_from 1 flags.new ≡ filter (λ other. not (other == id)) (ids_from 1 flags.old) }
{
    let id = id as usize;
    if id == 0 {
        return;
    }
    if id > flags.len() {
        return;
    }
    flags[id - 1] = false;
}
