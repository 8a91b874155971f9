//! The open forks of all sessions, with their locks.
ghost use Rattle.std.specs.Prelude.{◌≡◌, ◌==◌, ◌<◌, ◌&&◌, ◌||◌, [], false, not, true, length, option_map, IfSome, Some};
ghost use Rattle.std.specs.List.{list_any};
ghost use Rattle.afp_base.specs.DenyMode.{is_one_fork};
ghost use Rattle.afp_base.specs.Limits.{most_opens};
ghost use Rattle.afp_serial.specs.CopyFile.{is_held};
ghost use Rattle.afp_serial.specs.ExchangeFiles.{opens_exchanged};
ghost use Rattle.afp_serial.specs.OnFork.{is_locked, own_fork};
ghost use Rattle.afp_serial.specs.OnVolume.{opened_on};
ghost use Rattle.afp_serial.specs.World.{is_open, World, Session, OpenFork as Opened};
ghost use Rattle.afp_core_state.specs.Forks.{AllHeld, HasForks, LocksRange, OpensFork, UnlocksRange, left_of, open_of, shown_opens, with_opens};

use afp_base::{ForkRef, LAST_BYTE, NodeId, SessionNumber, VolumeId};
use afp_serial::fork_laws::{forks_are_shared_by_their_rules, references_are_lowest};
use deny_modes::{ForkKey, Mode, VolumeOpens};
use fork_table::{ForkTable, OpenFault, OpenFork};
use range_locks::{LockFault, NotLocked, Range};
use std::alloc::Global;
use std::marker::Model;

/// The open forks of all sessions, with their locks: no two opens conflict, no two locks on one fork share a byte.
///
/// Contracts see them as a world has them.
#[derive(Drop)]
pub struct OpenForks {
    table: ForkTable,
}

impl Model for OpenForks {
    ghost use Rattle.afp_core_state.specs.Forks.{Forks, forks_of};
    ghost use Rattle.afp_core_state.specs.lemma.LockRanges.{AreInRange};

    ghost Value = { Forks };

    ghost view = { λ f. forks_of f.table };

    ghost invariant = { λ f. AreInRange f.table.locks };
}

/// A fork of a file of a volume.
fn fork_key(volume: VolumeId, node: NodeId, resource: bool) -> ForkKey
    ensures { result ≡ record { volume = volume.0; node = node.0; resource = resource } }
{
    ForkKey {
        volume,
        node,
        resource,
    }
}

/// How a file is opened that is copied: it is read, and nobody is to write it.
fn copying() -> Mode
    ensures { result ≡ record { read = true; write = false; deny_read = false; deny_write = true } }
{
    Mode {
        read: true,
        write: false,
        deny_read: false,
        deny_write: true,
    }
}

fn either(a: bool, b: bool) -> bool
    ensures { result ≡ (a || b) }
{
    a || b
}

impl OpenForks {
    /// No fork is open. It takes no memory.
    pub fn new(alloc: Global) -> OpenForks
        ensures { result ≡ record { opens = []; locks = [] } }
    {
        OpenForks {
            table: ForkTable::new(alloc),
        }
    }

    /// What is kept true: each lock's reference is open. The call does nothing.
    pub fn keeps_sound(&self)
        ensures { AllHeld self.now }
    {
        self.table.keeps_sound();
    }

    /// The open fork of that reference, where it is that session's.
    pub fn get(&self, s: SessionNumber, r: ForkRef) -> Option<OpenFork>
        ensures own { (w : World) (x : Session) → HasForks w self.now → x.number ≡ s.0 → own_fork w x r.0 ≡ option_map (open_of r.0) result }
        ensures open { IfSome result (λ o. is_open self.now.opens r.0 ≡ true) }
    {
        self.table.keeps_sound();
        match self.table.get(s, r) {
            Some(row) => Some(*row),
            None => None,
        }
    }

    /// Opens a fork for a session, and gives its reference: the lowest number from 1 that is none. A refusal changes nothing.
    pub fn open(
        &mut self,
        s: SessionNumber,
        fork: ForkKey,
        mode: Mode,
    ) -> Result<ForkRef, OpenFault>
        requires { length self.old.opens < most_opens }
        ensures { (w : World) (x : Session) → HasForks w self.old → x.number ≡ s.0 → OpensFork w x self.old fork mode result self.new }
    {
        references_are_lowest();
        self.table.open(s, fork, mode)
    }

    /// Closes the fork of that reference; its locks go.
    pub fn close(&mut self, r: ForkRef)
        ensures { self.new ≡ left_of (λ o. not (o.reference == r.0)) self.old }
    {
        self.table.keeps_sound();
        self.table.close(r)
    }

    /// Closes the session's forks on the volume; their locks go.
    pub fn close_volume(&mut self, s: SessionNumber, v: VolumeId)
        ensures { self.new ≡ left_of (λ o. not ((o.session == s.0) && (o.fork.volume == v.0))) self.old }
    {
        self.table.close_volume(s, v)
    }

    /// Closes the session's forks; their locks go.
    pub fn close_session(&mut self, s: SessionNumber)
        ensures { self.new ≡ left_of (λ o. not (o.session == s.0)) self.old }
    {
        self.table.close_session(s)
    }

    /// Exchanges the open forks of two files of a volume, and so their locks: each open of a fork of the one is one of the other's of the same kind.
    pub fn exchange(&mut self, volume: VolumeId, a: NodeId, b: NodeId)
        ensures { self.new ≡ with_opens self.old (opens_exchanged volume.0 (Some (record { first = a.0; second = b.0 })) self.old.opens) }
    {
        let a_data = fork_key(volume, a, false);
        let b_data = fork_key(volume, b, false);
        let a_resource = fork_key(volume, a, true);
        let b_resource = fork_key(volume, b, true);
        self.table.swap(&a_data, &b_data);
        self.table.swap(&a_resource, &b_resource);
    }

    /// The open forks of a volume, of all sessions.
    pub fn on(&self, v: VolumeId) -> VolumeOpens<'_>
        ensures { (w : World) → HasForks w self.now → shown_opens result ≡ opened_on w v.0 }
    {
        self.table.on(v)
    }

    /// Whether another reference's lock covers one of so many bytes of the fork of a reference that is open, from a place on.
    pub fn is_locked(&self, r: ForkRef, from: u64, count: u64) -> bool
        requires { is_open self.now.opens r.0 ≡ true }
        ensures { (w : World) (o : Opened) → HasForks w self.now → o.reference ≡ r.0 → result ≡ is_locked w o from count }
    {
        forks_are_shared_by_their_rules();
        self.table.keeps_sound();
        if count == 0 {
            return false;
        }
        if from > LAST_BYTE {
            return false;
        }
        let to = from.saturating_add(count - 1).min(LAST_BYTE);
        self.table.blocks(r, &Range { from, to })
    }

    /// Whether an open of a fork writes or denies reading.
    fn denies_copying(&self, fork: &ForkKey) -> bool
        ensures { result ≡ list_any (λ o. is_one_fork o.fork fork.now && (o.access.write || o.access.deny_read)) self.now.opens }
    {
        let mode = copying();
        !self.table.may_open(fork, &mode)
    }

    /// Whether an open of either fork of a file, of any session, writes or denies reading, so that the file must not be copied.
    pub fn is_held(&self, volume: VolumeId, node: NodeId) -> bool
        ensures { (w : World) → HasForks w self.now → result ≡ is_held w volume.0 node.0 }
    {
        let data_fork = fork_key(volume, node, false);
        let resource_fork = fork_key(volume, node, true);
        let data = self.denies_copying(&data_fork);
        let resource = self.denies_copying(&resource_fork);
        either(data, resource)
    }

    /// Locks a range of the fork of a reference that is open. A refusal changes nothing.
    pub fn lock(&mut self, r: ForkRef, range: Range) -> Result<(), LockFault>
        requires { is_open self.old.opens r.0 ≡ true }
        ensures { (w : World) (o : Opened) → HasForks w self.old → o.reference ≡ r.0 → LocksRange w self.old o range result self.new }
    {
        self.table.keeps_sound();
        // What its type says: a range ends at 2^63 - 1 or before.
        let _ = &range.to;
        self.table.lock(r, range)
    }

    /// Unlocks the range of the fork of a reference that is open: that of the lock with exactly these ends. A refusal changes nothing.
    pub fn unlock(&mut self, r: ForkRef, range: Range) -> Result<(), NotLocked>
        requires { is_open self.old.opens r.0 ≡ true }
        ensures { (w : World) (o : Opened) → HasForks w self.old → o.reference ≡ r.0 → UnlocksRange w self.old o range result self.new }
    {
        self.table.keeps_sound();
        self.table.unlock(r, range)
    }
}
