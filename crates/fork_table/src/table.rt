//! The table of the open forks.
ghost use Rattle.std.specs.Prelude.{◌≡◌, ◌<◌, ◌==◌, not, [], length, map, filter, option_copied, option_map, IfSome, IsSome};
ghost use Rattle.std.specs.Ordering.{nat_cmp};
ghost use Rattle.afp_base.specs.Limits.{most_opens};
ghost use Rattle.deny_modes.specs.Opens.{has_conflict, is_fork_open};
ghost use Rattle.range_locks.specs.Locks.{SetsLock, TakesLock, is_met_by_other_lock, without_holder, exchanged_locks};
ghost use Rattle.sorted_map.specs.map.Entries.{at};
ghost use Rattle.fork_table.specs.lemma.Kept.{FindsOne, does_pass};
ghost use Rattle.fork_table.specs.ForkTable.{Table, plain_opens, count_open, OpensInTable, own_open, forks_of, closing, is_open_of_session, is_of_volume, exchange_row, TableIsSound};

use crate::own::{OwnRef, own_of};
use crate::rows::{exchange_rows, lowest_free, put_row, take_row};
use crate::{OpenFault, OpenFork};
use afp_base::{ForkRef, MOST_FORKS, SessionNumber, VolumeId};
use deny_modes::{ForkKey, Mode, Opens, VolumeOpens};
use range_locks::{LockFault, Locks, NotLocked, Range};
use sorted_map::SortedMap;
use std::alloc::Global;
use std::marker::Model;

/// The open forks of all sessions, with their locks. No two opens conflict, no two locks on one fork share a byte, and each lock is on the fork
/// of a reference that is open.
///
/// Contracts see the opens by rising reference, and the locks as `Locks` has them.
#[derive(Drop)]
pub struct ForkTable {
    rows: SortedMap<u16, OpenFork>,
    own: SortedMap<OwnRef, ()>,
    opens: Opens,
    locks: Locks,
}

impl Model for ForkTable {
    ghost use Rattle.fork_table.specs.ForkTable.{Table};
    ghost use Rattle.fork_table.specs.lemma.Kept.{IsTable};

    ghost Value = { Table };

    ghost view = { λ t. record { opens = t.rows; locks = t.locks } };

    ghost invariant = { λ t. IsTable t.rows t.own t.opens t.locks };
}

impl ForkTable {
    /// No fork is open. It takes no memory.
    pub fn new(alloc: Global) -> ForkTable
        ensures { result ≡ record { opens = []; locks = [] } }
    {
        ForkTable {
            rows: SortedMap::new(alloc),
            own: SortedMap::new(alloc),
            opens: Opens::new(alloc),
            locks: Locks::new(alloc),
        }
    }

    /// What is kept true of the opens and the locks. The call does nothing.
    pub fn keeps_sound(&self)
        ensures { TableIsSound self.now }
    {
        self.opens.no_two_conflict();
        self.locks.no_two_overlap();
        let _ = self.rows.entries();
    }

    /// Opens a fork, and gives its reference: the lowest number from 1 that is none. A refusal changes nothing.
    pub fn open(
        &mut self,
        s: SessionNumber,
        fork: ForkKey,
        mode: Mode,
    ) -> Result<ForkRef, OpenFault>
        requires { length self.old.opens < most_opens }
        ensures { OpensInTable self.old s fork mode result self.new }
    {
        if !self.opens.may_open(&fork, &mode) {
            return Err(OpenFault::Deny);
        }
        if self.count_open(s) >= MOST_FORKS {
            return Err(OpenFault::TooMany);
        }
        let r = lowest_free(self.rows.entries());
        let row = OpenFork {
            session: s,
            fork,
            mode,
        };
        let Ok(()) = self.opens.note(ForkRef(r), fork, mode) else {
            return Err(OpenFault::Memory);
        };
        let Ok(()) = put_row(&mut self.rows, &mut self.own, ForkRef(r), row) else {
            self.opens.forget(ForkRef(r));
            return Err(OpenFault::Memory);
        };
        Ok(ForkRef(r))
    }

    /// How many references are open.
    pub fn count(&self) -> usize
        ensures { result ≡ length self.now.opens }
    {
        self.rows.entries().len()
    }

    /// The open fork of that reference, where it is that session's.
    pub fn get(&self, s: SessionNumber, r: ForkRef) -> Option<&OpenFork>
        ensures { option_copied result ≡ own_open s.0 (at nat_cmp self.now.opens r.0) }
    {
        match self.rows.get(r.0) {
            Some(row) => { if row.session == s { Some(row) } else { None } }
            None => None,
        }
    }

    /// Whether the fork is open, by any session.
    pub fn busy(&self, fork: &ForkKey) -> bool
        ensures { result ≡ is_fork_open (plain_opens self.now.opens) fork.now }
    {
        self.opens.counters(fork).is_some()
    }

    /// Whether an open of that fork, with that mode, conflicts with no open of any session.
    pub fn may_open(&self, fork: &ForkKey, mode: &Mode) -> bool
        ensures { result ≡ not (has_conflict (plain_opens self.now.opens) fork.now mode.now) }
    {
        self.opens.may_open(fork, mode)
    }

    /// Sets a lock on the fork of a reference that is open. A refusal changes nothing.
    pub fn lock(&mut self, r: ForkRef, range: Range) -> Result<(), LockFault>
        requires { IsSome (at nat_cmp self.old.opens r.0) }
        ensures locks { IfSome (at nat_cmp self.old.opens r.0) (λ o. SetsLock self.old.locks o.fork r.0 range result self.new.locks) }
        ensures opens { self.new.opens ≡ self.old.opens }
    {
        match self.fork_of(r) {
            Some(fork) => self.locks.lock(&fork, r, range),
            None => unreachable!(),
        }
    }

    /// Takes a lock away from the fork of a reference that is open: the one with exactly these ends. A refusal changes nothing.
    pub fn unlock(&mut self, r: ForkRef, range: Range) -> Result<(), NotLocked>
        requires { IsSome (at nat_cmp self.old.opens r.0) }
        ensures locks { IfSome (at nat_cmp self.old.opens r.0) (λ o. TakesLock self.old.locks o.fork r.0 range result self.new.locks) }
        ensures opens { self.new.opens ≡ self.old.opens }
    {
        match self.fork_of(r) {
            Some(fork) => self.locks.unlock(&fork, r, range),
            None => unreachable!(),
        }
    }

    /// Whether another reference's lock on the fork of a reference that is open shares a byte with the range.
    pub fn blocks(&self, r: ForkRef, range: &Range) -> bool
        requires { IsSome (at nat_cmp self.now.opens r.0) }
        ensures { IfSome (at nat_cmp self.now.opens r.0) (λ o. result ≡ is_met_by_other_lock self.now.locks o.fork r.0 range.now) }
    {
        match self.fork_of(r) {
            Some(fork) => self.locks.blocks(&fork, r, range),
            None => unreachable!(),
        }
    }

    /// The open forks of a volume, of all sessions.
    pub fn on(&self, v: VolumeId) -> VolumeOpens<'_>
        ensures { result ≡ forks_of v.0 self.now.opens }
    {
        self.opens.on(v)
    }

    /// Takes the open of that reference away, with its locks.
    pub fn close(&mut self, r: ForkRef)
        ensures opens { self.new.opens ≡ filter (λ row. not (row.0 == r.0)) self.old.opens }
        ensures locks { self.new.locks ≡ without_holder r.0 self.old.locks }
    {
        take_row(&mut self.rows, &mut self.own, r);
        self.opens.forget(r);
        self.locks.forget(r);
    }

    /// Takes the session's opens of forks of the volume away, with their locks.
    pub fn close_volume(&mut self, s: SessionNumber, v: VolumeId)
        ensures { self.new ≡ closing (is_of_volume s.0 v.0) self.old }
    {
        while let Some(r) = self.one_of_volume(s, v) {
            self.keeps_sound();
            self.close(r);
        }
        self.keeps_sound();
    }

    /// Takes the session's opens away, with their locks.
    pub fn close_session(&mut self, s: SessionNumber)
        ensures { self.new ≡ closing (is_open_of_session s.0) self.old }
    {
        while let Some(r) = self.one_of_session(s) {
            self.keeps_sound();
            self.close(r);
        }
        self.keeps_sound();
    }

    /// Makes each open and lock on the one fork one on the other, and the other way round.
    pub fn swap(&mut self, a: &ForkKey, b: &ForkKey)
        ensures opens { self.new.opens ≡ map (exchange_row a.now b.now) self.old.opens }
        ensures locks { self.new.locks ≡ exchanged_locks a.now b.now self.old.locks }
    {
        exchange_rows(&mut self.rows, a, b);
        self.opens.swap(a, b);
        self.locks.swap(a, b);
    }

    /// The fork of a reference.
    fn fork_of(&self, r: ForkRef) -> Option<ForkKey>
        ensures { result ≡ option_map (λ o. o.fork) (at nat_cmp self.now.opens r.0) }
    {
        match self.rows.get(r.0) {
            Some(row) => Some(row.fork),
            None => None,
        }
    }

    /// How many forks the session has open.
    fn count_open(&self, s: SessionNumber) -> usize
        ensures { result ≡ count_open s.0 self.now.opens }
    {
        own_of(self.own.entries(), s).len()
    }

    /// A reference of the session, where it has a fork open.
    fn one_of_session(&self, s: SessionNumber) -> Option<ForkRef>
        ensures { FindsOne (is_open_of_session s.0) self.now.opens result }
    {
        match own_of(self.own.entries(), s).first() {
            Some(entry) => Some(entry.0.reference),
            None => None,
        }
    }

    /// A reference of the session to a fork of the volume, where it has one open. It looks at the session's references alone.
    fn one_of_volume(&self, s: SessionNumber, v: VolumeId) -> Option<ForkRef>
        ensures { FindsOne (is_of_volume s.0 v.0) self.now.opens result }
    {
        self.keeps_sound();
        for entry in own_of(self.own.entries(), s) {
            let r = entry.0.reference;
            if self.is_of_volume(r, s, v) {
                return Some(r);
            }
        }
        None
    }

    /// Whether the session has opened a fork of the volume under that reference.
    fn is_of_volume(&self, r: ForkRef, s: SessionNumber, v: VolumeId) -> bool
        ensures { result ≡ does_pass (is_of_volume s.0 v.0) (at nat_cmp self.now.opens r.0) }
    {
        match self.rows.get(r.0) {
            Some(row) => row.session == s && row.fork.volume == v,
            None => false,
        }
    }
}
