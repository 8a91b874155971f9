//! The locks of all references.
ghost use Rattle.std.specs.Prelude.{◌≡◌, ◌==◌, ◌≤◌, [], true, not, filter, if◌then◌else◌, length, take, slice_range};
ghost use Rattle.afp_base.specs.DenyMode.{Fork};
ghost use Rattle.std.specs.List.{position};
ghost use Rattle.std.specs.List.Sorted.{IsNonDecreasingBy};
ghost use Rattle.afp_base.specs.Apart.{are_apart};
ghost use Rattle.range_locks.specs.Locks.{are_overlapping, SetsLock, TakesLock, AreIntervals, is_met_by_other_lock, count_held, is_fork_lock, without_holder, exchange_lock, exchanged_locks};
ghost use Rattle.range_locks.specs.lemma.Kept.{IsBehind, IsBefore, IsPlaceOf, holder_of, is_among, rows_at};

use crate::forks::{add_row, rows_of, take_holder, take_row};
use crate::rows::{LockRow, Rows, look};
use crate::{LockFault, NotLocked, Range};
use afp_base::{ForkRef, MOST_LOCKS};
use deny_modes::{ForkKey, in_exchange};
use sorted_map::SortedMap;
use std::alloc::Global;
use std::marker::Model;

/// A lock. Contracts see it as `ForkLock`.
#[derive(Clone, Copy)]
struct HeldLock {
    reference: u16,
    fork: ForkKey,
    range: Range,
}

impl Model for HeldLock {
    ghost use Rattle.range_locks.specs.Locks.{ForkLock};

    ghost Value = { ForkLock };

    ghost view = { λ l. record { reference = l.reference; fork = l.fork; range = l.range } };

    ghost inverse = { λ l. record { reference = l.reference; fork = l.fork; range = l.range } };
}

impl HeldLock {
    fn reference(&self) -> u16
        ensures { result ≡ self.now.reference }
    {
        self.reference
    }

    fn fork(&self) -> ForkKey
        ensures { result ≡ self.now.fork }
    {
        self.fork
    }

    /// Whether it is the lock of that reference on that fork, with exactly these ends.
    fn is(&self, fork: &ForkKey, r: u16, range: &Range) -> bool
        ensures { result ≡ is_fork_lock fork.now r range.now self.now }
    {
        self.fork == *fork
            && (self.reference == r
                && (self.range.first() == range.first() && self.range.last() == range.last()))
    }

    fn exchanged(&self, a: &ForkKey, b: &ForkKey) -> HeldLock
        ensures { result ≡ exchange_lock a.now b.now self.now }
    {
        HeldLock {
            reference: self.reference,
            fork: in_exchange(a, b, &self.fork),
            range: self.range,
        }
    }
}

/// The byte-range locks of all references. No two on one fork share a byte.
///
/// Contracts see them as a list by rising reference, and of one reference in the order in which they were set.
#[derive(Drop)]
pub struct Locks {
    list: Vec<HeldLock>,
    forks: SortedMap<ForkKey, Rows>,
    alloc: Global,
}

impl Model for Locks {
    ghost use Rattle.std.specs.Prelude.{List};
    ghost use Rattle.range_locks.specs.Locks.{ForkLock};
    ghost use Rattle.range_locks.specs.lemma.Kept.{IsLockTable};

    ghost Value = { List ForkLock };

    ghost view = { λ l. l.list.items };

    ghost invariant = { λ l. IsLockTable l.list.items l.forks };
}

impl Locks {
    /// No lock. It takes no memory.
    pub fn new(alloc: Global) -> Locks
        ensures { result ≡ [] }
    {
        Locks {
            list: Vec::new(alloc),
            forks: SortedMap::new(alloc),
            alloc,
        }
    }

    /// What is kept true: no two of the locks overlap. The call does nothing.
    pub fn no_two_overlap(&self)
        ensures { are_apart are_overlapping self.now ≡ true }
    {
        let _ = &self.list;
    }

    /// The locks on that fork, by rising start.
    pub fn intervals(&self, fork: &ForkKey) -> &[LockRow]
        ensures { AreIntervals self.now fork.now result.now }
    {
        rows_of(&self.forks, fork)
    }

    /// Whether another reference's lock on that fork shares a byte with the range.
    pub fn blocks(&self, fork: &ForkKey, r: ForkRef, range: &Range) -> bool
        ensures { result ≡ is_met_by_other_lock self.now fork.now r.0 range.now }
    {
        look(self.intervals(fork), r, range).other
    }

    /// Sets a lock. A refusal changes nothing.
    pub fn lock(&mut self, fork: &ForkKey, r: ForkRef, range: Range) -> Result<(), LockFault>
        ensures { SetsLock self.old fork.now r.0 range result self.new }
    {
        let seen = look(rows_of(&self.forks, fork), r, &range);
        if seen.other {
            return Err(LockFault::Locked);
        }
        if seen.own {
            return Err(LockFault::Overlap);
        }
        if held_by(self.list.as_slice(), r.0) >= MOST_LOCKS {
            return Err(LockFault::Full);
        }
        let Ok(()) = self.list.reserve(1) else {
            return Err(LockFault::Memory);
        };
        let row = LockRow {
            range,
            reference: r,
        };
        let Ok(()) = add_row(&mut self.forks, self.alloc, *fork, seen.place, row) else {
            return Err(LockFault::Memory);
        };
        let place = behind(self.list.as_slice(), r.0);
        let held = HeldLock {
            reference: r.0,
            fork: *fork,
            range,
        };
        let _ = self.list.insert(place, held);
        Ok(())
    }

    /// Takes a lock away: the one with exactly these ends. A refusal changes nothing.
    pub fn unlock(&mut self, fork: &ForkKey, r: ForkRef, range: Range) -> Result<(), NotLocked>
        ensures { TakesLock self.old fork.now r.0 range result self.new }
    {
        let Some(place) = place_of(self.list.as_slice(), fork, r.0, &range) else {
            return Err(NotLocked);
        };
        let row = LockRow {
            range,
            reference: r,
        };
        take_row(&mut self.forks, self.alloc, *fork, row);
        self.list.remove(place);
        Ok(())
    }

    /// Takes the locks of that reference away.
    pub fn forget(&mut self, r: ForkRef)
        ensures { self.new ≡ without_holder r.0 self.old }
    {
        let first = before(self.list.as_slice(), r.0);
        let last = behind(self.list.as_slice(), r.0);
        if first >= last {
            return;
        }
        let own = locks_between(self.list.as_slice(), first, last);
        clear_rows(own, &mut self.forks, self.alloc, r.0);
        self.list.drain(first..last);
    }

    /// Makes each lock on the one fork one on the other, and the other way round.
    pub fn swap(&mut self, a: &ForkKey, b: &ForkKey)
        ensures { self.new ≡ exchanged_locks a.now b.now self.old }
    {
        self.forks.exchange(*a, *b);
        exchange_list(&mut self.list, a, b);
    }
}

/// Makes each lock of the list on the one fork one on the other, and the other way round.
fn exchange_list(list: &mut Vec<HeldLock>, a: &ForkKey, b: &ForkKey)
    ensures { list.new.items ≡ exchanged_locks a.now b.now list.old.items }
{
    for place in 0..list.len() {
        let held = list[place];
        list[place] = held.exchanged(a, b);
    }
}

/// Takes the rows of a reference away, on each fork where the list has a lock of it.
fn clear_rows(list: &[HeldLock], forks: &mut SortedMap<ForkKey, Rows>, alloc: Global, r: u16)
    ensures { (q : Fork) → rows_at forks.new q ≡ (if is_among list.now q then filter (λ x. not (x.reference.0 == r)) (rows_at forks.old q) else rows_at forks.old q) }
{
    for place in 0..list.len() {
        let fork = list[place].fork();
        if !is_cleared(list, place, &fork) {
            take_holder(forks, alloc, fork, r);
        }
    }
}

/// Whether the lock before a place is on that fork.
fn is_cleared(list: &[HeldLock], place: usize, fork: &ForkKey) -> bool
    requires { place ≤ length list.now }
    ensures { result ≡ true → is_among (take place list.now) fork.now ≡ true }
{
    place > 0 && list[place - 1].fork() == *fork
}

/// The locks from one place to another.
fn locks_between(list: &[HeldLock], first: usize, last: usize) -> &[HeldLock]
    requires low { first ≤ last }
    requires high { last ≤ length list.now }
    ensures { result.now ≡ slice_range list.now first last }
{
    &list[first..last]
}

/// The first place of that lock among these.
fn place_among(list: &[HeldLock], fork: &ForkKey, r: u16, range: &Range) -> Option<usize>
    ensures { result ≡ position (is_fork_lock fork.now r range.now) list.now }
{
    list.iter().position(|l| l.is(fork, r, range))
}

/// The place of that lock. It is looked for among those of its reference alone.
fn place_of(list: &[HeldLock], fork: &ForkKey, r: u16, range: &Range) -> Option<usize>
    requires { IsNonDecreasingBy holder_of list.now }
    ensures { IsPlaceOf list.now fork.now r range.now result }
{
    let first = before(list, r);
    let last = behind(list, r);
    match place_among(locks_between(list, first, last), fork, r, range) {
        Some(place) => Some(first + place),
        None => None,
    }
}

/// The place behind the locks of that reference and of those below it.
fn behind(list: &[HeldLock], r: u16) -> usize
    requires { IsNonDecreasingBy holder_of list.now }
    ensures { IsBehind list.now r result }
{
    list.partition_point(|l| l.reference() <= r)
}

/// The place of the first lock of that reference or of one above it.
fn before(list: &[HeldLock], r: u16) -> usize
    requires { IsNonDecreasingBy holder_of list.now }
    ensures { IsBefore list.now r result }
{
    list.partition_point(|l| l.reference() < r)
}

/// How many locks the reference has.
fn held_by(list: &[HeldLock], r: u16) -> usize
    requires { IsNonDecreasingBy holder_of list.now }
    ensures { result ≡ count_held r list.now }
{
    let first = before(list, r);
    let last = behind(list, r);
    last - first
}
