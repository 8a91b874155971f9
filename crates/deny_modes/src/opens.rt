//! The opens of all sessions.
ghost use Rattle.std.specs.Prelude.{◌≡◌, [], false, true, not, OnOk, OnErr, option_copied, unwrap_or, map};
ghost use Rattle.sorted_map.specs.map.Entries.{at};
ghost use Rattle.afp_base.specs.Apart.{are_apart};
ghost use Rattle.deny_modes.specs.lemma.ForkOrder.{fork_cmp};
ghost use Rattle.deny_modes.specs.Opens.{has_reference, has_conflict, with_noted, without_reference, exchanged_opens, counters_of, in_exchange, are_in_conflict};
ghost use Rattle.deny_modes.specs.lemma.Counters.{clash_with, tally_with, tally_without, no_tally, exchange_row, CanCount, HasOpen};

use crate::{ForkKey, Mode};
use afp_base::{ForkRef, OutOfMemory};
use sorted_map::SortedMap;
use std::alloc::Global;
use std::marker::Model;

/// What is kept of an open.
#[derive(Clone, Copy)]
struct Opened {
    fork: ForkKey,
    mode: Mode,
}

/// The opens of a fork: the four counters, and how many there are.
#[derive(Clone, Copy)]
struct ForkTally {
    counts: [u32; 4],
    opens: u32,
}

/// The opens of forks, of all sessions. No two conflict.
///
/// Contracts see them as a list by rising reference.
#[derive(Drop)]
pub struct Opens {
    rows: SortedMap<u16, Opened>,
    tallies: SortedMap<ForkKey, ForkTally>,
}

impl Model for Opens {
    ghost use Rattle.std.specs.Prelude.{List};
    ghost use Rattle.deny_modes.specs.Opens.{Open};
    ghost use Rattle.deny_modes.specs.Counters.{opens_of};
    ghost use Rattle.deny_modes.specs.lemma.Counters.{IsTallied};

    ghost Value = { List Open };

    ghost view = { λ o. opens_of o.rows };

    ghost invariant = { λ o. IsTallied o.rows o.tallies };
}

impl Opens {
    /// No open. It takes no memory.
    pub fn new(alloc: Global) -> Opens
        ensures { result ≡ [] }
    {
        Opens {
            rows: SortedMap::new(alloc),
            tallies: SortedMap::new(alloc),
        }
    }

    /// Whether an open of that fork, with that mode, conflicts with no open. It reads the counters alone.
    pub fn may_open(&self, fork: &ForkKey, mode: &Mode) -> bool
        ensures { result ≡ not (has_conflict self.now fork.now mode.now) }
    {
        match self.tallies.get(*fork) {
            Some(tally) => !clashes(&tally.counts, mode),
            None => true,
        }
    }

    /// The opens of that fork that read, that write, that deny reading and that deny writing, in this order; `None` exactly where it has no open.
    pub fn counters(&self, fork: &ForkKey) -> Option<&[u32; 4]>
        ensures { option_copied result ≡ counters_of self.now fork.now }
    {
        match self.tallies.get(*fork) {
            Some(tally) => Some(&tally.counts),
            None => None,
        }
    }

    /// What is kept true: no two of the opens conflict. The call does nothing.
    pub fn no_two_conflict(&self)
        ensures { are_apart are_in_conflict self.now ≡ true }
    {
        let _ = &self.rows;
    }

    /// Notes an open, which conflicts with none that is noted, under a reference of its own. An error changes nothing.
    pub fn note(&mut self, r: ForkRef, fork: ForkKey, mode: Mode) -> Result<(), OutOfMemory>
        requires free { has_conflict self.old fork mode ≡ false }
        requires fresh { has_reference self.old r.0 ≡ false }
        ensures ok { OnOk result (self.new ≡ with_noted (record { reference = r.0; fork = fork; access = mode }) self.old) }
        ensures err { OnErr result (self.new ≡ self.old) }
    {
        let Ok(_) = self.rows.insert(r.0, Opened { fork, mode }) else {
            return Err(OutOfMemory);
        };
        let tally = one_more(&self.tallies, fork, &mode);
        let Ok(_) = self.tallies.insert(fork, tally) else {
            let _ = self.rows.remove(r.0);
            return Err(OutOfMemory);
        };
        Ok(())
    }

    /// Takes the open of that reference away, where there is one.
    pub fn forget(&mut self, r: ForkRef)
        ensures { self.new ≡ without_reference r.0 self.old }
    {
        let Some(opened) = self.rows.remove(r.0) else {
            return;
        };
        let Some(tally) = self.tallies.get(opened.fork) else {
            return;
        };
        let left = without_one(tally, &opened.mode);
        if left.opens == 0 {
            let _ = self.tallies.remove(opened.fork);
        } else {
            let _ = self.tallies.insert(opened.fork, left);
        }
    }

    /// Makes each open on the one fork one on the other, and the other way round.
    pub fn swap(&mut self, a: &ForkKey, b: &ForkKey)
        ensures { self.new ≡ exchanged_opens a.now b.now self.old }
    {
        self.tallies.exchange(*a, *b);
        exchange_rows(&mut self.rows, a, b);
    }
}

/// The tally of a fork with one more open.
fn one_more(tallies: &SortedMap<ForkKey, ForkTally>, fork: ForkKey, mode: &Mode) -> ForkTally
    requires { CanCount (unwrap_or (at fork_cmp tallies.now fork) no_tally) }
    ensures { result ≡ tally_with (unwrap_or (at fork_cmp tallies.now fork) no_tally) mode.now }
{
    match tallies.get(fork) {
        Some(tally) => with_one(tally, mode),
        None => with_one(
            &ForkTally {
                counts: [0; 4],
                opens: 0,
            },
            mode,
        ),
    }
}

/// Makes each row on the one fork one on the other, and the other way round.
fn exchange_rows(rows: &mut SortedMap<u16, Opened>, a: &ForkKey, b: &ForkKey)
    ensures { rows.new ≡ map (exchange_row a.now b.now) rows.old }
{
    for place in 0..rows.entries().len() {
        let opened = rows.entries()[place].1;
        let fork = in_exchange(a, b, &opened.fork);
        rows.set_value(
            place,
            Opened {
                fork,
                mode: opened.mode,
            },
        );
    }
}

/// The fork that stands in a fork's place where `a` and `b` change places.
pub fn in_exchange(a: &ForkKey, b: &ForkKey, fork: &ForkKey) -> ForkKey
    ensures { result ≡ in_exchange a.now b.now fork.now }
{
    if a == fork {
        *b
    } else if b == fork {
        *a
    } else {
        *fork
    }
}

/// A tally with one more open.
fn with_one(tally: &ForkTally, mode: &Mode) -> ForkTally
    requires { CanCount tally.now }
    ensures { result ≡ tally_with tally.now mode.now }
{
    ForkTally {
        counts: [
            tally.counts[0] + u32::from(mode.read),
            tally.counts[1] + u32::from(mode.write),
            tally.counts[2] + u32::from(mode.deny_read),
            tally.counts[3] + u32::from(mode.deny_write),
        ],
        opens: tally.opens + 1,
    }
}

/// A tally with one open fewer.
fn without_one(tally: &ForkTally, mode: &Mode) -> ForkTally
    requires { HasOpen tally.now mode.now }
    ensures { result ≡ tally_without tally.now mode.now }
{
    ForkTally {
        counts: [
            tally.counts[0] - u32::from(mode.read),
            tally.counts[1] - u32::from(mode.write),
            tally.counts[2] - u32::from(mode.deny_read),
            tally.counts[3] - u32::from(mode.deny_write),
        ],
        opens: tally.opens - 1,
    }
}

/// Whether a mode uses what some open denies, or denies what some open uses.
fn clashes(counts: &[u32; 4], mode: &Mode) -> bool
    ensures { result ≡ clash_with counts.now mode.now }
{
    (mode.deny_read && counts[0] > 0)
        || (mode.deny_write && counts[1] > 0)
        || (mode.read && counts[2] > 0)
        || (mode.write && counts[3] > 0)
}
