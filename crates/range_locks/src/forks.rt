//! Rows by fork.
ghost use Rattle.std.specs.Prelude.{◌≡◌, ◌≤◌, ◌==◌, not, filter, IsSome, OnOk, OnErr, length, unwrap_or, [], if◌then◌else◌};
ghost use Rattle.std.specs.List.{insert};
ghost use Rattle.afp_base.specs.DenyMode.{Fork, is_one_fork};
ghost use Rattle.sorted_map.specs.map.Entries.{at};
ghost use Rattle.deny_modes.specs.lemma.ForkOrder.{fork_cmp};
ghost use Rattle.range_locks.specs.lemma.Kept.{rows_at};
ghost use Rattle.range_locks.specs.Locks.{AreInOrder, are_one_row};

use crate::rows::{LockRow, Rows};
use afp_base::OutOfMemory;
use deny_modes::ForkKey;
use sorted_map::SortedMap;
use std::alloc::Global;

/// The rows of a fork.
pub(crate) fn rows_of<'a>(forks: &'a SortedMap<ForkKey, Rows>, fork: &ForkKey) -> &'a [LockRow]
    ensures { result.now ≡ rows_at forks.now fork.now }
{
    match forks.get(*fork) {
        Some(rows) => rows.as_slice(),
        None => &[],
    }
}

/// Puts a row in at a place among a fork's rows.
pub(crate) fn add_row(
    forks: &mut SortedMap<ForkKey, Rows>,
    alloc: Global,
    fork: ForkKey,
    place: usize,
    row: LockRow,
) -> Result<(), OutOfMemory>
    requires { place ≤ length (rows_at forks.old fork) }
    ensures ok { OnOk result ((q : Fork) → rows_at forks.new q ≡ (if is_one_fork fork q then insert (rows_at forks.old fork) place row else rows_at forks.old q)) }
    ensures err { OnErr result ((q : Fork) → rows_at forks.new q ≡ rows_at forks.old q) }
{
    let Ok(old) = forks.insert(fork, Rows::new(alloc)) else {
        return Err(OutOfMemory);
    };
    let mut rows = or_none(old, alloc);
    let Ok(()) = rows.insert(place, row) else {
        put_rows(forks, fork, rows);
        return Err(OutOfMemory);
    };
    put_rows(forks, fork, rows);
    Ok(())
}

/// Takes a row of a fork away, where it is.
pub(crate) fn take_row(
    forks: &mut SortedMap<ForkKey, Rows>,
    alloc: Global,
    fork: ForkKey,
    row: LockRow,
)
    requires { AreInOrder (rows_at forks.old fork) }
    ensures { (q : Fork) → rows_at forks.new q ≡ (if is_one_fork fork q then filter (λ x. not (are_one_row row x)) (rows_at forks.old fork) else rows_at forks.old q) }
{
    if forks.get(fork).is_none() {
        return;
    }
    let Ok(old) = forks.insert(fork, Rows::new(alloc)) else {
        return;
    };
    let mut rows = or_none(old, alloc);
    rows.take_row(row);
    put_rows(forks, fork, rows);
}

/// Takes the rows of a reference on a fork away.
pub(crate) fn take_holder(
    forks: &mut SortedMap<ForkKey, Rows>,
    alloc: Global,
    fork: ForkKey,
    r: u16,
)
    ensures { (q : Fork) → rows_at forks.new q ≡ (if is_one_fork fork q then filter (λ x. not (x.reference.0 == r)) (rows_at forks.old fork) else rows_at forks.old q) }
{
    if forks.get(fork).is_none() {
        return;
    }
    let Ok(old) = forks.insert(fork, Rows::new(alloc)) else {
        return;
    };
    let mut rows = or_none(old, alloc);
    rows.take_holder(r);
    put_rows(forks, fork, rows);
}

/// The rows, or none.
fn or_none(rows: Option<Rows>, alloc: Global) -> Rows
    ensures { result ≡ unwrap_or rows [] }
{
    match rows {
        Some(rows) => rows,
        None => Rows::new(alloc),
    }
}

/// Puts other rows in place of those of a fork that has an entry; one with no row has none.
fn put_rows(forks: &mut SortedMap<ForkKey, Rows>, fork: ForkKey, rows: Rows)
    requires { IsSome (at fork_cmp forks.old fork) }
    ensures { (q : Fork) → rows_at forks.new q ≡ (if is_one_fork fork q then rows else rows_at forks.old q) }
{
    if rows.as_slice().is_empty() {
        let _ = forks.remove(fork);
    } else {
        let _ = forks.insert(fork, rows);
    }
}
