//! The locks on one fork, by rising start.
ghost use Rattle.std.specs.Prelude.{◌≡◌, ◌≤◌, ◌==◌, [], length, not, filter, OnOk, OnErr, slice_range};
ghost use Rattle.std.specs.List.{list_any, insert};
ghost use Rattle.range_locks.specs.Locks.{AreInOrder, are_one_row};
ghost use Rattle.range_locks.specs.lemma.Seen.{IsSeen, IsRowPlace};

use crate::Range;
use afp_base::{ForkRef, OutOfMemory};
use std::alloc::Global;
use std::marker::Model;

/// A lock on a fork: its bytes, and the reference that holds it.
#[derive(Clone, Copy)]
pub struct LockRow {
    pub range: Range,
    pub reference: ForkRef,
}

impl LockRow {
    /// Whether the two are one lock.
    fn is(&self, other: &LockRow) -> bool
        ensures { result ≡ are_one_row self.now other.now }
    {
        self.reference.0 == other.reference.0
            && (self.range.first() == other.range.first()
                && self.range.last() == other.range.last())
    }
}

/// Rows of a fork. Contracts see a list.
#[derive(Drop)]
pub(crate) struct Rows(Vec<LockRow>);

impl Model for Rows {
    ghost use Rattle.std.specs.Prelude.{List};
    ghost use Rattle.range_locks.specs.declared.rows.LockRow.{LockRow};

    ghost Value = { List LockRow };

    ghost view = { λ r. r.0.items };
}

impl Rows {
    pub(crate) fn new(alloc: Global) -> Rows
        ensures { result ≡ [] }
    {
        Rows(Vec::new(alloc))
    }

    pub(crate) fn as_slice(&self) -> &[LockRow]
        ensures { result.now ≡ self.now }
    {
        self.0.as_slice()
    }

    pub(crate) fn insert(&mut self, place: usize, row: LockRow) -> Result<(), OutOfMemory>
        requires { place ≤ length self.old }
        ensures ok { OnOk result (self.new ≡ insert self.old place row) }
        ensures err { OnErr result (self.new ≡ self.old) }
    {
        self.0.insert(place, row)?;
        Ok(())
    }

    /// Takes that row away, where it is. No other row is looked at but those of a halving.
    pub(crate) fn take_row(&mut self, row: LockRow)
        requires { AreInOrder self.old }
        ensures { self.new ≡ filter (λ x. not (are_one_row row x)) self.old }
    {
        match row_place(self.0.as_slice(), &row) {
            Some(place) => {
                self.0.remove(place);
            }
            None => {}
        }
    }

    /// Takes the rows of a reference away.
    pub(crate) fn take_holder(&mut self, r: u16)
        ensures { self.new ≡ filter (λ x. not (x.reference.0 == r)) self.old }
    {
        self.0.retain(|x| x.reference.0 != r);
    }
}

/// What stands in the way of a range: another reference's lock; where there is none, the reference's own; and the place where the range would go.
#[derive(Clone, Copy)]
pub(crate) struct Seen {
    pub(crate) other: bool,
    pub(crate) own: bool,
    pub(crate) place: usize,
}

/// Looks for what a range meets. Two halvings find the rows that it meets, which stand together. Of these it looks at the reference's own, up to
/// the first of another.
pub(crate) fn look(rows: &[LockRow], r: ForkRef, range: &Range) -> Seen
    requires { AreInOrder rows.now }
    ensures { IsSeen rows.now r.0 range.now result }
{
    let first = range.first();
    let last = range.last();
    let from = rows.partition_point(|row| row.range.last() < first);
    let to = rows.partition_point(|row| row.range.first() <= last);
    let met = rows_between(rows, from, to);
    Seen {
        other: has_other(met, r),
        own: !met.is_empty(),
        place: from,
    }
}

/// The rows from one place to another.
fn rows_between(rows: &[LockRow], from: usize, to: usize) -> &[LockRow]
    requires low { from ≤ to }
    requires high { to ≤ length rows.now }
    ensures { result.now ≡ slice_range rows.now from to }
{
    &rows[from..to]
}

fn has_other(rows: &[LockRow], r: ForkRef) -> bool
    ensures { result ≡ list_any (λ row. not (row.reference.0 == r.0)) rows.now }
{
    rows.iter().any(|row| row.reference.0 != r.0)
}

/// The place of that row. A halving finds the one place where it may be.
fn row_place(rows: &[LockRow], row: &LockRow) -> Option<usize>
    requires { AreInOrder rows.now }
    ensures { IsRowPlace rows.now row.now result }
{
    let first = row.range.first();
    let place = rows.partition_point(|x| x.range.last() < first);
    if place < rows.len() && row.is(&rows[place]) {
        Some(place)
    } else {
        None
    }
}
