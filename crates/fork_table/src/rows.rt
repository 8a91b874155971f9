//! The open forks by rising reference.
ghost use Rattle.std.specs.Prelude.{◌≡◌, ◌<◌, true, false, nat_lt, length, map, OnOk, OnErr};
ghost use Rattle.std.specs.List.{list_all};
ghost use Rattle.std.specs.List.Sorted.{IsStrictlySortedBy};
ghost use Rattle.std.specs.Map.{keys_of, remove_entry};
ghost use Rattle.std.specs.BTreeMap.{insert_entry, is_at};
ghost use Rattle.std.specs.Ordering.{nat_cmp};
ghost use Rattle.afp_base.specs.Limits.{most_opens};
ghost use Rattle.fork_table.specs.ForkTable.{IsLowestFree, exchange_row, is_open_reference};
ghost use Rattle.fork_table.specs.lemma.Own.{AreOwn};

use crate::OpenFork;
use crate::own::{OwnRef, own_ref};
use afp_base::{ForkRef, OutOfMemory};
use deny_modes::{ForkKey, in_exchange};
use sorted_map::SortedMap;

/// The lowest number from 1 that is no reference. A halving finds the first place whose reference is not the place's number
/// from 1.
pub(crate) fn lowest_free(rows: &[(u16, OpenFork)]) -> u16
    requires order { IsStrictlySortedBy nat_cmp (keys_of rows.now) }
    requires from_one { list_all (λ row. nat_lt 0 row.0) rows.now ≡ true }
    requires room { length rows.now < most_opens }
    ensures { IsLowestFree rows.now result }
{
    let mut low = 0;
    let mut high = rows.len();
    while low < high {
        let middle = low + (high - low) / 2;
        if usize::from(rows[middle].0) == middle + 1 {
            low = middle + 1;
        } else {
            high = middle;
        }
    }
    low as u16 + 1
}

/// Puts a row in under a new reference, and its session's entry. An error changes nothing.
pub(crate) fn put_row(
    rows: &mut SortedMap<u16, OpenFork>,
    own: &mut SortedMap<OwnRef, ()>,
    r: ForkRef,
    row: OpenFork,
) -> Result<(), OutOfMemory>
    requires own { AreOwn rows.old own.old }
    requires new { is_open_reference rows.old r.0 ≡ false }
    ensures rows { OnOk result (rows.new ≡ insert_entry nat_cmp rows.old r.0 row) }
    ensures own { OnOk result (AreOwn rows.new own.new) }
    ensures err { OnErr result ((rows.new ≡ rows.old) × (own.new ≡ own.old)) }
{
    let entry = own_ref(r, &row);
    let Ok(_) = own.insert(entry, ()) else {
        return Err(OutOfMemory);
    };
    let Ok(_) = rows.insert(r.0, row) else {
        let _ = own.remove(entry);
        return Err(OutOfMemory);
    };
    Ok(())
}

/// Takes the row of a reference away, where there is one, and its session's entry.
pub(crate) fn take_row(
    rows: &mut SortedMap<u16, OpenFork>,
    own: &mut SortedMap<OwnRef, ()>,
    r: ForkRef,
)
    requires { AreOwn rows.old own.old }
    ensures order { IsStrictlySortedBy nat_cmp (keys_of rows.old) }
    ensures rows { rows.new ≡ remove_entry (is_at (nat_cmp r.0)) rows.old }
    ensures own { AreOwn rows.new own.new }
{
    let Some(row) = rows.remove(r.0) else {
        return;
    };
    let _ = own.remove(own_ref(r, &row));
}

/// Makes each open on the one fork one on the other, and the other way round.
pub(crate) fn exchange_rows(rows: &mut SortedMap<u16, OpenFork>, a: &ForkKey, b: &ForkKey)
    ensures { rows.new ≡ map (exchange_row a.now b.now) rows.old }
{
    for place in 0..rows.entries().len() {
        let row = rows.entries()[place].1;
        let fork = in_exchange(a, b, &row.fork);
        rows.set_value(
            place,
            OpenFork {
                session: row.session,
                fork,
                mode: row.mode,
            },
        );
    }
}
