//! A pass over all records by rising key.
ghost use Rattle.std.specs.Prelude.{◌≡◌, ◌++◌, ◌<◌, ◌^◌, [], map, length, IfOk, OnOk};
ghost use Rattle.std.specs.List.{cons_option};
ghost use Rattle.volume_keeper_records.specs.Shape.{row_in};
ghost use Rattle.volume_keeper_records.specs.KeyOrder.{RisesByKey};
ghost use Rattle.volume_keeper_records.specs.FirstBad.{first_bad_among};
ghost use Rattle.volume_keeper_records.specs.lemma.Judged.{place_of, said_node, places_in, next_in};

use crate::climb::push;
use crate::judge::{Pass, judge_row};
use crate::read::read_row;
use crate::rows::{BadRecord, TableRow};
use crate::tree::{Place, grow};
use afp_base::{Bytes, OutOfMemory};
use record_keeper::Record;
use std::alloc::Global;
use std::collections::BTreeSet;

/// What each record says.
pub(crate) fn read_all_rows(
    alloc: Global,
    version: u16,
    name: &[u8],
    records: &[Record],
) -> Result<Vec<Option<TableRow>>, OutOfMemory>
    ensures { IfOk result (λ rows. rows.items ≡ map (row_in (record { version = version; name = name.now })) records.now) }
{
    let mut rows = Vec::new(alloc);
    for kept in records {
        let row = read_row(alloc, version, name, kept)?;
        push(&mut rows, row)?;
    }
    Ok(rows)
}

fn push_place(places: &mut Vec<Place>, row: &Option<TableRow>) -> Result<(), OutOfMemory>
    ensures { OnOk result (places.new.items ≡ places.old.items ++ map place_of (cons_option (said_node row.now) [])) }
{
    match row {
        Some(TableRow::Node(node)) => {
            let place = Place {
                id: node.id,
                is_directory: node.is_directory,
                parent: node.parent,
                data_length: node.data_length,
                resource_length: node.resource_length,
            };
            push(places, place)
        }
        Some(TableRow::Head(_)) => Ok(()),
        Some(TableRow::Block(_)) => Ok(()),
        Some(TableRow::Comment(_)) => Ok(()),
        Some(TableRow::Icon(_)) => Ok(()),
        Some(TableRow::Appl(_)) => Ok(()),
        None => Ok(()),
    }
}

fn all_places(alloc: Global, rows: &[Option<TableRow>]) -> Result<Vec<Place>, OutOfMemory>
    ensures { IfOk result (λ places. places.items ≡ places_in rows.now) }
{
    let mut places = Vec::new(alloc);
    for row in rows {
        push_place(&mut places, row)?;
    }
    Ok(places)
}

fn next_of(rows: &[Option<TableRow>]) -> u64
    ensures { result ≡ next_in rows.now }
{
    for row in rows {
        if let Some(TableRow::Head(head)) = row {
            return head.next_id;
        }
    }
    0
}

/// The first record that is refused, of records that have been read.
pub(crate) fn judge_all(
    alloc: Global,
    version: u16,
    name: &[u8],
    records: &[Record],
    rows: &[Option<TableRow>],
) -> Result<Option<BadRecord>, OutOfMemory>
    requires parsed { rows.now ≡ map (row_in (record { version = version; name = name.now })) records.now }
    requires order { RisesByKey records.now }
    requires room { length rows.now < 2 ^ 60 }
    ensures { IfOk result (λ bad. bad ≡ first_bad_among (record { version = version; name = name.now }) records.now) }
{
    let places = all_places(alloc, rows)?;
    let tree = grow(alloc, places)?;
    let next = next_of(rows);
    let mut pass = Pass {
        tree,
        next,
        seen: BTreeSet::new(alloc),
        nodes: 0,
        bytes: 0,
        icons: 0,
        appls: 0,
    };
    for i in 0..records.len() {
        let kept = &records[i];
        match judge_row(alloc, &mut pass, &rows[i])? {
            Some(reason) => {
                let key = Bytes::of(alloc, kept.key.as_slice())?;
                return Ok(Some(BadRecord { key, reason }));
            }
            None => {}
        }
    }
    Ok(None)
}
