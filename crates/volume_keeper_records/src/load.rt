//! The rows of a volume from its records, or the first record that is bad.
ghost use Rattle.std.specs.Prelude.{◌≡◌, ◌==◌, ◌++◌, [], IfOk, OnOk, if◌then◌else◌};
ghost use Rattle.std.specs.List.{cons_option};
ghost use Rattle.volume_keeper_records.specs.KeyOrder.{RisesByKey, with_key};
ghost use Rattle.volume_keeper_records.specs.FirstBad.{version_in};
ghost use Rattle.volume_keeper_records.specs.Records.{old_version, version};
ghost use Rattle.volume_keeper_records.specs.Shape.{word_at as the_word};
ghost use Rattle.volume_keeper_records.specs.Loaded.{IsLoadedRows};
ghost use Rattle.volume_keeper_records.specs.lemma.Judged.{said_rows};

use crate::climb::push;
use crate::limits::{HEAD, OLD_VERSION, VERSION};
use crate::numbers::word_at;
use crate::pass::{judge_all, read_all_rows};
use crate::rows::{BadRecord, Reason, TableRow};
use afp_base::{Bytes, OutOfMemory};
use record_keeper::{MOST_RECORDS, Record, RecordKey};
use std::alloc::Global;
use std::cmp::Ordering;

/// What becomes of records.
#[derive(Drop)]
pub enum Loaded {
    /// The first record that no volume of that name has, and why.
    Bad(BadRecord),
    /// The rows of the volume, by rising key.
    Good(Vec<TableRow>),
}

/// A record of that key with an empty value, where it is missing.
fn count_in(alloc: Global, records: &mut Vec<Record>, key: &[u8]) -> Result<(), OutOfMemory>
    ensures { OnOk result (records.new.items ≡ with_key key.now records.old.items) }
{
    let missing = Record {
        key: RecordKey::new(Bytes::of(alloc, key)?),
        value: Bytes::new(alloc),
    };
    for place in 0..records.len() {
        match key.cmp(records[place].key.as_slice()) {
            Ordering::Less => {
                return match records.insert(place, missing) {
                    Ok(()) => Ok(()),
                    Err(_) => Err(OutOfMemory),
                };
            }
            Ordering::Equal => return Ok(()),
            Ordering::Greater => {}
        }
    }
    match records.push(missing) {
        Ok(()) => Ok(()),
        Err(_) => Err(OutOfMemory),
    }
}

fn put_row(rows: &mut Vec<TableRow>, row: Option<TableRow>) -> Result<(), OutOfMemory>
    ensures { OnOk result (rows.new.items ≡ rows.old.items ++ cons_option row []) }
{
    match row {
        Some(row) => push(rows, row),
        None => Ok(()),
    }
}

/// Those that are there.
fn collect(alloc: Global, rows: Vec<Option<TableRow>>) -> Result<Vec<TableRow>, OutOfMemory>
    ensures { IfOk result (λ list. list.items ≡ said_rows rows.items) }
{
    let mut list = Vec::new(alloc);
    for row in rows {
        put_row(&mut list, row)?;
    }
    Ok(list)
}

/// The version that the value of a head's record says.
fn version_said(value: &[u8]) -> u16
    ensures { result ≡ (if the_word value.now 0 == old_version then old_version else version) }
{
    if word_at(value, 0) == OLD_VERSION {
        OLD_VERSION
    } else {
        VERSION
    }
}

/// The version of records: the older one where the head's value begins with its number, and else the one that is written. The head stands in front.
fn version_of(records: &[Record]) -> u16
    requires { RisesByKey records.now }
    ensures { result ≡ version_in records.now }
{
    for kept in records {
        match [HEAD].as_slice().cmp(kept.key.as_slice()) {
            Ordering::Less => return VERSION,
            Ordering::Equal => return version_said(kept.value.as_slice()),
            Ordering::Greater => {}
        }
    }
    VERSION
}

/// The rows of the volume of that name that these records are, by rising key; or the first record that breaks a rule, with the first rule.
/// The records rise by key, and there is one: a keeper without records holds no volume yet. The one error is want of memory.
pub fn load_records(
    alloc: Global,
    name: &[u8],
    records: &mut Vec<Record>,
) -> Result<Loaded, OutOfMemory>
    requires order { RisesByKey records.old.items }
    requires some { records.old.items ≡ [] → ⊥ }
    ensures { IfOk result (λ loaded. IsLoadedRows name.now records.old.items loaded) }
{
    fork_bytes::laws::blocks_are_bytes();
    fork_bytes::laws::blocks_of_bytes_are_kept();
    if records.len() > MOST_RECORDS {
        let key = Bytes::of(alloc, records[MOST_RECORDS].key.as_slice())?;
        let reason = Reason::Limit;
        return Ok(Loaded::Bad(BadRecord { key, reason }));
    }
    let version = version_of(records.as_slice());
    count_in(alloc, records, &[1, 0, 0, 0, 2])?;
    count_in(alloc, records, &[0])?;
    let rows = read_all_rows(alloc, version, name, records)?;
    match judge_all(alloc, version, name, records, &rows)? {
        Some(bad) => Ok(Loaded::Bad(bad)),
        None => {
            let list = collect(alloc, rows)?;
            Ok(Loaded::Good(list))
        }
    }
}
