//! Loads in which a call of the keeper fails.
ghost use Rattle.std.specs.Prelude.{◌≡◌, None};
ghost use Rattle.afp_names.specs.Name.{name_fault};

use crate::house::moment;
use crate::places::are_same;
use crate::tally::{Found, Tally};
use afp_base::OutOfMemory;
use afp_names::Name;
use record_keeper::{Change, Keeper, MemoryKeeper, Record, read_all};
use std::alloc::Global;
use volume_keeper::{LoadFault, load};

/// More calls than a load makes in a run.
const CALLS: u64 = 1000;

/// What a load answered.
#[derive(Clone, Copy, PartialEq, Eq)]
enum Answer {
    Loaded,
    Failed,
    Otherwise,
}

fn load_named(alloc: Global, keeper: &mut MemoryKeeper, name: &str) -> Answer
    requires { name_fault name.now ≡ None }
{
    match load(alloc, keeper, name, moment()) {
        Ok(_) => Answer::Loaded,
        Err(LoadFault::Failed) => Answer::Failed,
        Err(_) => Answer::Otherwise,
    }
}

/// Loads the volume `Share`.
fn load_share(alloc: Global, keeper: &mut MemoryKeeper) -> Result<Answer, OutOfMemory> {
    match Name::new(alloc, b"Share") {
        Ok(name) => Ok(load_named(alloc, keeper, name.as_str())),
        Err(_) => Err(OutOfMemory),
    }
}

fn changes_of(alloc: Global, records: &[Record]) -> Result<Vec<Change>, OutOfMemory> {
    let mut changes = Vec::new(alloc);
    for record in records {
        changes.push(Change::Put {
            key: record.key.copy()?,
            value: record.value.copy()?,
        })?;
    }
    Ok(changes)
}

/// A keeper that was given these records by one commit. Of its calls behind that the one of this number fails, from 0.
fn keeper_of(alloc: Global, records: &[Record], failing: u64) -> Result<MemoryKeeper, OutOfMemory> {
    let mut calls = Vec::new(alloc);
    calls.push(failing.saturating_add(1))?;
    let mut keeper = MemoryKeeper::new(alloc, calls);
    give(alloc, &mut keeper, records)?;
    Ok(keeper)
}

fn give(alloc: Global, keeper: &mut MemoryKeeper, records: &[Record]) -> Result<(), OutOfMemory> {
    let changes = changes_of(alloc, records)?;
    match keeper.commit(alloc, changes) {
        Ok(()) => Ok(()),
        Err(_) => Err(OutOfMemory),
    }
}

/// Whether the keeper holds these records.
fn keeps(alloc: Global, keeper: &mut MemoryKeeper, records: &[Record]) -> bool {
    match read_all(alloc, keeper) {
        Ok(kept) => are_same(kept.as_slice(), records),
        Err(_) => false,
    }
}

/// A load in which the call of this number fails, and one behind it. None where the first one met no fault.
fn load_twice(
    alloc: Global,
    keeper: &mut MemoryKeeper,
    records: &[Record],
) -> Result<Option<Found>, OutOfMemory> {
    let first = load_share(alloc, keeper)?;
    if first == Answer::Loaded {
        return Ok(None);
    }
    let held = keeps(alloc, keeper, records);
    let second = load_share(alloc, keeper)?;
    Ok(Some(Found {
        told: first == Answer::Failed,
        held,
        last: second == Answer::Loaded,
        replied: true,
    }))
}

fn load_fault(
    alloc: Global,
    records: &[Record],
    failing: u64,
) -> Result<Option<Found>, OutOfMemory> {
    let mut keeper = keeper_of(alloc, records, failing)?;
    load_twice(alloc, &mut keeper, records)
}

/// The loads of these records in which each call of the keeper fails in turn, up to the first number for which none does.
pub fn load_faults(alloc: Global, records: &[Record]) -> Result<Tally, OutOfMemory> {
    let mut tally = Tally::new();
    for failing in 0..CALLS {
        match load_fault(alloc, records, failing)? {
            Some(found) => tally = tally.and(found),
            None => return Ok(tally),
        }
    }
    Ok(tally)
}
