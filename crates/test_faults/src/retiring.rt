//! Servers one of whose keepers does not settle at the end.
use crate::base::Base;
use crate::house::{house_of_two, moment};
use crate::places::{holds, new_place};
use crate::serve::run_of_none;
use afp_base::OutOfMemory;
use afp_core::{Core, Retired};
use afp_serial::House;
use record_keeper::MemoryKeeper;
use std::alloc::Global;

/// How many calls a keeper that holds nothing is given by a load: the least key, and the commit of the new volume.
const CALLS_OF_LOAD: u64 = 2;

/// A keeper whose settle at the end of a server without a link fails, or none.
fn keeper_of(alloc: Global, fails: bool) -> Result<MemoryKeeper, OutOfMemory> {
    let mut calls = Vec::new(alloc);
    if fails {
        calls.push(CALLS_OF_LOAD)?;
    }
    Ok(MemoryKeeper::new(alloc, calls))
}

/// Appends such a keeper.
fn put(alloc: Global, keepers: &mut Vec<MemoryKeeper>, fails: bool) -> Result<(), OutOfMemory> {
    keepers.push(keeper_of(alloc, fails)?)?;
    Ok(())
}

fn two_keepers(alloc: Global) -> Result<Vec<MemoryKeeper>, OutOfMemory> {
    let mut keepers = Vec::new(alloc);
    put(alloc, &mut keepers, false)?;
    put(alloc, &mut keepers, true)?;
    Ok(keepers)
}

fn retire_over(
    alloc: Global,
    house: &House,
    keepers: Vec<MemoryKeeper>,
) -> Result<Retired, OutOfMemory> {
    match Core::new(alloc, house, keepers, moment()) {
        Ok(core) => Ok(core.retire()),
        Err(_) => Err(OutOfMemory),
    }
}

fn retire_in(alloc: Global, house: &House) -> Result<Retired, OutOfMemory> {
    let keepers = two_keepers(alloc)?;
    retire_over(alloc, house, keepers)
}

/// What is counted at the end of a server with two keepers, the second of which does not settle.
pub fn retire_two(alloc: Global) -> Result<Retired, OutOfMemory> {
    let house = house_of_two(alloc)?;
    retire_in(alloc, &house)
}

/// How many keepers of a server of one did not settle at its end, and whether the records are those of a new volume all the same.
pub fn retire_one(alloc: Global, base: &Base) -> Result<(u8, bool), OutOfMemory> {
    let place = new_place(alloc)?;
    let failed = run_of_none(alloc, &base.house, &place, CALLS_OF_LOAD)?;
    Ok((failed, holds(base.places.as_slice(), 0, &place)))
}
