//! Prints what calls of `node_rows` take at 1,000 and at 100,000 nodes, and what a read and a write take in a fork of 1 MiB and of
//! 256 MiB: nanoseconds of the processor a call, and the second as hundredths of the first. Without the argument `times`, which
//! may be any word, it measures nothing.
#![tactic(auto)]

mod apart;
mod changes;
mod forks;
mod looks;
mod volume;
mod watch;

use afp_base::OutOfMemory;
use fork_bytes::Fork;
use node_rows::Rows;
use std::io::ErrorKind;
use std::{env, io};
use watch::print_row;

fn made<T: Drop>(made: Result<T, OutOfMemory>) -> io::Result<T> {
    match made {
        Ok(value) => Ok(value),
        Err(OutOfMemory) => Err(io::Error::from(ErrorKind::OutOfMemory)),
    }
}

fn print_looks(rt: &HostRuntime, small: &Rows, large: &Rows) -> io::Result<()> {
    print_row(
        rt,
        "by id, in turn",
        looks::by_id(rt, small, false)?,
        looks::by_id(rt, large, false)?,
    )?;
    print_row(
        rt,
        "by id, jumping",
        looks::by_id(rt, small, true)?,
        looks::by_id(rt, large, true)?,
    )?;
    print_row(
        rt,
        "by id, three times, jumping",
        looks::by_id_again(rt, small)?,
        looks::by_id_again(rt, large)?,
    )?;
    print_row(
        rt,
        "by key, in turn",
        looks::by_key(rt, small, false)?,
        looks::by_key(rt, large, false)?,
    )?;
    print_row(
        rt,
        "by key, jumping",
        looks::by_key(rt, small, true)?,
        looks::by_key(rt, large, true)?,
    )?;
    print_row(
        rt,
        "nth, in turn",
        looks::nth(rt, small, false)?,
        looks::nth(rt, large, false)?,
    )?;
    print_row(
        rt,
        "nth, jumping",
        looks::nth(rt, small, true)?,
        looks::nth(rt, large, true)?,
    )?;
    print_row(
        rt,
        "behind others of its kind, in turn",
        looks::place_behind(rt, small, false)?,
        looks::place_behind(rt, large, false)?,
    )?;
    print_row(
        rt,
        "behind others of its kind, jumping",
        looks::place_behind(rt, small, true)?,
        looks::place_behind(rt, large, true)?,
    )
}

/// Changes at the end of the vectors, where nothing is shifted.
fn print_last(rt: &HostRuntime, small: &mut Rows, large: &mut Rows) -> io::Result<()> {
    print_row(
        rt,
        "a name and its key",
        changes::names(rt)?,
        changes::names(rt)?,
    )?;
    print_row(
        rt,
        "create, last",
        changes::create(rt, small, 'x')?,
        changes::create(rt, large, 'x')?,
    )?;
    print_row(
        rt,
        "rename, last",
        changes::rename_child(rt, small, true, 'y')?,
        changes::rename_child(rt, large, true, 'y')?,
    )?;
    print_row(
        rt,
        "remove, last",
        changes::remove(rt, small, true)?,
        changes::remove(rt, large, true)?,
    )
}

/// Changes at the front of a directory's list, where all children are shifted.
fn print_first(rt: &HostRuntime, small: &mut Rows, large: &mut Rows) -> io::Result<()> {
    print_row(
        rt,
        "create, first",
        changes::create(rt, small, 'a')?,
        changes::create(rt, large, 'a')?,
    )?;
    print_row(
        rt,
        "rename, first",
        changes::rename_child(rt, small, false, '!')?,
        changes::rename_child(rt, large, false, '!')?,
    )?;
    print_row(
        rt,
        "remove, first",
        changes::remove(rt, small, false)?,
        changes::remove(rt, large, false)?,
    )
}

/// What the standard library alone takes for the like.
fn print_apart(rt: &HostRuntime) -> io::Result<()> {
    print_row(
        rt,
        "std: a child out and in, first",
        apart::children(rt, 1000)?,
        apart::children(rt, 100_000)?,
    )?;
    print_row(
        rt,
        "std: a node out and in, first",
        apart::nodes(rt, 1000)?,
        apart::nodes(rt, 100_000)?,
    )?;
    print_row(
        rt,
        "std: halving, jumping",
        apart::halving(rt, 1000)?,
        apart::halving(rt, 100_000)?,
    )?;
    print_row(
        rt,
        "std: copy 64 KiB, jumping",
        apart::copies(rt, 16, true)?,
        apart::copies(rt, 4096, true)?,
    )?;
    print_row(
        rt,
        "std: copy 64 KiB, at one place",
        apart::copies(rt, 16, false)?,
        apart::copies(rt, 4096, false)?,
    )
}

fn print_forks(rt: &HostRuntime, small: &mut Fork, large: &mut Fork) -> io::Result<()> {
    print_row(
        rt,
        "fork: read 64 KiB, jumping",
        forks::reads(rt, small, true)?,
        forks::reads(rt, large, true)?,
    )?;
    print_row(
        rt,
        "fork: read 64 KiB, at one place",
        forks::reads(rt, small, false)?,
        forks::reads(rt, large, false)?,
    )?;
    print_row(
        rt,
        "fork: write 64 KiB, jumping",
        forks::writes(rt, small, true)?,
        forks::writes(rt, large, true)?,
    )?;
    print_row(
        rt,
        "fork: write 64 KiB, at one place",
        forks::writes(rt, small, false)?,
        forks::writes(rt, large, false)?,
    )
}

fn print_rows(rt: &HostRuntime) -> io::Result<()> {
    let mut small = made(volume::volume(rt.alloc(), 1000))?;
    let mut large = made(volume::volume(rt.alloc(), 100_000))?;
    print_looks(rt, &small, &large)?;
    print_last(rt, &mut small, &mut large)?;
    print_first(rt, &mut small, &mut large)
}

fn print_times(rt: &HostRuntime) -> io::Result<()> {
    println!(rt; "call | small | large | hundredths")?;
    print_rows(rt)?;
    print_apart(rt)?;
    let mut small = made(forks::fork(rt.alloc(), 16))?;
    let mut large = made(forks::fork(rt.alloc(), 4096))?;
    print_forks(rt, &mut small, &mut large)
}

fn main(rt: HostRuntime) -> io::Result<()> {
    if env::args(&rt)?.count() < 2 {
        return println!(rt; "say `times` to measure");
    }
    print_times(&rt)
}
