//! What is printed.
use crate::base::Base;
use crate::frames::count;
use crate::keeper::Called;
use crate::keeper_faults::{calls, keeper_faults};
use crate::link_faults::link_faults;
use crate::loads::load_faults;
use crate::places::images;
use crate::retiring::{retire_one, retire_two};
use crate::serve::Ended;
use crate::tally::Tally;
use afp_base::OutOfMemory;
use record_keeper::Record;
use std::io;
use std::io::ErrorKind;

/// There is no memory.
pub fn memory_of() -> io::Error {
    io::Error::from(ErrorKind::OutOfMemory)
}

/// The run in which nothing fails.
fn print_base(rt: &HostRuntime, base: &Base) -> io::Result<()> {
    let requests = count(base.frames());
    let replies = count(base.replies());
    let images = images(base.places.as_slice());
    let calls = calls(base).len();
    println!(rt;
        "nothing fails: {requests} requests, {replies} replies, {images} images, {calls} calls of the keeper"
    )
}

fn print_tally(
    rt: &HostRuntime,
    what: &str,
    told: &str,
    again: &str,
    tally: Result<Tally, OutOfMemory>,
) -> io::Result<()> {
    let Ok(tally) = tally else {
        return Err(memory_of());
    };
    let (runs, seen, held) = (tally.runs, tally.told, tally.held);
    let (last, replied) = (tally.last, tally.replied);
    println!(rt;
        "{what}: {runs} runs, {seen} {told}, {held} images of what was done\n{what}, {again}: {last} last images, {replied} with all replies"
    )
}

fn print_link(rt: &HostRuntime, base: &Base) -> io::Result<()> {
    let reads = link_faults(rt.alloc(), base, Ended::ReadFault);
    print_tally(
        rt,
        "each read",
        "read faults",
        "joined by a new link",
        reads,
    )?;
    let writes = link_faults(rt.alloc(), base, Ended::WriteFault);
    print_tally(
        rt,
        "each write",
        "write faults",
        "joined by a new link",
        writes,
    )
}

fn print_keeper(rt: &HostRuntime, base: &Base) -> io::Result<()> {
    let commits = keeper_faults(rt.alloc(), base, Called::Commit);
    print_tally(rt, "each commit", "MiscErr", "sent again", commits)?;
    let settles = keeper_faults(rt.alloc(), base, Called::Settle);
    print_tally(rt, "each settle", "MiscErr", "sent again", settles)
}

fn print_load(rt: &HostRuntime, what: &str, records: &[Record]) -> io::Result<()> {
    match load_faults(rt.alloc(), records) {
        Ok(tally) => {
            let (runs, told, held, last) = (tally.runs, tally.told, tally.held, tally.last);
            println!(rt;
                "each call of a load of {what}: {runs} runs, {told} failed, {held} with the records as before, {last} loaded behind it"
            )
        }
        Err(OutOfMemory) => Err(memory_of()),
    }
}

fn print_one(rt: &HostRuntime, base: &Base) -> io::Result<()> {
    match retire_one(rt.alloc(), base) {
        Ok((failed, held)) => {
            let word = if held { "as before" } else { "others" };
            println!(rt; "the settle at the end: {failed} failed, the records {word}")
        }
        Err(OutOfMemory) => Err(memory_of()),
    }
}

fn print_two(rt: &HostRuntime) -> io::Result<()> {
    match retire_two(rt.alloc()) {
        Ok(retired) => {
            let (volumes, failed, memory) = (retired.volumes, retired.failed, retired.memory);
            println!(rt;
                "that of the second of two: {volumes} volumes, {failed} failed, {memory} without memory"
            )
        }
        Err(OutOfMemory) => Err(memory_of()),
    }
}

/// Everything.
pub fn print_all(rt: &HostRuntime, base: &Base) -> io::Result<()> {
    print_base(rt, base)?;
    print_link(rt, base)?;
    print_keeper(rt, base)?;
    print_one(rt, base)?;
    print_two(rt)?;
    print_load(rt, "nothing", &[])?;
    print_load(rt, "the last image", base.last_records())
}
