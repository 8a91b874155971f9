//! Doors in memory.
ghost use Rattle.std.specs.Prelude.{◌≡◌, false, All, IfOk};
ghost use Rattle.afp_outside.specs.ends.Tape.{IsFreshTape};

use afp_base::{Bytes, Moment, OutOfMemory};
use afp_outside::{TapeLink, TapeListener};
use std::alloc::Global;

/// So many seconds since 2000-01-01 00:00 GMT.
pub fn moment(seconds: u32) -> Moment {
    match Moment::new(seconds) {
        Some(moment) => moment,
        None => moment_zero(),
    }
}

fn moment_zero() -> Moment {
    match Moment::new(0) {
        Some(moment) => moment,
        None => unreachable!(),
    }
}

/// A link through which these frames come, at the moment 100.
fn link_of(alloc: Global, frames: &[&[u8]]) -> Result<TapeLink, OutOfMemory>
    ensures { IfOk result IsFreshTape }
{
    let mut coming = Bytes::new(alloc);
    for frame in frames {
        coming.extend(frame)?;
    }
    let (reads, writes, failing) = (Vec::new(alloc), Vec::new(alloc), Vec::new(alloc));
    TapeLink::new(
        alloc,
        moment(100),
        coming,
        reads,
        writes,
        Vec::new(alloc),
        failing,
    )
}

/// A door through which one link comes.
fn door_of(alloc: Global, frames: &[&[u8]]) -> Result<TapeListener, OutOfMemory>
    ensures { IfOk result (λ door. door.closed ≡ false) }
{
    let mut links = Vec::new(alloc);
    links.push(link_of(alloc, frames)?)?;
    TapeListener::new(alloc, links, Vec::new(alloc))
}

/// Two doors, through each of which one link comes.
pub fn two_doors(
    alloc: Global,
    one: &[&[u8]],
    other: &[&[u8]],
) -> Result<Vec<TapeListener>, OutOfMemory>
    ensures { IfOk result (λ doors. All (λ door. door.closed ≡ false) doors.items) }
{
    let (one, other) = (door_of(alloc, one)?, door_of(alloc, other)?);
    Ok(vec![in alloc; one, other]?)
}

/// Whether the link that came through a door was handed back, with these bytes written to it.
pub fn is_answered(door: &TapeListener, want: &[u8]) -> bool {
    match door.returned() {
        [link] => link.written() == want,
        _ => false,
    }
}
