//! Runs of a server over links in memory.
ghost use Rattle.std.specs.Prelude.{IfOk};
ghost use Rattle.afp_outside.specs.ends.Tape.{IsFreshTape};

use crate::frames::{count, sizes_of};
use crate::house::moment;
use crate::keeper::{LeavingKeeper, Place, numbers_of};
use crate::script::Script;
use afp_base::{Bytes, NO_LIMIT, OutOfMemory};
use afp_core::{Core, ListTeller};
use afp_outside::{OpenGate, TapeLink};
use afp_serial::House;
use afp_server::{LinkEnd, serve_link};
use std::alloc::Global;

/// How many bytes a write of a link takes at most.
const PIECE: usize = 16;

/// How many writes of a link take no more than that. No run has as many.
const PIECES: usize = 256;

/// Why a link ended.
#[derive(Clone, Copy, PartialEq, Eq)]
pub enum Ended {
    Closed,
    ReadFault,
    WriteFault,
    Otherwise,
}

/// What came of a link.
#[derive(Drop)]
pub struct Served {
    pub ended: Ended,
    pub written: Bytes,
}

fn ended_of(end: LinkEnd) -> Ended {
    match end {
        LinkEnd::Closed => Ended::Closed,
        LinkEnd::ReadFault => Ended::ReadFault,
        LinkEnd::WriteFault => Ended::WriteFault,
        _ => Ended::Otherwise,
    }
}

fn pieces(alloc: Global) -> Result<Vec<usize>, OutOfMemory> {
    let mut pieces = Vec::new(alloc);
    for _ in 0..PIECES {
        pieces.push(PIECE)?;
    }
    Ok(pieces)
}

/// A link through which frames come, each in a read of its own, and whose call of this number fails, from 0.
fn link_of(alloc: Global, frames: &[u8], failing: Option<u64>) -> Result<TapeLink, OutOfMemory>
    ensures { IfOk result IsFreshTape }
{
    let coming = Bytes::of(alloc, frames)?;
    let reads = sizes_of(alloc, frames)?;
    let writes = pieces(alloc)?;
    let failing = numbers_of(alloc, failing)?;
    TapeLink::new(
        alloc,
        moment(),
        coming,
        reads,
        writes,
        Vec::new(alloc),
        failing,
    )
}

fn what_came(alloc: Global, end: LinkEnd, written: &[u8]) -> Result<Served, OutOfMemory> {
    Ok(Served {
        ended: ended_of(end),
        written: Bytes::of(alloc, written)?,
    })
}

/// A link over a teller.
fn serve(
    alloc: Global,
    house: &House,
    teller: &mut ListTeller<LeavingKeeper>,
    frames: &[u8],
    failing: Option<u64>,
) -> Result<Served, OutOfMemory> {
    let mut link = link_of(alloc, frames, failing)?;
    let end = serve_link(alloc, house, &mut link, teller, &OpenGate, NO_LIMIT);
    what_came(alloc, end, link.written())
}

/// A server over a keeper whose call of this number fails.
fn teller_of(
    alloc: Global,
    house: &House,
    place: &Place,
    failing: Option<u64>,
) -> Result<ListTeller<LeavingKeeper>, OutOfMemory> {
    let mut keepers = Vec::new(alloc);
    keepers.push(LeavingKeeper::new(alloc, place, failing)?)?;
    match Core::new(alloc, house, keepers, moment()) {
        Ok(core) => Ok(ListTeller::new(alloc, core)),
        Err(_) => Err(OutOfMemory),
    }
}

/// Which call fails in a run, from 0, if one does: of its link, of its keeper.
#[derive(Clone, Copy)]
pub struct Plan {
    pub link: Option<u64>,
    pub keeper: Option<u64>,
}

/// How many keepers did not settle at the end of a server.
pub fn settle(teller: ListTeller<LeavingKeeper>) -> u8 {
    teller.into_core().retire().failed
}

/// A whole run of one link: what came of it. The keeper leaves behind what it holds.
pub fn run(
    alloc: Global,
    house: &House,
    place: &Place,
    frames: &[u8],
    plan: Plan,
) -> Result<Served, OutOfMemory> {
    let mut teller = teller_of(alloc, house, place, plan.keeper)?;
    let served = serve(alloc, house, &mut teller, frames, plan.link);
    let _ = settle(teller);
    served
}

/// A run of no link: how many keepers did not settle at its end.
pub fn run_of_none(
    alloc: Global,
    house: &House,
    place: &Place,
    failing: u64,
) -> Result<u8, OutOfMemory> {
    let teller = teller_of(alloc, house, place, Some(failing))?;
    Ok(settle(teller))
}

fn serve_rest(
    alloc: Global,
    house: &House,
    teller: &mut ListTeller<LeavingKeeper>,
    script: &Script,
    replies: usize,
) -> Result<Served, OutOfMemory> {
    let frames = script.on_new_link(alloc, replies)?;
    serve(alloc, house, teller, frames.as_slice(), None)
}

/// A link whose call of this number fails, and one on which the client goes on: whether it had these replies on both.
fn serve_both(
    alloc: Global,
    house: &House,
    teller: &mut ListTeller<LeavingKeeper>,
    script: &Script,
    failing: u64,
    want: &[u8],
) -> Result<bool, OutOfMemory> {
    let first = serve(alloc, house, teller, script.frames(), Some(failing))?;
    let replies = count(first.written.as_slice());
    let second = serve_rest(alloc, house, teller, script, replies)?;
    Ok(script.are_replied(
        replies,
        first.written.as_slice(),
        second.written.as_slice(),
        want,
    ))
}

/// A whole run of a link that fails and of the one behind it: whether the client had these replies. The keeper leaves behind what it holds.
pub fn run_both(
    alloc: Global,
    house: &House,
    place: &Place,
    script: &Script,
    failing: u64,
    want: &[u8],
) -> Result<bool, OutOfMemory> {
    let mut teller = teller_of(alloc, house, place, None)?;
    let replied = serve_both(alloc, house, &mut teller, script, failing, want);
    let _ = settle(teller);
    replied
}
