//! Runs of one link.
ghost use Rattle.std.specs.Prelude.{IfOk};
ghost use Rattle.afp_outside.specs.ends.Tape.{IsFreshTape};

use crate::gate::CountingGate;
use crate::numbers::{moment_of, moments_of, numbers_of, sizes_of};
use crate::one_session::OneSession;
use afp_base::OutOfMemory;
use afp_outside::{OpenGate, TapeLink};
use afp_serial::House;
use afp_server::{LinkEnd, LinkRoom, serve_link};
use std::alloc::Global;
use test_lines::lines::{digits_of, owned};

/// A server `Mac` with one volume.
fn house(alloc: Global) -> Result<House, OutOfMemory> {
    let mut volumes = Vec::new(alloc);
    volumes.push(owned(alloc, "5368617265")?)?;
    let signature = [0, 1, 2, 3, 4, 5, 6, 7, 8, 9, 10, 11, 12, 13, 14, 15];
    let users = Vec::new(alloc);
    match House::new(alloc, "Mac", signature, users, volumes, "", [0; 32]) {
        Ok(house) => Ok(house),
        Err(_) => Err(OutOfMemory),
    }
}

/// A link that was made at 100, through which the bytes come, as its lists say.
fn link_of(
    alloc: Global,
    reads: Vec<usize>,
    writes: &str,
    moments: &str,
    failing: &str,
    bytes: &str,
) -> Result<TapeLink, OutOfMemory>
    ensures { IfOk result IsFreshTape }
{
    let coming = owned(alloc, bytes)?;
    let writes = sizes_of(alloc, writes)?;
    let moments = moments_of(alloc, moments)?;
    let failing = numbers_of(alloc, failing)?;
    TapeLink::new(
        alloc,
        moment_of(100),
        coming,
        reads,
        writes,
        moments,
        failing,
    )
}

fn put_end(text: &mut String, end: LinkEnd) -> Result<(), OutOfMemory> {
    match end {
        LinkEnd::Closed => text.push_str("closed")?,
        LinkEnd::Ended => text.push_str("ended")?,
        LinkEnd::Cut { at } => write!(text, "cut {at}")?,
        LinkEnd::Silent { last, now } => {
            let (last, now) = (last.seconds(), now.seconds());
            write!(text, "silent {last} {now}")?
        }
        LinkEnd::ReadFault => text.push_str("read fault")?,
        LinkEnd::WriteFault => text.push_str("write fault")?,
        LinkEnd::Spent => text.push_str("spent")?,
        LinkEnd::Memory => return Err(OutOfMemory),
        LinkEnd::Bad(_) | LinkEnd::Displaced | LinkEnd::Drained => text.push_str("another end")?,
    }
    Ok(())
}

fn put_asks(text: &mut String, teller: &OneSession) -> Result<(), OutOfMemory> {
    let asks = teller.asks;
    write!(text, ", asks {asks}")?;
    if let Some((at, link)) = teller.lost {
        let (at, link) = (at.seconds(), link.0);
        write!(text, ", lost {link} at {at}")?;
    }
    Ok(())
}

fn put_gate(text: &mut String, gate: &CountingGate) -> Result<(), OutOfMemory> {
    let (entered, left) = (gate.before.get(), gate.after.get());
    write!(text, ", gate {entered} {left}")?;
    if gate.out_of_turn.get() > 0 {
        text.push_str(" out of turn")?;
    }
    Ok(())
}

/// What came of a link.
fn ran(
    alloc: Global,
    end: LinkEnd,
    teller: &OneSession,
    gate: &CountingGate,
    written: &[u8],
) -> Result<String, OutOfMemory> {
    let mut text = String::new(alloc);
    put_end(&mut text, end)?;
    put_asks(&mut text, teller)?;
    put_gate(&mut text, gate)?;
    let digits = digits_of(alloc, written)?;
    write!(text, ", wrote {digits}")?;
    Ok(text)
}

fn serve(alloc: Global, link: &mut TapeLink, turns: u32) -> Result<String, OutOfMemory>
    requires { IsFreshTape link.old }
{
    let house = house(alloc)?;
    let mut teller = OneSession::new();
    let gate = CountingGate::new();
    let end = serve_link(alloc, &house, link, &mut teller, &gate, u64::from(turns));
    ran(alloc, end, &teller, &gate, link.written())
}

/// How many bytes and quiets a link may read, below 2^32; none, where the word spells no such number.
fn turns_of(word: &str) -> u32 {
    match word.parse::<u32>() {
        Ok(turns) => turns,
        Err(_) => 0,
    }
}

/// `link TURNS READS WRITES MOMENTS FAILING BYTES`.
pub fn link(alloc: Global, words: &[&str]) -> Result<Option<String>, OutOfMemory> {
    let [_, turns, reads, writes, moments, failing, bytes] = words else {
        return Ok(None);
    };
    let reads = sizes_of(alloc, reads)?;
    let mut link = link_of(alloc, reads, writes, moments, failing, bytes)?;
    let text = serve(alloc, &mut link, turns_of(turns))?;
    Ok(Some(text))
}

/// The reads of a link whose first read ends at this place, with a quiet there or none.
fn cut_reads(alloc: Global, cut: usize, quiet: bool) -> Result<Vec<usize>, OutOfMemory> {
    let mut reads = Vec::new(alloc);
    reads.push(cut)?;
    if quiet {
        reads.push(0)?;
    }
    Ok(reads)
}

fn cut_at(
    alloc: Global,
    cut: usize,
    quiet: bool,
    writes: &str,
    bytes: &str,
) -> Result<String, OutOfMemory> {
    let reads = cut_reads(alloc, cut, quiet)?;
    let mut link = link_of(alloc, reads, writes, "-", "-", bytes)?;
    serve(alloc, &mut link, u32::MAX)
}

/// `cut QUIET WRITES BYTES`.
pub fn cut(alloc: Global, words: &[&str]) -> Result<Option<String>, OutOfMemory> {
    let [_, quiet, writes, bytes] = words else {
        return Ok(None);
    };
    let size = bytes.len() / 2;
    let mut text = String::new(alloc);
    let mut last = String::new(alloc);
    for place in 1..size {
        let now = cut_at(alloc, place, *quiet == "quiet", writes, bytes)?;
        if now.as_str() != last.as_str() {
            write!(text, "from {place} {now}; ")?;
            last = now;
        }
    }
    write!(text, "to {size}")?;
    Ok(Some(text))
}

fn serve_in_room(alloc: Global, link: &mut TapeLink) -> Result<LinkEnd, OutOfMemory>
    requires { IsFreshTape link.old }
{
    let house = house(alloc)?;
    let room = LinkRoom::new(alloc, &house)?;
    let mut teller = OneSession::new();
    Ok(room.serve(link, &mut teller, &OpenGate, u64::from(u32::MAX)))
}

/// `room BYTES`.
pub fn room(alloc: Global, words: &[&str]) -> Result<Option<String>, OutOfMemory> {
    let [_, bytes] = words else {
        return Ok(None);
    };
    let mut link = link_of(alloc, Vec::new(alloc), "-", "-", "-", bytes)?;
    let end = serve_in_room(alloc, &mut link)?;
    let mut text = String::new(alloc);
    put_end(&mut text, end)?;
    let digits = digits_of(alloc, link.written())?;
    write!(text, ", wrote {digits}")?;
    Ok(Some(text))
}
