//! Reading up to the end of a line.
ghost use Rattle.std.specs.Prelude.{◌≡◌, ◌<◌, ◌^◌, ◌++◌, ◌∷◌, [], true, length, IfSome, IfNone};
ghost use Rattle.afp_outside.specs.ends.Source.{SourceState};
ghost use Rattle.afp_outside.specs.lines.Lines.{IsOneLine, Takes, Unread};
ghost use Rattle.afp_outside.specs.lines.lemma.Reading.{CutsOr, Lasts};

use crate::ends::{ReadResult, Source};
use crate::lines::lines::NextLine;
use afp_base::{Bytes, OutOfMemory};
use std::alloc::Global;
use std::mem;

/// The bytes of a read at most.
const ROOM: usize = 4096;

/// The first line, and what stands behind its newline, where there is one.
fn first_line(bytes: &[u8]) -> Option<(&[u8], &[u8])>
    ensures cut { IfSome result (λ parts. bytes.now ≡ parts.0.now ++ 10 ∷ parts.1.now) }
    ensures one { IfSome result (λ parts. IsOneLine parts.0.now) }
    ensures none { IfNone result (IsOneLine bytes.now) }
{
    for i in 0..bytes.len() {
        if bytes[i] == b'\n' {
            return Some((&bytes[..i], &bytes[i + 1..]));
        }
    }
    None
}

/// Takes the first line of the bytes that are held, where its newline is there: what stands behind that is held then. An error changes
/// nothing.
pub(crate) fn cut_line(alloc: Global, held: &mut Bytes) -> Result<Option<Bytes>, OutOfMemory>
    ensures { CutsOr held.old result held.new }
{
    let (line, rest) = match first_line(held.as_slice()) {
        Some((line, rest)) => (Bytes::of(alloc, line)?, Bytes::of(alloc, rest)?),
        None => return Ok(None),
    };
    *held = rest;
    Ok(Some(line))
}

/// All that is held, as a line; none where that is nothing.
fn last_line(alloc: Global, held: &mut Bytes) -> NextLine
    ensures { Lasts held.old result held.new }
{
    if held.as_slice().len() == 0 {
        return NextLine::End;
    }
    NextLine::Line(mem::replace(held, Bytes::new(alloc)))
}

/// The next line of what is held, and of what the source gives.
pub(crate) fn next_of<S: Source>(
    alloc: Global,
    held: &mut Bytes,
    ended: &mut bool,
    taken: &mut u64,
    source: &mut S,
    longest: usize,
    turns: u64,
) -> NextLine
    requires turns { turns < 2 ^ 63 }
    requires ended { ended.old ≡ true → (S.source_state source.old).ended ≡ true }
    ensures { Takes longest turns (record { bytes = held.old; ended = ended.old; taken = taken.old }) (S.source_state source.old) result (record { bytes = held.new; ended = ended.new; taken = taken.new }) (S.source_state source.new) }
{
    let mut room = [0; ROOM];
    loop {
        match cut_line(alloc, held) {
            Ok(Some(line)) => return NextLine::Line(line),
            Ok(None) => {}
            Err(_) => return NextLine::Memory,
        }
        if held.as_slice().len() > longest {
            return last_line(alloc, held);
        }
        if *ended {
            return last_line(alloc, held);
        }
        if *taken >= turns {
            return NextLine::Spent;
        }
        match source.read(&mut room) {
            ReadResult::Got(n) => {
                let Ok(()) = held.extend(&room[..n]) else {
                    return NextLine::Memory;
                };
                *taken += n as u64;
            }
            ReadResult::End => {
                *ended = true;
                return last_line(alloc, held);
            }
            ReadResult::Failed => return NextLine::ReadFault,
            ReadResult::Quiet => return NextLine::ReadFault,
        }
    }
}
