//! What happened on a connection.
ghost use Rattle.std.specs.Prelude.{◌≡◌, ◌≤◌, ◌<◌, ◌++◌, ◌+◌, ◌&&◌, ℕ, true, Some, codes, OnOk};
ghost use Rattle.afp_base.specs.Limits.{last_moment};
ghost use Rattle.capture_log_lines.specs.log.Lines.{last_link, line_in};
ghost use Rattle.capture_log_lines.specs.declared.log.line.Line.{Line};
ghost use Rattle.capture_log_lines.specs.declared.log.line.What.{What};
ghost use Rattle.capture_log_lines.specs.made.Lines.{event_line, has_room, in_line, out_line};

use afp_base::{Bytes, Moment, OutOfMemory};
use line_words::{put_hexadecimal, put_number};
use std::alloc::Global;

/// The most bytes that a line is written of: more than a frame has.
const MOST_BYTES: usize = 140_000;

/// Whether there are bytes, and a line has room for them: there are at most 140,000, and a frame has fewer.
pub fn has_room(bytes: &[u8]) -> bool
    ensures { result ≡ has_room bytes.now }
{
    0 < bytes.len() && bytes.len() <= MOST_BYTES
}

/// The law: the line of bytes is read as what it says.
pub fn lines_are_read(bytes: &[u8])
    ensures came { (link now : ℕ) → 1 ≤ link → link ≤ last_link → now ≤ last_moment → has_room bytes.now ≡ true
        → line_in (in_line link now bytes.now) ≡ Some (Line.At link now (What.In bytes.now)) }
    ensures answered { (link now : ℕ) → 1 ≤ link → link ≤ last_link → now ≤ last_moment → has_room bytes.now ≡ true
        → line_in (out_line link now bytes.now) ≡ Some (Line.At link now (What.Out bytes.now)) }
{}

/// Appends a line of bytes behind a word, without its newline.
fn put_event(
    alloc: Global,
    link: u32,
    now: Moment,
    word: &[u8],
    bytes: &[u8],
    out: &mut Bytes,
) -> Result<(), OutOfMemory>
    ensures { OnOk result (out.new ≡ out.old ++ event_line link now word.now bytes.now) }
{
    out.extend(b"at ")?;
    put_number(out, u64::from(link))?;
    out.extend(b" ")?;
    put_number(out, u64::from(now.seconds()))?;
    out.extend(b" ")?;
    out.extend(word)?;
    out.extend(b" ")?;
    put_hexadecimal(alloc, out, bytes)
}

/// Appends the line of bytes that came on a connection, with its newline. An error may leave some of it.
pub fn put_in_line(
    alloc: Global,
    link: u32,
    now: Moment,
    bytes: &[u8],
    out: &mut Bytes,
) -> Result<(), OutOfMemory>
    ensures { OnOk result (out.new ≡ out.old ++ in_line link now bytes.now ++ codes "\n") }
{
    put_event(alloc, link, now, b"in", bytes, out)?;
    out.extend(b"\n")
}

/// Appends the line of bytes that were answered on a connection, with its newline. An error may leave some of it.
pub fn put_out_line(
    alloc: Global,
    link: u32,
    now: Moment,
    bytes: &[u8],
    out: &mut Bytes,
) -> Result<(), OutOfMemory>
    ensures { OnOk result (out.new ≡ out.old ++ out_line link now bytes.now ++ codes "\n") }
{
    put_event(alloc, link, now, b"out", bytes, out)?;
    out.extend(b"\n")
}
