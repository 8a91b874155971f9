//! Checking a stream of frames.
ghost use Rattle.std.specs.Prelude.{◌≡◌, ◌+◌, ◌<◌, ◌≤◌, ◌^◌, ◌++◌, [], List, ℕ, length, false};
ghost use Rattle.afp_outside.specs.ends.Sink.{SinkState};
ghost use Rattle.afp_outside.specs.ends.Whole.{PrintsAll};
ghost use Rattle.dsi_frame.specs.Buffered.{buffer_length};
ghost use Rattle.afptool_lib.specs.tool.Checking.{end_text, end_status, RunsCheck};
ghost use Rattle.afptool_lib.specs.tool.lemma.Checking.{ChecksTo, PrintsFrames, PrintsTo};
ghost use Rattle.afpd_lib.specs.server.Telling.{Tells};

use crate::tool::lines::{report_bad_frame, report_frame, report_rest};
use afp_outside::{ReadResult, Sink, Source, print_all};
use dsi_frame::{BadFrame, Deframer, Head};
use std::alloc::Global;

/// How a stream ends.
#[derive(Clone, Copy)]
pub enum CheckEnd {
    /// So many bytes are left, less than a frame.
    Rest(u64),
    /// A header is bad.
    Bad(BadFrame),
    /// A read failed.
    ReadFault,
    /// So many bytes were taken that no more are read.
    Spent,
}

/// What stopped a check.
#[derive(Clone, Copy)]
pub enum CheckStop {
    /// The stream, whose frames were printed.
    Ended(CheckEnd),
    /// A write failed.
    WriteFault,
}

/// What stopped the printing of whole frames.
#[derive(Clone, Copy)]
pub enum FramesEnd {
    /// There are none at the front.
    More,
    /// A header is bad.
    Bad(BadFrame),
    /// A write failed.
    WriteFault,
}

/// Prints the whole frames at the front.
fn print_frames<O: Sink>(deframer: &mut Deframer, out: &mut O) -> FramesEnd
    ensures { (start : SinkState) (bytes : List ℕ) → PrintsFrames start bytes deframer.old (O.sink_state out.old)
        → PrintsTo start bytes result deframer.new (O.sink_state out.new) }
{
    loop {
        match deframer.head() {
            Head::Whole(header) => {
                if !report_frame(out, deframer.place(), header) {
                    return FramesEnd::WriteFault;
                }
                deframer.advance();
            }
            Head::NotYet => return FramesEnd::More,
            Head::Bad(bad) => return FramesEnd::Bad(bad),
        }
    }
}

/// Takes the next bytes of the stream, for which there is room, and prints the frames that they make whole.
fn take_piece<O: Sink>(deframer: &mut Deframer, out: &mut O, piece: &[u8]) -> FramesEnd
    requires total { deframer.old.place + length deframer.old.rest + length piece.now < 2 ^ 64 }
    requires room { length deframer.old.rest + length piece.now ≤ buffer_length }
    ensures { (start : SinkState) (bytes : List ℕ) → PrintsFrames start bytes deframer.old (O.sink_state out.old)
        → PrintsTo start (bytes ++ piece.now) result deframer.new (O.sink_state out.new) }
{
    deframer.feed(piece);
    print_frames(deframer, out)
}

/// The bytes of a read at most.
const ROOM: usize = 4096;

/// Reads a stream, and prints its frames, until it ends.
fn check_all<S: Source, O: Sink>(
    deframer: &mut Deframer,
    source: &mut S,
    out: &mut O,
    turns: u64,
) -> CheckStop
    requires turns { turns < 2 ^ 63 }
    requires fresh { (S.source_state source.old).ended ≡ false }
    requires new { deframer.old ≡ record { place = 0; rest = [] } }
    ensures { ChecksTo turns (S.source_state source.old) (S.source_state source.new) (O.sink_state out.old) (O.sink_state out.new) result }
{
    let mut room = [0; ROOM];
    let mut taken: u64 = 0;
    while taken < turns {
        let most = deframer.room().min(ROOM);
        match source.read(&mut room[..most]) {
            ReadResult::Got(n) => {
                taken += n as u64;
                match take_piece(deframer, out, &room[..n]) {
                    FramesEnd::More => {}
                    FramesEnd::Bad(bad) => return CheckStop::Ended(CheckEnd::Bad(bad)),
                    FramesEnd::WriteFault => return CheckStop::WriteFault,
                }
            }
            ReadResult::End => return CheckStop::Ended(CheckEnd::Rest(deframer.rest() as u64)),
            ReadResult::Failed => return CheckStop::Ended(CheckEnd::ReadFault),
            ReadResult::Quiet => return CheckStop::Ended(CheckEnd::ReadFault),
        }
    }
    CheckStop::Ended(CheckEnd::Spent)
}

/// Prints how a stream ends. `false`: a write failed.
fn report_end<O: Sink>(out: &mut O, end: CheckEnd) -> bool
    ensures { PrintsAll (O.sink_state out.old) (end_text end) result (O.sink_state out.new) }
{
    match end {
        CheckEnd::Rest(rest) => report_rest(out, rest),
        CheckEnd::Bad(bad) => report_bad_frame(out, bad.at, bad.reason),
        CheckEnd::ReadFault | CheckEnd::Spent => print_all(out, b""),
    }
}

/// The exit status of a check that was printed.
fn status_of(end: CheckEnd) -> u8
    ensures { result ≡ end_status end }
{
    match end {
        CheckEnd::Rest(rest) => { if rest == 0 { 0 } else { 3 } }
        CheckEnd::Bad(_) => 3,
        CheckEnd::ReadFault => 4,
        CheckEnd::Spent => 8,
    }
}

/// Prints how a stream ends, and gives the exit status.
fn tell_end<O: Sink>(out: &mut O, end: CheckEnd) -> u8
    ensures { Tells (end_text end) (end_status end) (O.sink_state out.old) (O.sink_state out.new) result }
{
    if report_end(out, end) {
        status_of(end)
    } else {
        5
    }
}

/// Checks the stream of frames that the source gives, prints a line for each frame and how the stream ends, and gives the exit
/// status. It holds one frame at most.
pub fn run_check<S: Source, O: Sink>(alloc: Global, source: &mut S, out: &mut O, turns: u64) -> u8
    requires turns { turns < 2 ^ 63 }
    requires fresh { (S.source_state source.old).ended ≡ false }
    ensures { RunsCheck turns (S.source_state source.old) (S.source_state source.new) (O.sink_state out.old) (O.sink_state out.new) result }
{
    let Ok(mut deframer) = Deframer::new(alloc) else {
        return 6;
    };
    match check_all(&mut deframer, source, out, turns) {
        CheckStop::Ended(end) => tell_end(out, end),
        CheckStop::WriteFault => 5,
    }
}
