//! Making a capture.
ghost use Rattle.std.specs.Prelude.{◌≡◌, ◌<◌, ◌≤◌, [], ℕ, OnOk};
ghost use Rattle.capture_log.specs.Taking.{IsCapture};
ghost use Rattle.capture_log_server.specs.CaptureState.{CaptureState, begins};
ghost use Rattle.capture_made.specs.requests.Requests.{most_steps};
ghost use Rattle.capture_made.specs.made.Making.{MakesBy};
ghost use Rattle.capture_made.specs.made.lemma.Adding.{FinishesBy, HasMade, MakesTo, StepsBy, WritesFront};

use crate::made::adding::{add_connection, add_end, add_house, add_step};
use crate::requests::Steps;
use afp_base::{Bytes, OutOfMemory};
use afp_outside::{Sink, print_all};
use capture_log::Capture;
use capture_log_server::TellerMaker;
use std::alloc::Global;

/// How making a capture ends.
#[derive(Clone, Copy, Debug, PartialEq, Eq)]
pub enum MakeEnd {
    /// The capture was written.
    Done,
    /// A write failed.
    WriteFault,
    /// There was no memory.
    Memory,
}

/// How many bytes of text wait for a write.
const ROOM: usize = 65_536;

/// Makes the house of a new capture, and opens its three connections.
pub(crate) fn begin<M: TellerMaker>(
    alloc: Global,
    capture: &mut Capture<M>,
    text: &mut Bytes,
) -> Result<(), OutOfMemory>
    requires { IsCapture capture.old begins }
    ensures { OnOk result (text.old ≡ [] → (number : ℕ) → HasMade number 0 capture.new text.new) }
{
    add_house(capture, text)?;
    add_connection(alloc, capture, 1, text)?;
    add_connection(alloc, capture, 2, text)?;
    add_connection(alloc, capture, 3, text)
}

/// Makes a step, and writes what is made where it is long.
fn make_step<M: TellerMaker, O: Sink>(
    alloc: Global,
    capture: &mut Capture<M>,
    steps: &mut Steps,
    text: &mut Bytes,
    out: &mut O,
) -> MakeEnd
    requires more { steps.old.steps < most_steps }
    requires is { (s : CaptureState) × IsCapture capture.old s }
    ensures { StepsBy steps.old capture.old text.old (O.sink_state out.old) result steps.new capture.new text.new (O.sink_state out.new) }
{
    let Ok(()) = add_step(alloc, capture, steps, text) else {
        return MakeEnd::Memory;
    };
    if write_long(text, out) {
        MakeEnd::Done
    } else {
        MakeEnd::WriteFault
    }
}

/// Makes so many steps, and writes what is made as it comes.
fn make_steps<M: TellerMaker, O: Sink>(
    alloc: Global,
    capture: &mut Capture<M>,
    number: u64,
    count: u32,
    text: &mut Bytes,
    out: &mut O,
) -> MakeEnd
    requires most { count ≤ most_steps }
    requires made { HasMade number 0 capture.old text.old }
    ensures { MakesTo number count (O.sink_state out.old) capture.new text.new result (O.sink_state out.new) }
{
    let mut steps = Steps::new(number);
    for _step in 0..count {
        match make_step(alloc, capture, &mut steps, text, out) {
            MakeEnd::Done => {}
            MakeEnd::WriteFault => return MakeEnd::WriteFault,
            MakeEnd::Memory => return MakeEnd::Memory,
        }
    }
    MakeEnd::Done
}

/// Writes the text where it is long. `false`: a write failed.
fn write_long<O: Sink>(text: &mut Bytes, out: &mut O) -> bool
    ensures { WritesFront (O.sink_state out.old) text.old text.new result (O.sink_state out.new) }
{
    if text.as_slice().len() < ROOM {
        return true;
    }
    if !print_all(out, text.as_slice()) {
        return false;
    }
    text.truncate(0);
    true
}

/// Writes what is left, behind the last line.
fn finish<M: TellerMaker, O: Sink>(
    capture: &mut Capture<M>,
    text: &mut Bytes,
    out: &mut O,
) -> MakeEnd
    requires { (s : CaptureState) × IsCapture capture.old s }
    ensures { FinishesBy capture.old text.old (O.sink_state out.old) result (O.sink_state out.new) }
{
    let Ok(()) = add_end(capture, text) else {
        return MakeEnd::Memory;
    };
    if print_all(out, text.as_slice()) {
        MakeEnd::Done
    } else {
        MakeEnd::WriteFault
    }
}

/// Makes a new capture, and writes it.
fn make_all<M: TellerMaker, O: Sink>(
    alloc: Global,
    capture: &mut Capture<M>,
    number: u64,
    steps: u32,
    out: &mut O,
) -> MakeEnd
    requires new { IsCapture capture.old begins }
    requires most { steps ≤ most_steps }
    ensures { MakesBy number steps result (O.sink_state out.old) (O.sink_state out.new) }
{
    let mut text = Bytes::new(alloc);
    let Ok(()) = begin(alloc, capture, &mut text) else {
        return MakeEnd::Memory;
    };
    match make_steps(alloc, capture, number, steps, &mut text, out) {
        MakeEnd::Done => finish(capture, &mut text, out),
        MakeEnd::WriteFault => MakeEnd::WriteFault,
        MakeEnd::Memory => MakeEnd::Memory,
    }
}

/// Makes the capture of a number and so many steps, and writes it to the sink. Its replies are those of the server. It holds 65,536 bytes of text and a line or two at most, and the server.
pub fn make<M: TellerMaker, O: Sink>(
    alloc: Global,
    fresh: M,
    number: u64,
    steps: u32,
    out: &mut O,
) -> MakeEnd
    requires { steps ≤ most_steps }
    ensures { MakesBy number steps result (O.sink_state out.old) (O.sink_state out.new) }
{
    let mut capture = Capture::new(alloc, fresh);
    make_all(alloc, &mut capture, number, steps, out)
}
