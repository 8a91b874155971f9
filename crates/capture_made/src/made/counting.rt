//! Counting in a made capture.
ghost use Rattle.std.specs.Prelude.{◌≤◌, ℕ, List, IfOk, OnOk};
ghost use Rattle.capture_log.specs.Taking.{IsCapture};
ghost use Rattle.capture_log_server.specs.CaptureState.{begins};
ghost use Rattle.capture_made.specs.requests.Requests.{most_steps};
ghost use Rattle.capture_made.specs.made.Making.{Tallies};
ghost use Rattle.capture_made.specs.made.lemma.Adding.{CountsEnd, HasMade, HasRun};

use crate::made::adding::{add_end, add_step};
use crate::made::making::begin;
use crate::requests::Steps;
use afp_base::{Bytes, OutOfMemory, VolumeId};
use capture_log::{Capture, ReplayEnd};
use capture_log_server::TellerMaker;
use std::alloc::Global;

/// What is counted in a made capture: the connections that were fed, the entries of the history, the replies, those of them with a
/// code other than 0, and the nodes of the volume in the last world.
#[derive(Clone, Copy, Debug, PartialEq, Eq)]
pub struct Tallied {
    pub links: u64,
    pub entries: u64,
    pub replies: u64,
    pub refused: u64,
    pub nodes: u64,
}

/// Makes so many steps, and keeps no text.
fn run_steps<M: TellerMaker>(
    alloc: Global,
    capture: &mut Capture<M>,
    number: u64,
    count: u32,
    text: &mut Bytes,
) -> Result<(), OutOfMemory>
    requires most { count ≤ most_steps }
    requires made { HasMade number 0 capture.old text.old }
    ensures { OnOk result ((lines : List (List ℕ)) × HasRun number count capture.new lines) }
{
    let mut steps = Steps::new(number);
    for _step in 0..count {
        add_step(alloc, capture, &mut steps, text)?;
        text.truncate(0);
    }
    Ok(())
}

/// The counts of a capture that has ended.
fn counts_of<M: TellerMaker>(capture: &Capture<M>) -> Result<Tallied, OutOfMemory>
    ensures { IfOk result (λ tallied. CountsEnd capture.now tallied) }
{
    let Some(nodes) = capture.nodes(VolumeId(1)) else {
        return Err(OutOfMemory);
    };
    match capture.end()? {
        ReplayEnd::Same {
            links,
            entries,
            replies,
            refused,
        } => Ok(Tallied {
            links,
            entries,
            replies,
            refused,
            nodes: nodes as u64,
        }),
        _ => Err(OutOfMemory),
    }
}

/// Makes a new capture, and counts in it.
fn tally_all<M: TellerMaker>(
    alloc: Global,
    capture: &mut Capture<M>,
    number: u64,
    steps: u32,
) -> Result<Tallied, OutOfMemory>
    requires new { IsCapture capture.old begins }
    requires most { steps ≤ most_steps }
    ensures { IfOk result (λ tallied. Tallies number steps tallied) }
{
    let mut text = Bytes::new(alloc);
    begin(alloc, capture, &mut text)?;
    run_steps(alloc, capture, number, steps, &mut text)?;
    add_end(capture, &mut text)?;
    counts_of(capture)
}

/// Counts in the capture that `make` writes of the same number and steps. It holds a line or two, and the server.
pub fn tally<M: TellerMaker>(
    alloc: Global,
    fresh: M,
    number: u64,
    steps: u32,
) -> Result<Tallied, OutOfMemory>
    requires { steps ≤ most_steps }
    ensures { IfOk result (λ tallied. Tallies number steps tallied) }
{
    let mut capture = Capture::new(alloc, fresh);
    tally_all(alloc, &mut capture, number, steps)
}
