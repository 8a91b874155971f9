//! Replaying a capture, and saying how it ended.
ghost use Rattle.std.specs.Prelude.{◌≡◌, ◌<◌, ◌^◌, false};
ghost use Rattle.afp_outside.specs.ends.Whole.{PrintsAll};
ghost use Rattle.afptool_lib.specs.teller.Keepers.{AreFresh};
ghost use Rattle.record_keeper.specs.Records.{steadily};
ghost use Rattle.afptool_lib.specs.tool.Lines.{replay_text, replay_status};
ghost use Rattle.afptool_lib.specs.tool.Tool.{RunsReplay};

use crate::teller::NewKeepers;
use crate::tool::lines::{report_bad_line, report_differs, report_same};
use afp_outside::{Sink, Source, print_all};
use capture_log::{ReplayEnd, replay};
use record_keeper::Keeper;
use std::alloc::Global;

/// Prints how a replay ended. `false`: a write failed.
fn report_end<O: Sink>(out: &mut O, end: ReplayEnd) -> bool
    ensures { PrintsAll (O.sink_state out.old) (replay_text end) result (O.sink_state out.new) }
{
    match end {
        ReplayEnd::Same { links, entries, .. } => report_same(out, links, entries),
        ReplayEnd::Differs {
            link,
            at,
            want,
            got,
        } => report_differs(out, link, at, want, got),
        ReplayEnd::BadCapture { line } => report_bad_line(out, line),
        ReplayEnd::ReadFault | ReplayEnd::Spent | ReplayEnd::Memory => print_all(out, b""),
    }
}

/// The exit status of a replay that was printed.
fn status_of(end: ReplayEnd) -> u8
    ensures { result ≡ replay_status end }
{
    match end {
        ReplayEnd::Same { .. } => 0,
        ReplayEnd::Differs { .. } => 1,
        ReplayEnd::BadCapture { .. } => 3,
        ReplayEnd::ReadFault => 4,
        ReplayEnd::Spent => 8,
        ReplayEnd::Memory => 6,
    }
}

/// Replays the capture that the source gives, over the first of eight keepers that nobody has used, prints how it ended, and gives the exit
/// status.
pub fn run_replay<K: Keeper, S: Source, O: Sink>(
    alloc: Global,
    fresh: Vec<K>,
    source: &mut S,
    out: &mut O,
    turns: u64,
) -> u8
    requires keepers { AreFresh (steadily K.steady K.records) K.sure fresh.items }
    requires turns { turns < 2 ^ 63 }
    requires fresh { (S.source_state source.old).ended ≡ false }
    ensures { RunsReplay turns (S.source_state source.old) (S.source_state source.new) (O.sink_state out.old) (O.sink_state out.new) result }
{
    let end = replay(alloc, NewKeepers::new(fresh), source, turns);
    if report_end(out, end) {
        status_of(end)
    } else {
        5
    }
}
