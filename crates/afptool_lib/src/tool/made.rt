//! Making a capture, and counting in it.
ghost use Rattle.std.specs.Prelude.{◌≡◌, ◌≤◌};
ghost use Rattle.afptool_lib.specs.teller.Keepers.{AreFresh};
ghost use Rattle.capture_made.specs.requests.Requests.{most_steps};
ghost use Rattle.record_keeper.specs.Records.{steadily};
ghost use Rattle.afpd_lib.specs.server.Telling.{Tells};
ghost use Rattle.afptool_lib.specs.tool.Lines.{tally_line};
ghost use Rattle.afptool_lib.specs.tool.Tool.{RunsMake, RunsTally, make_status};

use crate::teller::NewKeepers;
use crate::tool::lines::report_tally;
use afp_outside::Sink;
use capture_made::{MakeEnd, Tallied, make, tally};
use record_keeper::Keeper;
use std::alloc::Global;

/// The exit status of a capture that was made.
fn status_of(end: MakeEnd) -> u8
    ensures { result ≡ make_status end }
{
    match end {
        MakeEnd::Done => 0,
        MakeEnd::WriteFault => 5,
        MakeEnd::Memory => 6,
    }
}

/// Prints the capture of a number and so many steps, over the first of eight keepers that nobody has used, and gives the exit status.
pub fn run_make<K: Keeper, O: Sink>(
    alloc: Global,
    fresh: Vec<K>,
    number: u64,
    steps: u32,
    out: &mut O,
) -> u8
    requires keepers { AreFresh (steadily K.steady K.records) K.sure fresh.items }
    requires most { steps ≤ most_steps }
    ensures { RunsMake number steps (O.sink_state out.old) (O.sink_state out.new) result }
{
    status_of(make(alloc, NewKeepers::new(fresh), number, steps, out))
}

/// Prints what was counted, and gives the exit status.
fn tell<O: Sink>(out: &mut O, tallied: &Tallied) -> u8
    ensures { Tells (tally_line tallied.now) 0 (O.sink_state out.old) (O.sink_state out.new) result }
{
    if report_tally(out, tallied) { 0 } else { 5 }
}

/// Prints what is counted in that capture, and gives the exit status.
pub fn run_tally<K: Keeper, O: Sink>(
    alloc: Global,
    fresh: Vec<K>,
    number: u64,
    steps: u32,
    out: &mut O,
) -> u8
    requires keepers { AreFresh (steadily K.steady K.records) K.sure fresh.items }
    requires most { steps ≤ most_steps }
    ensures { RunsTally number steps (O.sink_state out.old) (O.sink_state out.new) result }
{
    match tally(alloc, NewKeepers::new(fresh), number, steps) {
        Ok(tallied) => tell(out, &tallied),
        Err(_) => 6,
    }
}
