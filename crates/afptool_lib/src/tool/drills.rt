//! Counting in a drill.
ghost use Rattle.std.specs.Prelude.{◌≡◌, ◌≤◌};
ghost use Rattle.afptool_lib.specs.teller.Keepers.{AreFresh};
ghost use Rattle.capture_made.specs.requests.Requests.{most_steps};
ghost use Rattle.record_keeper.specs.Records.{steadily};
ghost use Rattle.afptool_lib.specs.tool.Lines.{drill_line};
ghost use Rattle.afpd_lib.specs.server.Telling.{Tells};
ghost use Rattle.afptool_lib.specs.tool.Tool.{RunsDrill};

use crate::teller::NewKeepers;
use crate::tool::lines::report_drill;
use afp_outside::Sink;
use once_across_breaks_drill::drill;
use record_keeper::Keeper;
use std::alloc::Global;

/// Prints what was counted, and gives the exit status.
fn tell<O: Sink>(out: &mut O, commands: u32, breaks: u32, ok: u32, refused: u32) -> u8
    ensures { Tells (drill_line commands breaks ok refused) 0 (O.sink_state out.old) (O.sink_state out.new) result }
{
    if report_drill(out, commands, breaks, ok, refused) {
        0
    } else {
        5
    }
}

/// Makes the drill of a number and so many steps, over the first of eight keepers that nobody has used, prints what is counted in it, and gives the
/// exit status.
pub fn run_drill<K: Keeper, O: Sink>(
    alloc: Global,
    fresh: Vec<K>,
    number: u64,
    steps: u32,
    out: &mut O,
) -> u8
    requires keepers { AreFresh (steadily K.steady K.records) K.sure fresh.items }
    requires most { steps ≤ most_steps }
    ensures { RunsDrill number steps (O.sink_state out.old) (O.sink_state out.new) result }
{
    match drill(alloc, NewKeepers::new(fresh), number, steps) {
        Ok(drilled) => tell(
            out,
            drilled.commands,
            drilled.breaks,
            drilled.ok,
            drilled.refused,
        ),
        Err(_) => 6,
    }
}
