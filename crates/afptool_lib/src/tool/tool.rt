//! The tool's top call.
ghost use Rattle.std.specs.Prelude.{◌≡◌, ◌<◌, ◌^◌, false, map, string_bytes};
ghost use Rattle.afptool_lib.specs.teller.Keepers.{AreFresh};
ghost use Rattle.record_keeper.specs.Records.{steadily};
ghost use Rattle.afpd_lib.specs.server.Reporting.{bad_words};
ghost use Rattle.afpd_lib.specs.server.Telling.{Tells};
ghost use Rattle.afptool_lib.specs.tool.Tool.{RunsPlain, RunsTool, TellsAsked, command_in, question_in};

use crate::client::{Finished, client_words, run_client_words};
use crate::explaining::{HELP, VERSION};
use crate::tool::checking::run_check;
use crate::tool::drills::run_drill;
use crate::tool::made::{run_make, run_tally};
use crate::tool::parcels::run_parcel;
use crate::tool::replays::run_replay;
use crate::tool::words::{Command, Question, asked, question_of};
use afp_outside::{Dialer, Sink, Source, print_all};
use record_keeper::Keeper;
use std::alloc::Global;

/// Prints that the words are bad.
fn refuse<O: Sink>(out: &mut O) -> u8
    ensures { Tells bad_words 2 (O.sink_state out.old) (O.sink_state out.new) result }
{
    if print_all(out, b"bad words\n") { 2 } else { 5 }
}

/// Prints a text that was asked for.
fn tell<O: Sink>(out: &mut O, text: &str) -> u8
    ensures { Tells text.now 0 (O.sink_state out.old) (O.sink_state out.new) result }
{
    if print_all(out, text.as_bytes()) {
        0
    } else {
        5
    }
}

/// Tells what the words ask to be told, or that they are bad.
fn answer<O: Sink>(out: &mut O, words: &[String]) -> u8
    ensures { TellsAsked (question_in (map (λ word. string_bytes word) words.now)) (O.sink_state out.old) (O.sink_state out.new) result }
{
    match question_of(words) {
        Some(Question::Help) => tell(out, HELP),
        Some(Question::Version) => tell(out, VERSION),
        None => refuse(out),
    }
}

/// Does what the words ask that dials nothing, and gives the exit status.
fn run_plain<K: Keeper, S: Source, O: Sink>(
    alloc: Global,
    words: &[String],
    fresh: Vec<K>,
    source: &mut S,
    out: &mut O,
    turns: u64,
) -> u8
    requires keepers { AreFresh (steadily K.steady K.records) K.sure fresh.items }
    requires turns { turns < 2 ^ 63 }
    requires fresh { (S.source_state source.old).ended ≡ false }
    ensures { RunsPlain (question_in (map (λ word. string_bytes word) words.now)) (command_in (map (λ word. string_bytes word) words.now)) turns (S.source_state source.old) (S.source_state source.new) (O.sink_state out.old) (O.sink_state out.new) result }
{
    match asked(words) {
        Some(Command::Replay) => run_replay(alloc, fresh, source, out, turns),
        Some(Command::Check) => run_check(alloc, source, out, turns),
        Some(Command::Parcel) => run_parcel(alloc, source, out, turns),
        Some(Command::Make { number, steps }) => run_make(alloc, fresh, number, steps, out),
        Some(Command::Tally { number, steps }) => run_tally(alloc, fresh, number, steps, out),
        Some(Command::Drill { number, steps }) => run_drill(alloc, fresh, number, steps, out),
        None => answer(out, words),
    }
}

/// Does what the words behind the program's name ask, over what the source gives, and gives the exit status; and the dialer, to which all its
/// links were handed back.
///
/// `client [--user NAME:PASSWORD] ADDRESS` carries out a script of a client, over links of the dialer, which is one to the address of the words;
/// without a user it logs in as a guest. What it prints and ends with, `run_client` says. `replay` replays a capture, over the first of eight
/// keepers that hold nothing and never fail. It prints `links L entries E same` with status 0, `differs link L at P want XX got YY` with
/// status 1, or `bad line N` with status 3. `check` prints a line for each frame of a stream of the Data Stream Interface, and
/// then `rest N`, with status 0 where N is 0 and else 3, or `bad at A REASON` with status 3. `parcel` reads an AppleSingle or AppleDouble file, and
/// prints `single data N resource M` or `double data N resource M`, or `bad parcel` with status 3. `make N K` prints the capture of a number
/// N below 2^64 and K steps, at most 100,000; `tally N K` prints what is counted in it, and `drill N K` what is counted where a client makes the
/// steps of that drill over links that break. These three read nothing. All but `client` dial nothing. `--help` and `--version`, as
/// the first word, print a text with status 0. The status is 2 for other words, with the line `bad words`; 4 where a read failed; 5 where a write failed; 6 for want of memory; and 8 where it
/// would read or dial again and `turns` is reached. Of `client` it is 1 where an opening was refused, 3 for a bad line, 7 where links broke or
/// none was dialled, 9 where the session was lost, and 10 for a bad reply.
pub fn afptool<K: Keeper, S: Source, O: Sink, D: Dialer>(
    alloc: Global,
    words: &[String],
    fresh: Vec<K>,
    source: &mut S,
    out: &mut O,
    dialer: D,
    turns: u64,
) -> Finished<D>
    requires keepers { AreFresh (steadily K.steady K.records) K.sure fresh.items }
    requires turns { turns < 2 ^ 63 }
    requires fresh { (S.source_state source.old).ended ≡ false }
    ensures { RunsTool D.Link.link_state (map (λ word. string_bytes word) words.now) turns (D.dialer_state dialer) (D.dialer_state result.dialer) (S.source_state source.old) (S.source_state source.new) (O.sink_state out.old) (O.sink_state out.new) result.status }
{
    match client_words(alloc, words) {
        Ok(Some(client)) => run_client_words(alloc, client, source, out, dialer, turns),
        Ok(None) => Finished {
            status: run_plain(alloc, words, fresh, source, out, turns),
            dialer,
            end: None,
        },
        Err(_) => Finished {
            dialer,
            status: 6,
            end: None,
        },
    }
}
