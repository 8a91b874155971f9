//! A script, line by line.
ghost use Rattle.std.specs.Prelude.{◌≡◌, ◌<◌, ◌^◌, ◌∷◌, [], None, IfOk, length};
ghost use Rattle.afp_base.specs.Counts.{CountsOn};
ghost use Rattle.afp_client.specs.session.Opening.{FitsLogin};
ghost use Rattle.client_script_run.specs.asker.Standing.{first_of};
ghost use Rattle.client_script_run.specs.run.Runs.{RunsClient, first_client};
ghost use Rattle.client_script_run.specs.declared.run.ends.ClientEnd.{ClientEnd};
ghost use Rattle.client_script_run.specs.run.lemma.Taking.{PrintsSaid, RunsPrinted, StopsBy, StopsLines, stood_at};

use crate::asker::{AskEnd, LinkAsker, open_asker};
use crate::run::ends::{ClientEnd, end_of_ask};
use crate::run::line::{Taken, take_text};
use crate::run::print::print_end;
use afp_base::{Bytes, OutOfMemory};
use afp_client::{ClientCore, Login};
use afp_outside::{Dialer, Lines, NextLine, Sink, Source, print_all};
use client_script_lines::LONGEST_LINE;
use std::alloc::Global;

/// The bytes of a read of a link at most.
const ROOM: usize = 16_384;

/// A dialer whose links were all handed back, and how its script's client ended.
#[derive(Drop)]
pub struct Ran<D> {
    pub dialer: D,
    pub end: ClientEnd,
}

/// How a script ended, and whether all its lines were carried out: then the session is closed.
#[derive(Clone, Copy, Debug, PartialEq, Eq)]
pub struct ScriptEnd {
    pub end: ClientEnd,
    pub closes: bool,
}

/// Prints what the last line had said, and tells why the script stops. Where there is no memory nothing is printed.
#[tactic(auto, using(crate::proofs::OfRun::StopLemmas::said_whole, crate::proofs::OfRun::StopLemmas::said_part))]
fn print_said<O: Sink>(out: &mut O, said: Bytes, why: ClientEnd) -> ClientEnd
    ensures { PrintsSaid (O.sink_state out.old) said why result (O.sink_state out.new) }
{
    match why {
        ClientEnd::Memory => why,
        _ => {
            if print_all(out, said.as_slice()) {
                why
            } else {
                ClientEnd::WriteFault
            }
        }
    }
}

/// Why a script stops behind what came of the line of this number; none where it goes on. `ended` is why its client had no answer for a call,
/// where it had none, and `at` the place on its link of the last reply. What a line had said that stops in its middle is printed.
fn stop_by<O: Sink>(
    out: &mut O,
    taken: Taken<AskEnd>,
    ended: Option<AskEnd>,
    line: u64,
    at: u64,
) -> Option<ClientEnd>
    ensures { StopsBy taken ended line at (O.sink_state out.old) result (O.sink_state out.new) }
{
    match taken {
        Taken::Goes => match ended {
            None => None,
            Some(_) => Some(ClientEnd::Memory),
        },
        Taken::Done => Some(ClientEnd::Done),
        Taken::Cut => Some(ClientEnd::WriteFault),
        Taken::Ended(_, said) => match ended {
            None => Some(ClientEnd::Memory),
            Some(end) => Some(print_said(out, said, end_of_ask(end, line))),
        },
        Taken::BadReply(said) => match ended {
            None => Some(print_said(out, said, ClientEnd::BadReply { at })),
            Some(_) => Some(ClientEnd::Memory),
        },
        Taken::Memory => Some(ClientEnd::Memory),
        Taken::BadLine => match ended {
            None => Some(ClientEnd::BadLine { line }),
            Some(_) => Some(ClientEnd::Memory),
        },
        Taken::Unread => Some(ClientEnd::Memory),
    }
}

/// Carries out a script's lines, until it ends.
fn take_lines<S: Source, O: Sink, D: Dialer>(
    alloc: Global,
    asker: &mut LinkAsker<D>,
    source: &mut S,
    out: &mut O,
    turns: u64,
) -> ScriptEnd
    requires turns { turns < 2 ^ 63 }
    requires live { asker.old.ended ≡ None }
    requires none { asker.old.asked.exchanges ≡ [] }
    requires answered { asker.old.asked.unanswered ≡ [] }
    requires limits { asker.old.asked.fixed.limits.items ≡ (record { turns = turns; spent = 0 }) ∷ [] }
    ensures core { asker.new.asked.fixed.core ≡ asker.old.asked.fixed.core }
    ensures dialer { asker.new.asked.fixed.dialer ≡ asker.old.asked.fixed.dialer }
    ensures turns { asker.new.asked.fixed.turns ≡ asker.old.asked.fixed.turns }
    ensures stops { StopsLines turns (S.source_state source.old) (O.sink_state out.old) result.end (stood_at asker.new.asked.exchanges asker.new.asked.unanswered asker.new.ended asker.new.cost asker.new.place asker.new.asked.fixed.limits.items result.closes) (S.source_state source.new) (O.sink_state out.new) }
{
    let mut lines = Lines::new(alloc);
    let mut mounted = None;
    let mut number: u64 = 0;
    loop {
        let most = turns.saturating_sub(asker.cost());
        match lines.next(source, LONGEST_LINE, most) {
            NextLine::Line(text) => {
                asker.limit(turns.saturating_sub(lines.taken()));
                number += 1;
                let taken = take_text(alloc, asker, out, &mut mounted, text.as_slice());
                match stop_by(out, taken, asker.ended(), number, asker.place()) {
                    None => {}
                    Some(end) => {
                        return ScriptEnd { end, closes: false };
                    }
                }
            }
            NextLine::End => {
                return ScriptEnd {
                    end: ClientEnd::Done,
                    closes: true,
                };
            }
            NextLine::ReadFault => {
                return ScriptEnd {
                    end: ClientEnd::ReadFault,
                    closes: false,
                };
            }
            NextLine::Spent => {
                return ScriptEnd {
                    end: ClientEnd::Spent,
                    closes: false,
                };
            }
            NextLine::Memory => {
                return ScriptEnd {
                    end: ClientEnd::Memory,
                    closes: false,
                };
            }
        }
    }
}

/// The room of a read.
fn room_of(alloc: Global) -> Result<Vec<u8>, OutOfMemory>
    ensures { IfOk result (λ room. length room.items ≡ 16384) }
{
    let Ok(room) = vec![in alloc; 0u8; ROOM] else {
        return Err(OutOfMemory);
    };
    Ok(room)
}

/// Carries out a script over a client that has a link, and hands all links back.
fn run_open<S: Source, O: Sink, D: Dialer>(
    alloc: Global,
    asker: LinkAsker<D>,
    source: &mut S,
    out: &mut O,
    turns: u64,
) -> Ran<D>
    requires turns { turns < 2 ^ 63 }
    requires live { asker.ended ≡ None }
    requires none { asker.asked.exchanges ≡ [] }
    requires answered { asker.asked.unanswered ≡ [] }
    requires limits { asker.asked.fixed.limits.items ≡ (record { turns = turns; spent = 0 }) ∷ [] }
    ensures { RunsPrinted D.Link.link_state turns (first_of asker.asked.fixed.core.value asker.asked.fixed.turns) (D.dialer_state asker.asked.fixed.dialer.value) (S.source_state source.old) (O.sink_state out.old) result.end (D.dialer_state result.dialer) (S.source_state source.new) (O.sink_state out.new) }
{
    let mut asker = asker;
    let ended = take_lines(alloc, &mut asker, source, out, turns);
    if ended.closes {
        let finished = asker.close();
        match finished.end {
            None => Ran {
                dialer: finished.dialer,
                end: ended.end,
            },
            Some(_) => Ran {
                dialer: finished.dialer,
                end: ClientEnd::Memory,
            },
        }
    } else {
        let finished = asker.leave();
        Ran {
            dialer: finished.dialer,
            end: ended.end,
        }
    }
}

/// Opens a client, carries out a script over it, and hands all links back.
fn run_script<S: Source, O: Sink, D: Dialer>(
    alloc: Global,
    login: Login,
    source: &mut S,
    out: &mut O,
    dialer: D,
    turns: u64,
) -> Ran<D>
    requires login { FitsLogin login }
    requires turns { turns < 2 ^ 63 }
    ensures { RunsPrinted D.Link.link_state turns (first_of (first_client login) turns) (D.dialer_state dialer) (S.source_state source.old) (O.sink_state out.old) result.end (D.dialer_state result.dialer) (S.source_state source.new) (O.sink_state out.new) }
{
    let Ok(core) = ClientCore::new(alloc, login) else {
        return Ran {
            dialer,
            end: ClientEnd::Memory,
        };
    };
    let Ok(room) = room_of(alloc) else {
        return Ran {
            dialer,
            end: ClientEnd::Memory,
        };
    };
    match open_asker(alloc, core, dialer, room, turns) {
        Ok(asker) => run_open(alloc, asker, source, out, turns),
        Err(failed) => Ran {
            dialer: failed.dialer,
            end: end_of_ask(failed.end, 1),
        },
    }
}

/// Carries out a script, and prints how it ended.
fn run_whole<S: Source, O: Sink, D: Dialer>(
    alloc: Global,
    login: Login,
    source: &mut S,
    out: &mut O,
    dialer: D,
    turns: u64,
) -> Ran<D>
    requires login { FitsLogin login }
    requires turns { turns < 2 ^ 63 }
    ensures { RunsClient D.Link.link_state turns login (D.dialer_state dialer) (S.source_state source.old) (O.sink_state out.old) result.end (D.dialer_state result.dialer) (S.source_state source.new) (O.sink_state out.new) }
{
    let ran = run_script(alloc, login, source, out, dialer, turns);
    if print_end(out, ran.end) {
        return ran;
    }
    Ran {
        dialer: ran.dialer,
        end: ClientEnd::WriteFault,
    }
}

/// Carries out the script that the source gives, line by line, over links of the dialer, and prints what each line comes to at once; where it
/// does not end well, a last line says how it ended.
///
/// It logs in first. Then the lines of the source are carried out in order, each read whole before its calls are asked (AFP Reference, "AFP
/// Calls"; AFP over TCP). `turns` counts bytes of the source and of the links, quiets, and 1 for each link that is dialled: no more is read or
/// dialled once they reach it. A line's number counts from 1. The dialer is given back with all its links.
pub fn run_client<S: Source, O: Sink, D: Dialer>(
    alloc: Global,
    login: Login,
    source: &mut S,
    out: &mut O,
    dialer: D,
    turns: u64,
) -> Ran<D>
    requires login { FitsLogin login }
    requires turns { turns < 2 ^ 63 }
    ensures runs { RunsClient D.Link.link_state turns login (D.dialer_state dialer) (S.source_state source.old) (O.sink_state out.old) result.end (D.dialer_state result.dialer) (S.source_state source.new) (O.sink_state out.new) }
    ensures source { result.end ≡ ClientEnd.ReadFault → CountsOn 1 (S.source_state source.old).faults (S.source_state source.new).faults }
    ensures sink { result.end ≡ ClientEnd.WriteFault → CountsOn 1 (O.sink_state out.old).faults (O.sink_state out.new).faults }
{
    run_whole(alloc, login, source, out, dialer, turns)
}
