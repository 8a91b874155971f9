//! A line, carried out and printed.
ghost use Rattle.client_script_lines.specs.texts.Texts.{error_text};
ghost use Rattle.client_script_run.specs.run.Script.{PrintsTold, TakesLine, TakesText};

use crate::line::run_line;
use crate::run::print::line_of;
use afp_base::{Bytes, Code, VolumeId};
use afp_outside::{Sink, print_all};
use client_script_commands::{Asker, Stop};
use client_script_lines::{LineFault, ScriptLine, error_text, read_line};
use std::alloc::Global;

/// What comes of a line.
#[derive(Drop)]
pub enum Taken<E> {
    /// It was carried out and printed, and the script goes on.
    Goes,
    /// It was a `bye`, carried out and printed.
    Done,
    /// It was carried out, and a write of what it prints failed.
    Cut,
    /// One of its calls got no answer, and this is what it had said.
    Ended(E, Bytes),
    /// Its last reply is none that may come, and this is what it had said.
    BadReply(Bytes),
    /// There was no memory.
    Memory,
    /// It has none of the forms.
    BadLine,
    /// There was no memory to read it.
    Unread,
}

/// What a print comes to.
#[derive(Clone, Copy, Debug, PartialEq, Eq)]
pub enum Printed {
    /// All was printed.
    All,
    /// A write failed behind a first part.
    Part,
    /// There was no memory, and nothing was printed.
    Nothing,
}

/// Prints a text and a newline.
fn print_told<O: Sink>(out: &mut O, text: Bytes) -> Printed
    ensures { PrintsTold text (O.sink_state out.old) result (O.sink_state out.new) }
{
    let Ok(line) = line_of(text) else {
        return Printed::Nothing;
    };
    if print_all(out, line.as_slice()) {
        Printed::All
    } else {
        Printed::Part
    }
}

/// Prints a refusal.
fn print_refusal<O: Sink>(alloc: Global, out: &mut O, code: Code) -> Printed
    ensures { PrintsTold (error_text code) (O.sink_state out.old) result (O.sink_state out.new) }
{
    match error_text(alloc, code) {
        Ok(text) => print_told(out, text),
        Err(_) => Printed::Nothing,
    }
}

/// Lets a text go.
fn let_go(_text: Bytes) {}

/// Carries out a line, and prints what it comes to.
#[tactic(auto, using(crate::proofs::OfRun::ScriptLemmas::takes_on, crate::proofs::OfRun::ScriptLemmas::takes_refused, crate::proofs::OfRun::ScriptLemmas::takes_bye, crate::proofs::OfRun::ScriptLemmas::takes_cut, crate::proofs::OfRun::ScriptLemmas::cut_refused, crate::proofs::OfRun::ScriptLemmas::lacks_all, crate::proofs::OfRun::ScriptLemmas::lacks_own, crate::proofs::OfRun::ScriptLemmas::lacks_refused))]
fn take_line<A: Asker, O: Sink>(
    alloc: Global,
    asker: &mut A,
    out: &mut O,
    mounted: &mut Option<VolumeId>,
    line: &ScriptLine,
) -> Taken<A::End>
    ensures { TakesLine mounted.old line.now (A.exchanges asker.old) (O.sink_state out.old) result mounted.new (A.exchanges asker.new) (O.sink_state out.new) }
{
    let mut said = Bytes::new(alloc);
    match run_line(alloc, asker, mounted, line, &mut said) {
        Ok(text) => {
            let_go(said);
            match print_told(out, text) {
                Printed::All => match line {
                    ScriptLine::Bye => Taken::Done,
                    _ => Taken::Goes,
                },
                Printed::Part => Taken::Cut,
                Printed::Nothing => Taken::Memory,
            }
        }
        Err(Stop::Refused(code)) => {
            let_go(said);
            match print_refusal(alloc, out, code) {
                Printed::All => Taken::Goes,
                Printed::Part => Taken::Cut,
                Printed::Nothing => Taken::Memory,
            }
        }
        Err(Stop::Ended(end)) => Taken::Ended(end, said),
        Err(Stop::BadReply) => Taken::BadReply(said),
        Err(Stop::Memory) => {
            let_go(said);
            Taken::Memory
        }
    }
}

/// Reads the bytes of a line, and carries it out.
pub(crate) fn take_text<A: Asker, O: Sink>(
    alloc: Global,
    asker: &mut A,
    out: &mut O,
    mounted: &mut Option<VolumeId>,
    text: &[u8],
) -> Taken<A::End>
    ensures { TakesText mounted.old text.now (A.exchanges asker.old) (O.sink_state out.old) result mounted.new (A.exchanges asker.new) (O.sink_state out.new) }
{
    match read_line(alloc, text) {
        Ok(line) => take_line(alloc, asker, out, mounted, &line),
        Err(LineFault::Bad) => Taken::BadLine,
        Err(LineFault::Memory) => Taken::Unread,
    }
}
