//! What is printed.
ghost use Rattle.std.specs.Prelude.{◌≡◌, ◌++◌, IfOk};
ghost use Rattle.std.specs.Fmt.{decimal, signed_decimal};
ghost use Rattle.afp_base.specs.Code.{number_of};
ghost use Rattle.afp_outside.specs.ends.Whole.{PrintsAll};
ghost use Rattle.client_script_lines.specs.texts.Texts.{newline};
ghost use Rattle.client_script_run.specs.run.Ends.{last_line, worded_line};

use crate::run::ends::ClientEnd;
use afp_base::{Bytes, Code, OutOfMemory};
use afp_outside::{Sink, print_all};
use itoa::Buffer;

/// A text with a newline behind it.
pub(crate) fn line_of(text: Bytes) -> Result<Bytes, OutOfMemory>
    ensures { IfOk result (λ line. line ≡ text ++ newline) }
{
    let mut line = text;
    line.push_u8(b'\n')?;
    Ok(line)
}

/// Prints a word, what stands behind it, and a newline. It takes no memory.
fn print_worded<O: Sink>(out: &mut O, word: &[u8], rest: &[u8]) -> bool
    ensures { PrintsAll (O.sink_state out.old) (worded_line word.now rest.now) result (O.sink_state out.new) }
{
    if !print_all(out, word) {
        return false;
    }
    if !print_all(out, rest) {
        return false;
    }
    print_all(out, b"\n")
}

/// Prints a word and a number.
fn print_number<O: Sink>(out: &mut O, word: &[u8], number: u64) -> bool
    ensures { PrintsAll (O.sink_state out.old) (worded_line word.now (decimal number)) result (O.sink_state out.new) }
{
    let mut buffer = Buffer::new();
    print_worded(out, word, buffer.format(number).as_bytes())
}

/// Prints a word and the number of a code.
fn print_code<O: Sink>(out: &mut O, word: &[u8], code: Code) -> bool
    ensures { PrintsAll (O.sink_state out.old) (worded_line word.now (signed_decimal (number_of code))) result (O.sink_state out.new) }
{
    let mut buffer = Buffer::new();
    print_worded(out, word, buffer.format(code.number()).as_bytes())
}

/// Prints how a script's client ended, where it did not carry out the script. It takes no memory.
pub(crate) fn print_end<O: Sink>(out: &mut O, end: ClientEnd) -> bool
    ensures { PrintsAll (O.sink_state out.old) (last_line end) result (O.sink_state out.new) }
{
    match end {
        ClientEnd::Done => print_all(out, b""),
        ClientEnd::Refused { code } => print_code(out, b"refused ", code),
        ClientEnd::SessionLost { line } => print_number(out, b"lost ", line),
        ClientEnd::BadReply { .. } => print_all(out, b"bad reply\n"),
        ClientEnd::BadLine { line } => print_number(out, b"bad line ", line),
        ClientEnd::ReadFault => print_all(out, b"source fault\n"),
        ClientEnd::WriteFault => print_all(out, b""),
        ClientEnd::Broken => print_all(out, b"broken\n"),
        ClientEnd::DialFault => print_all(out, b"dial fault\n"),
        ClientEnd::Spent => print_all(out, b"spent\n"),
        ClientEnd::Memory => print_all(out, b"no memory\n"),
    }
}
