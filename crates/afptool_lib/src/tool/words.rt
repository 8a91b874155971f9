//! The words of the command line.
ghost use Rattle.std.specs.Prelude.{◌≡◌, ◌≤◌, IfSome, map, string_bytes};
ghost use Rattle.capture_made.specs.requests.Requests.{most_steps};
ghost use Rattle.afptool_lib.specs.tool.Tool.{FitsSteps, command_in, command_of, is_help, is_version, last_number, made_in, made_of, question_in};
ghost use Rattle.line_words.specs.Numbers.{padded_number_in};

use capture_made::MOST_STEPS;
use line_words::padded_number;

/// What the tool is asked to do that dials nothing.
#[derive(Clone, Copy)]
pub enum Command {
    /// Replay a capture.
    Replay,
    /// Check a stream of frames.
    Check,
    /// Read a parcel.
    Parcel,
    /// Make the capture of a number and so many steps.
    Make { number: u64, steps: u32 },
    /// Count in that capture.
    Tally { number: u64, steps: u32 },
    /// Count in the drill of a number and so many steps.
    Drill { number: u64, steps: u32 },
}

/// What one word asks.
fn command_of(word: &[u8]) -> Option<Command>
    ensures command { result ≡ command_of word.now }
    ensures fits { FitsSteps result }
{
    if word == b"replay".as_slice() {
        return Some(Command::Replay);
    }
    if word == b"check".as_slice() {
        return Some(Command::Check);
    }
    if word == b"parcel".as_slice() {
        return Some(Command::Parcel);
    }
    None
}

/// The number of steps that a word spells.
fn steps_in(word: &[u8]) -> Option<u32>
    ensures value { result ≡ padded_number_in most_steps word.now }
    ensures most { IfSome result (λ steps. steps ≤ most_steps) }
{
    match padded_number(word, u64::from(MOST_STEPS)) {
        Some(steps) => Some(steps as u32),
        None => None,
    }
}

/// What a word asks of the capture of a number and so many steps, or of the drill.
fn made_of(word: &[u8], number: u64, steps: u32) -> Option<Command>
    requires { steps ≤ most_steps }
    ensures command { result ≡ made_of word.now number steps }
    ensures fits { FitsSteps result }
{
    if word == b"make".as_slice() {
        return Some(Command::Make { number, steps });
    }
    if word == b"tally".as_slice() {
        return Some(Command::Tally { number, steps });
    }
    if word == b"drill".as_slice() {
        return Some(Command::Drill { number, steps });
    }
    None
}

/// What three words ask.
fn made_in(word: &[u8], first: &[u8], second: &[u8]) -> Option<Command>
    ensures command { result ≡ made_in word.now (padded_number_in last_number first.now) (padded_number_in most_steps second.now) }
    ensures fits { FitsSteps result }
{
    let Some(found) = padded_number(first, u64::MAX) else {
        return None;
    };
    let Some(steps) = steps_in(second) else {
        return None;
    };
    made_of(word, found, steps)
}

/// What the words behind the program's name ask.
pub fn asked(words: &[String]) -> Option<Command>
    ensures command { result ≡ command_in (map (λ word. string_bytes word) words.now) }
    ensures fits { FitsSteps result }
{
    match words {
        [word] => command_of(word.as_bytes()),
        [word, first, second] => made_in(word.as_bytes(), first.as_bytes(), second.as_bytes()),
        _ => None,
    }
}

/// What words may ask to be told.
#[derive(Clone, Copy, PartialEq, Eq)]
pub enum Question {
    /// What the commands are.
    Help,
    /// Which version this is.
    Version,
}

/// Whether a word asks for help.
fn is_help(word: &[u8]) -> bool
    ensures { result ≡ is_help word.now }
{
    word == b"--help".as_slice() || word == b"-h".as_slice()
}

/// Whether a word asks for the version.
fn is_version(word: &[u8]) -> bool
    ensures { result ≡ is_version word.now }
{
    word == b"--version".as_slice() || word == b"-V".as_slice()
}

/// What the words behind the program's name ask to be told: the first one says it.
pub fn question_of(words: &[String]) -> Option<Question>
    ensures { result ≡ question_in (map (λ word. string_bytes word) words.now) }
{
    let [word, ..] = words else {
        return None;
    };
    if is_version(word.as_bytes()) {
        return Some(Question::Version);
    }
    if is_help(word.as_bytes()) {
        return Some(Question::Help);
    }
    None
}
