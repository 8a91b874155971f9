//! How a script ends.
ghost use Rattle.std.specs.Prelude.{◌≡◌};
ghost use Rattle.client_script_run.specs.run.Ends.{end_of_ask, end_of_links};

use crate::asker::AskEnd;
use afp_base::Code;
use afp_client::TalkEnd;

/// How a script's client ended.
#[derive(Clone, Copy, Debug, PartialEq, Eq)]
pub enum ClientEnd {
    /// The script was carried out.
    Done,
    /// An opening was refused.
    Refused { code: Code },
    /// The session was lost while the outcome of the script's line of this number, from 1, was not known.
    SessionLost { line: u64 },
    /// The frame at this place of its link is none that may come, or shows no reply of its call.
    BadReply { at: u64 },
    /// The script's line of this number, from 1, has none of the forms.
    BadLine { line: u64 },
    /// A read of the script failed.
    ReadFault,
    /// A write of what is printed failed.
    WriteFault,
    /// Eight links in a row broke, and no command got a reply on them.
    Broken,
    /// No link was dialled.
    DialFault,
    /// The limit is reached.
    Spent,
    /// There was no memory.
    Memory,
}

/// The end that a client's links come to, at a line.
pub(crate) fn end_of_links(end: TalkEnd, line: u64) -> ClientEnd
    ensures { result ≡ end_of_links end line }
{
    match end {
        TalkEnd::Refused { code } => ClientEnd::Refused { code },
        TalkEnd::Lost { .. } => ClientEnd::SessionLost { line },
        TalkEnd::Bad { at } => ClientEnd::BadReply { at },
        TalkEnd::Broken => ClientEnd::Broken,
        TalkEnd::DialFault => ClientEnd::DialFault,
        TalkEnd::Spent => ClientEnd::Spent,
        TalkEnd::Memory => ClientEnd::Memory,
    }
}

/// The end that a call comes to that was told nothing, at a line.
pub(crate) fn end_of_ask(end: AskEnd, line: u64) -> ClientEnd
    ensures { result ≡ end_of_ask end line }
{
    match end {
        AskEnd::Links(end) => end_of_links(end, line),
        AskEnd::BadReply { at } => ClientEnd::BadReply { at },
        AskEnd::Memory => ClientEnd::Memory,
    }
}
