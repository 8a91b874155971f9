//! Whoever asks the calls of a script.
use afp_base::{Code, OutOfMemory};
use afp_calls_grammar::Call;
use afp_replies::Reply;

/// The answer to a call.
#[derive(Drop)]
pub struct Answer {
    pub code: Code,
    pub reply: Reply,
}

/// Why a line prints nothing of its own.
#[derive(Drop)]
pub enum Stop<E> {
    /// A call was refused.
    Refused(Code),
    /// No answer comes.
    Ended(E),
    /// The last reply is none that may come.
    BadReply,
    /// There was no memory.
    Memory,
}

impl<E> From<OutOfMemory> for Stop<E> {
    ghost use Rattle.std.specs.Prelude.{◌≡◌};
    ghost use Rattle.client_script_commands.specs.declared.parts.asker.Stop.TheVariants.{Memory};

    ghost from_gives = { λ _ e. e ≡ Memory };

    fn from(_error: OutOfMemory) -> Stop<E> {
        Stop::Memory
    }
}

/// Asks calls, one after the other.
pub trait Asker {
    ghost use Rattle.std.specs.Prelude.{ℕ, ◌<◌, OnOk};
    ghost use Rattle.client_script_lines.specs.calls.Asked.{IsAskable};
    ghost use Rattle.client_script_commands.specs.parts.Parts.{Asked, AsksCall};

    /// Why no answer comes.
    type End: Drop;

    /// What stays the same of whoever asks.
    type Fixed;

    /// The calls that were answered, with their answers, and what stays the same.
    ghost exchanges: { Self → Asked Self.Fixed };

    /// How many answers may still come, at most.
    ghost left: { Self → ℕ };

    /// Asks a call.
    fn ask(&mut self, call: &Call) -> Result<Answer, Self::End>
        requires { IsAskable call.now }
        ensures asks { AsksCall call.now (exchanges self.old) result (exchanges self.new) }
        ensures falls { OnOk result (left self.new < left self.old) };
}
