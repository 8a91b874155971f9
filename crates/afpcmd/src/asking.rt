//! Whoever asks over the client's links, with why no answer comes in words.
ghost use Rattle.std.specs.Prelude.{◌≡◌};

use afp_calls_grammar::Call;
use afp_client::TalkEnd;
use afp_outside::Dialer;
use afpcmd_lib::{Cause, Why};
use client_script_commands::{Answer, Asker};
use client_script_run::{AskEnd, Beginning, LinkAsker};

/// Why a client's links ended.
fn why_of_links(end: TalkEnd) -> Why {
    match end {
        TalkEnd::Refused { code } => Why {
            cause: Cause::NotDone,
            words: "the server refused the login",
            code: Some(code),
        },
        TalkEnd::Lost { code } => Why {
            cause: Cause::Lost,
            words: "the session is lost, and what the last command did is not known",
            code: Some(code),
        },
        TalkEnd::Bad { .. } => why(Cause::NotDone, "the server speaks another protocol"),
        TalkEnd::Broken => why(Cause::NoServer, "the connection broke eight times in a row"),
        TalkEnd::DialFault => why(Cause::NoServer, "there is no connection to the server"),
        TalkEnd::Spent => why(Cause::NotDone, "the client's limit is reached"),
        TalkEnd::Memory => why(Cause::Memory, "there is no memory"),
    }
}

/// A cause in words.
fn why(cause: Cause, words: &'static str) -> Why {
    Why {
        cause,
        words,
        code: None,
    }
}

/// Why no answer comes.
pub fn why_of(end: AskEnd) -> Why {
    match end {
        AskEnd::Links(end) => why_of_links(end),
        AskEnd::BadReply { .. } => why(Cause::NotDone, "the server sent a reply that is none"),
        AskEnd::Memory => why(Cause::Memory, "there is no memory"),
    }
}

/// A client over links of a dialer.
#[derive(Drop)]
pub struct Calls<D: Dialer> {
    asker: LinkAsker<D>,
}

impl<D: Dialer> Calls<D> {
    /// A client that has a link.
    pub fn new(asker: LinkAsker<D>) -> Calls<D> {
        Calls { asker }
    }
}

impl<D: Dialer + Drop> Calls<D> {
    /// Ends the session.
    pub fn close(self) {
        let _finished = self.asker.close();
    }
}

impl<D: Dialer> Asker for Calls<D> {
    ghost use Rattle.std.specs.Prelude.{◌-◌, ◌^◌};

    type End = Why;

    type Fixed = Beginning<D>;

    ghost exchanges = { λ c. c.asker.asked };

    ghost left = { λ c. 2 ^ 64 - c.asker.answered };

    fn ask(&mut self, call: &Call) -> Result<Answer, Why> {
        match self.asker.ask(call) {
            Ok(answer) => Ok(answer),
            Err(end) => Err(why_of(end)),
        }
    }
}
