//! What a link has answered, counted.
ghost use Rattle.std.specs.Prelude.{◌≡◌, false};
ghost use Rattle.dsi_frame.specs.Replies.{code_word};
ghost use Rattle.afp_server.specs.link.Tally.{no_tally, and_reply, and_told};

use afp_base::Code;
use afp_serial::Answered;

/// How many replies there were, how many of them with a code other than 0, each up to the last number of a count, and
/// whether every ask was answered: none was told Memory.
#[derive(Clone, Copy, Debug, PartialEq, Eq)]
pub struct Tally {
    pub replies: u64,
    pub refused: u64,
    pub answered: bool,
}

impl Tally {
    ghost use Rattle.std.specs.Prelude.{List, ℕ};
    ghost use Rattle.afp_serial.specs.Answered.{told_of};
    ghost use Rattle.afp_server.specs.link.Tally.{no_tally, and_reply, and_told};

    /// Nothing yet.
    pub fn new() -> Tally
        ensures { result ≡ no_tally }
    {
        Tally {
            replies: 0,
            refused: 0,
            answered: true,
        }
    }

    /// With one reply more, of this code.
    pub fn and_reply(self, code: Code) -> Tally
        ensures { result ≡ and_reply (code_word code) self }
    {
        let refused = if code.number().cast_unsigned() == 0 {
            self.refused
        } else {
            self.refused.saturating_add(1)
        };
        Tally {
            replies: self.replies.saturating_add(1),
            refused,
            answered: self.answered,
        }
    }

    /// With an ask that was told Memory.
    pub fn and_memory(self) -> Tally
        ensures { result ≡ record self { answered = false } }
    {
        Tally {
            replies: self.replies,
            refused: self.refused,
            answered: false,
        }
    }

    /// With an ask that was told this.
    pub fn and_told(self, answered: Answered) -> Tally
        ensures { (bytes : List ℕ) → result ≡ record self { answered = and_told (told_of answered bytes) self.answered } }
    {
        match answered {
            Answered::Memory => self.and_memory(),
            Answered::Opened { .. }
            | Answered::Reply { .. }
            | Answered::Live { .. }
            | Answered::Done
            | Answered::Displaced => self,
        }
    }
}
