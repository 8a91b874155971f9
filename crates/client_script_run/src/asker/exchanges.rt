//! The exchanges so far.
ghost use Rattle.std.specs.Prelude.{◌≡◌, [], ◌∷◌, ◌++◌, length};
ghost use Rattle.client_script_run.specs.asker.Read.{zipped};

use afp_calls_grammar::Call;
use client_script_commands::Answer;
use ghost_log::{Log, Notes};

/// Exchanges in the order in which they came, which only proofs read.
#[derive(Drop)]
pub struct Exchanges {
    pub(crate) calls: Notes<Call<'static>>,
    pub(crate) answers: Log<Answer>,
    ghost paired: { length calls.items ≡ length answers.items },
}

impl Exchanges {
    /// None.
    pub(crate) fn new() -> Exchanges
        ensures { zipped result.calls.items result.answers.items ≡ [] }
    {
        Exchanges {
            calls: Notes::new(),
            answers: Log::new(),
        }
    }

    /// The same, and one more behind them.
    #[tactic(auto, using(crate::proofs::OfAsker::Pairs::zipped_more))]
    pub(crate) fn and(&self, call: &Call, answer: &Answer) -> Exchanges
        ensures { zipped result.calls.items result.answers.items ≡ zipped self.now.calls.items self.now.answers.items ++ (record { call = call.now; answer = answer.now }) ∷ [] }
    {
        Exchanges {
            calls: self.calls.and(call),
            answers: self.answers.and(answer),
        }
    }
}

/// Notes one more call that got no answer.
pub(crate) fn note_unanswered(unanswered: &mut Notes<Call<'static>>, call: &Call)
    ensures { unanswered.new.items ≡ unanswered.old.items ++ call.now ∷ [] }
{
    *unanswered = unanswered.and(call);
}
