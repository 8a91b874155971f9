//! Whoever asks, over answers that are given beforehand.
ghost use Rattle.std.specs.Prelude.{◌≡◌, ◌<◌, [], ◌∷◌, ◌++◌, OnOk, length};
ghost use Rattle.afp_calls_grammar.specs.grammar.Call.{IsSpellable};
ghost use Rattle.test_scripts.specs.Exchanged.{zipped};

use crate::asked::kind_of;
use afp_base::{Bytes, Code, OutOfMemory};
use afp_calls::write_call;
use afp_calls_grammar::Call;
use afp_replies::{Reply, ReplyFault, read_reply};
use client_script_commands::{Answer, Asker};
use ghost_log::{Log, Notes};
use std::alloc::Global;
use test_lines::lines::digits_of;

/// Exchanges in the order in which they came, which only proofs read.
#[derive(Drop)]
pub struct Exchanges {
    calls: Notes<Call<'static>>,
    answers: Log<Answer>,
    ghost paired: { length calls.items ≡ length answers.items },
}

impl Exchanges {
    /// None.
    fn new() -> Exchanges
        ensures { zipped result.calls.items result.answers.items ≡ [] }
    {
        Exchanges {
            calls: Notes::new(),
            answers: Log::new(),
        }
    }

    /// The same, and one more behind them.
    #[tactic(auto, using(crate::proofs::Pairs::zipped_more))]
    fn and(&self, call: &Call, answer: &Answer) -> Exchanges
        ensures { zipped result.calls.items result.answers.items ≡ zipped self.now.calls.items self.now.answers.items ++ (record { call = call.now; answer = answer.now }) ∷ [] }
    {
        Exchanges {
            calls: self.calls.and(call),
            answers: self.answers.and(answer),
        }
    }
}

/// An answer that is given.
#[derive(Drop)]
pub struct Given {
    pub code: Code,
    pub block: Bytes,
}

/// Why no answer comes.
#[derive(Drop)]
pub enum FakeEnd {
    /// There are no more.
    NoMore,
    /// The block is no reply.
    Bad,
    /// There was no memory.
    Memory,
}

/// Answers, the next one last; and the requests, as text.
#[derive(Drop)]
pub struct Fake {
    alloc: Global,
    given: Vec<Given>,
    asked: String,
    exchanges: Exchanges,
    unanswered: Notes<Call<'static>>,
}

/// Appends a request, and gives its block.
fn put_request(alloc: Global, asked: &mut String, call: &Call) -> Result<Bytes, OutOfMemory>
    requires { IsSpellable call.now }
{
    let mut block = Bytes::new(alloc);
    let mut piece = Bytes::new(alloc);
    write_call(alloc, call, &mut block, &mut piece)?;
    asked.push(' ')?;
    asked.push_str(digits_of(alloc, block.as_slice())?.as_str())?;
    if !piece.as_slice().is_empty() {
        asked.push('+')?;
        asked.push_str(digits_of(alloc, piece.as_slice())?.as_str())?;
    }
    Ok(block)
}

/// The reply of an answer.
fn reply_of(alloc: Global, request: &[u8], given: &Given) -> Result<Reply, FakeEnd> {
    match read_reply(alloc, &kind_of(request), given.code, given.block.as_slice()) {
        Ok(reply) => Ok(reply),
        Err(ReplyFault::Bad { .. }) => Err(FakeEnd::Bad),
        Err(ReplyFault::Memory) => Err(FakeEnd::Memory),
    }
}

/// The next answer, to this call.
fn next_answer(
    alloc: Global,
    asked: &mut String,
    given: &mut Vec<Given>,
    call: &Call,
) -> Result<Answer, FakeEnd>
    requires { IsSpellable call.now }
    ensures { OnOk result (length given.new.items < length given.old.items) }
{
    let Ok(request) = put_request(alloc, asked, call) else {
        return Err(FakeEnd::Memory);
    };
    let Some(next) = given.pop() else {
        return Err(FakeEnd::NoMore);
    };
    match reply_of(alloc, request.as_slice(), &next) {
        Ok(reply) => Ok(Answer {
            code: next.code,
            reply,
        }),
        Err(end) => Err(end),
    }
}

/// Notes one more call that got no answer.
fn note_unanswered(unanswered: &mut Notes<Call<'static>>, call: &Call)
    ensures { unanswered.new.items ≡ unanswered.old.items ++ call.now ∷ [] }
{
    *unanswered = unanswered.and(call);
}

impl Fake {
    pub fn new(alloc: Global, given: Vec<Given>) -> Fake {
        Fake {
            alloc,
            given,
            asked: String::new(alloc),
            exchanges: Exchanges::new(),
            unanswered: Notes::new(),
        }
    }

    /// The requests, as text.
    pub fn asked(&self) -> &str {
        self.asked.as_str()
    }
}

impl Asker for Fake {
    ghost use Rattle.std.specs.Prelude.{length};
    ghost use Rattle.test_scripts.specs.Exchanged.{zipped};

    type End = FakeEnd;

    type Fixed = ();

    ghost exchanges = { λ f. record { fixed = tt; exchanges = zipped f.exchanges.calls.items f.exchanges.answers.items; unanswered = f.unanswered.items } };

    ghost left = { λ f. length f.given.items };

    fn ask(&mut self, call: &Call) -> Result<Answer, FakeEnd> {
        match next_answer(self.alloc, &mut self.asked, &mut self.given, call) {
            Ok(answer) => {
                self.exchanges = self.exchanges.and(call, &answer);
                Ok(answer)
            }
            Err(end) => {
                note_unanswered(&mut self.unanswered, call);
                Err(end)
            }
        }
    }
}
