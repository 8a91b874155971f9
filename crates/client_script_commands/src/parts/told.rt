//! Asking, with what follows an answer.
ghost use Rattle.std.specs.Prelude.{◌≡◌, ◌<◌, List, ℕ, Ok, Err, OnOk, Option, Result, Some, None};
ghost use Rattle.afp_base.specs.declared.code.Code.{Code};
ghost use Rattle.afp_calls_grammar.specs.declared.grammar.call.Call.{Call};
ghost use Rattle.afp_replies.specs.declared.reply.Reply.{Reply};
ghost use Rattle.client_script_lines.specs.calls.Asked.{IsAskable};
ghost use Rattle.client_script_commands.specs.parts.Parts.{Asked, Comes, Part, bad, done, needs, must, must_tell, refuses};
ghost use Rattle.client_script_commands.specs.parts.Told.{AnyTells, AskTells, Carries, ClosesRefused, InForkTells, MustDo, MustTell, MustTells};
ghost use Rattle.client_script_commands.specs.declared.parts.asker.Stop.{Stop};

use crate::parts::asker::{Answer, Asker, Stop};
use afp_base::{Code, ForkRef};
use afp_calls_grammar::Call;
use afp_replies::Reply;
use client_script_lines::calls;

/// Lets a call go.
fn let_go(_call: Call) {}

/// Lets an answer go.
fn let_answer_go(_answer: Answer) {}

/// Asks a call.
pub fn ask<A: Asker>(asker: &mut A, call: Call) -> Result<Answer, Stop<A::End>>
    requires { IsAskable call }
    ensures tells { AskTells call.entry (A.exchanges asker.old) result (A.exchanges asker.new) }
    ensures any { AnyTells call.entry (A.exchanges asker.old) result (A.exchanges asker.new) }
    ensures falls { OnOk result (A.left asker.new < A.left asker.old) }
{
    let told = asker.ask(&call);
    let_go(call);
    match told {
        Ok(answer) => Ok(answer),
        Err(end) => Err(Stop::Ended(end)),
    }
}

/// Asks a call that must be told Ok.
pub fn must<A: Asker>(asker: &mut A, call: Call) -> Result<Reply, Stop<A::End>>
    requires { IsAskable call }
    ensures tells { MustTells call.entry (A.exchanges asker.old) result (A.exchanges asker.new) }
    ensures falls { OnOk result (A.left asker.new < A.left asker.old) }
{
    match ask(asker, call) {
        Ok(answer) => match answer.code {
            Code::Ok => Ok(answer.reply),
            _ => Err(Stop::Refused(answer.code)),
        },
        Err(stop) => Err(stop),
    }
}

/// Closes a fork, since a call was refused.
pub fn close_refused<A: Asker>(asker: &mut A, reference: ForkRef, code: Code) -> Stop<A::End>
    ensures { ClosesRefused reference code (A.exchanges asker.old) result (A.exchanges asker.new) }
{
    match ask(asker, calls::close_fork(reference)) {
        Ok(answer) => {
            let_answer_go(answer);
            Stop::Refused(code)
        }
        Err(stop) => stop,
    }
}

/// Asks a call in an open fork: where it is refused, the fork is closed.
pub fn in_fork<A: Asker>(asker: &mut A, reference: ForkRef, call: Call) -> Result<(), Stop<A::End>>
    requires { IsAskable call }
    ensures { InForkTells reference call.entry (A.exchanges asker.old) result (A.exchanges asker.new) }
{
    match ask(asker, call) {
        Ok(answer) => match answer.code {
            Code::Ok => {
                let_answer_go(answer);
                Ok(())
            }
            _ => {
                let code = answer.code;
                let_answer_go(answer);
                Err(close_refused(asker, reference, code))
            }
        },
        Err(stop) => Err(stop),
    }
}

/// Lets a reply go.
fn let_reply_go(_reply: Reply) {}

/// Asks a call that must be told Ok, whatever its reply.
pub fn must_do<A: Asker>(asker: &mut A, call: Call) -> Result<(), Stop<A::End>>
    requires { IsAskable call }
    ensures { MustDo call.entry (A.exchanges asker.old) result (A.exchanges asker.new) }
{
    match must(asker, call) {
        Ok(reply) => {
            let_reply_go(reply);
            Ok(())
        }
        Err(stop) => Err(stop),
    }
}

/// What a reply that must tell a value leads to. The function does nothing: its contract is the law.
pub fn replies_tell<A: Asker, T>()
    ensures value { (told : Reply → Option T) (call : Call) (before after : Asked A.Fixed) (reply : Reply) (value : T)
        → MustTells {E = A.End} call before (Ok reply) after → told reply ≡ Some value → MustTell {E = A.End} told call before (Ok value) after }
    ensures none { (told : Reply → Option T) (call : Call) (before after : Asked A.Fixed) (reply : Reply)
        → MustTells {E = A.End} call before (Ok reply) after → told reply ≡ None → MustTell {E = A.End} told call before (Err Stop.BadReply) after }
    ensures memory { (told : Reply → Option T) (call : Call) (before after : Asked A.Fixed) (reply : Reply)
        → MustTells {E = A.End} call before (Ok reply) after → MustTell {E = A.End} told call before (Err Stop.Memory) after }
    ensures stops { (told : Reply → Option T) (call : Call) (before after : Asked A.Fixed) (stop : Stop A.End)
        → MustTells call before (Err stop) after → MustTell told call before (Err stop) after }
{}

/// How a part of a script ends: it is done, it is refused, its last reply may not come, or there is no memory. The function does nothing:
/// its contract is the law.
pub fn parts_end<A: Asker>()
    ensures memory { (before : Asked A.Fixed) (part : Part) (result : Result (List ℕ) (Stop A.End)) → result ≡ Err Stop.Memory → Comes before part result before }
    ensures bad { (before : Asked A.Fixed) (result : Result (List ℕ) (Stop A.End)) → result ≡ Err Stop.BadReply → Comes before bad result before }
    ensures refused { (before : Asked A.Fixed) (c : Code) (result : Result (List ℕ) (Stop A.End)) → result ≡ Err (Stop.Refused c) → Comes before (refuses c) result before }
    ensures done { (before : Asked A.Fixed) (text : List ℕ) (result : Result (List ℕ) (Stop A.End)) → result ≡ Ok text → Comes before (done text) result before }
{}
