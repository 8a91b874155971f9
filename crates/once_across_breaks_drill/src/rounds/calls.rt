//! Calls of a client on its link.
ghost use Rattle.std.specs.Prelude.{◌≡◌, ◌+◌, ◌<◌, ◌≤◌, ◌^◌, false, ℕ, List, None, Some, length, IfOk, OnOk};
ghost use Rattle.afp_base.specs.Limits.{payload_limit};
ghost use Rattle.afp_calls_grammar.specs.grammar.Call.{IsSpellable, canonical_call, canonical_piece};
ghost use Rattle.afp_calls_grammar.specs.declared.grammar.call.Call.{Call};
ghost use Rattle.afp_client.specs.declared.session.event.Event.{Event};
ghost use Rattle.afp_client.specs.session.State.{is_of_opening};
ghost use Rattle.afp_server.specs.declared.link.stage.Stage.{Stage};
ghost use Rattle.afp_serial.specs.Answer.{link_number};
ghost use Rattle.once_across_breaks_drill.specs.rounds.Linked.{Asks, IsAnswered, IsLinked, IsServed, IsWritten, WaitsFor};

use crate::rounds::laws::requests_are_told_in_order;
use crate::rounds::line::Line;
use crate::rounds::opening::Linked;
use crate::rounds::round::call_round;
use afp_base::{Bytes, Moment, OutOfMemory};
use afp_calls_grammar::Call;
use afp_client::{Event, fits_frame};
use capture_log_server::SoleTeller;
use replay_cache::Answer;
use std::alloc::Global;

/// A call fits in a frame. One that does not is told as want of memory.
fn fits(alloc: Global, call: &Call) -> Result<(), OutOfMemory>
    requires { IsSpellable call.now }
    ensures { OnOk result (length (canonical_call call.now) + length (canonical_piece call.now) ≤ payload_limit) }
{
    if fits_frame(alloc, call)? {
        Ok(())
    } else {
        Err(OutOfMemory)
    }
}

/// Asks a call on the link: its request is appended to `out`, and waits.
pub fn ask_call(
    alloc: Global,
    linked: Linked,
    call: &Call,
    out: &mut Bytes,
) -> Result<Linked, OutOfMemory>
    requires spellable { IsSpellable call.now }
    requires command { is_of_opening call.now ≡ false }
    requires linked { (token : List ℕ) × (id : ℕ) × (id < 2 ^ 16) × IsLinked token None id linked }
    ensures { IfOk result (λ l. (token : List ℕ) (id : ℕ) → id < 2 ^ 16 → IsLinked token None id linked
        → Asks token id call.now linked out.old l out.new) }
{
    fits(alloc, call)?;
    let mut caller = linked.caller;
    caller.ask(call, out)?;
    Ok(Linked {
        caller,
        line: linked.line,
        link: linked.link,
    })
}

/// The client behind a call, and what that was told.
#[derive(Drop)]
pub struct Answered {
    pub linked: Linked,
    pub answer: Answer,
}

/// What a call was told. An event that is no result is told as want of memory.
fn answer_of(event: Event) -> Result<Answer, OutOfMemory>
    ensures { IfOk result (λ answer. event ≡ Event.Told answer.code answer.block) }
{
    match event {
        Event::Told { code, block } => Ok(Answer { code, block }),
        _ => Err(OutOfMemory),
    }
}

/// A round of a call that waits: its reply comes to the client.
pub fn told_round<T: SoleTeller>(
    alloc: Global,
    linked: Linked,
    request: &[u8],
    now: Moment,
    teller: &mut T,
) -> Result<Answered, OutOfMemory>
    requires { (token : List ℕ) × (id : ℕ) × (next : ℕ) × (call : Call) × WaitsFor token id next call linked request.now }
    ensures { IfOk result (λ a. (token : List ℕ) (id next : ℕ) (call : Call) → WaitsFor token id next call linked request.now
        → IsAnswered now token id next call linked (T.shown teller.old) a (T.shown teller.new)) }
{
    let mut out = Bytes::new(alloc);
    match call_round(
        alloc,
        linked.caller,
        linked.line,
        request,
        now,
        teller,
        &mut out,
    )? {
        None => Err(OutOfMemory),
        Some(round) => {
            let answer = answer_of(round.event)?;
            Ok(Answered {
                linked: Linked {
                    caller: round.caller,
                    line: round.line,
                    link: linked.link,
                },
                answer,
            })
        }
    }
}

/// A call that waits goes to the line, and its reply is lost.
pub fn lost_round<T: SoleTeller>(
    alloc: Global,
    line: Line,
    request: &[u8],
    now: Moment,
    teller: &mut T,
) -> Result<Line, OutOfMemory>
    requires { (id : ℕ) × (call : Call) × IsWritten id call request.now }
    ensures { IfOk result (λ behind. (link id : ℕ) (call : Call) → line.stage ≡ Stage.Open (link_number link) → IsWritten id call request.now
        → IsServed now link id call line (T.shown teller.old) behind (T.shown teller.new)) }
{
    requests_are_told_in_order();
    let mut reply = Bytes::new(alloc);
    match line.serve(request, now, teller, &mut reply)? {
        None => Err(OutOfMemory),
        Some(behind) => Ok(behind),
    }
}
