//! A round: a call that was written goes to the line, and its reply to the client.
ghost use Rattle.std.specs.Prelude.{ℕ, List, IfOk};
ghost use Rattle.afp_base.specs.declared.code.Code.{Code};
ghost use Rattle.afp_calls_grammar.specs.declared.grammar.call.Call.{Call};
ghost use Rattle.afp_client.specs.session.Takes.{Step};
ghost use Rattle.once_across_breaks_drill.specs.rounds.Rounds.{ComesTo, IsAsked};

use crate::rounds::caller::Caller;
use crate::rounds::laws::requests_are_told_in_order;
use crate::rounds::line::Line;
use afp_base::{Bytes, Moment, OutOfMemory};
use afp_client::Event;
use afp_serial::laws::{faults_are_told_of_this_ask, sound_worlds_stay_sound};
use capture_log_server::SoleTeller;
use std::alloc::Global;

/// What a round comes to: the client and the line behind it, and what the reply did.
#[derive(Drop)]
pub struct Round {
    pub caller: Caller,
    pub line: Line,
    pub event: Event,
}

/// A call that was written goes to the line, and its reply to the client; what the client writes with it is appended to `out`. `None`: the call ended the
/// link. The one error is want of memory.
pub fn call_round<T: SoleTeller>(
    alloc: Global,
    caller: Caller,
    line: Line,
    request: &[u8],
    now: Moment,
    teller: &mut T,
    out: &mut Bytes,
) -> Result<Option<Round>, OutOfMemory>
    requires { (link : ℕ) × (id : ℕ) × (call : Call) × (does : Code → List ℕ → Step) × IsAsked now caller line request.now (T.shown teller.old) link id call does }
    ensures { IfOk result (λ round. (link id : ℕ) (call : Call) (does : Code → List ℕ → Step) → IsAsked now caller line request.now (T.shown teller.old) link id call does
        → ComesTo now link id call does line out.old (T.shown teller.old) round out.new (T.shown teller.new)) }
{
    requests_are_told_in_order();
    sound_worlds_stay_sound();
    faults_are_told_of_this_ask();
    let mut reply = Bytes::new(alloc);
    match line.serve(request, now, teller, &mut reply)? {
        None => Ok(None),
        Some(behind) => {
            let taken = caller.take(reply.as_slice(), out)?;
            Ok(Some(Round {
                caller: taken.0,
                line: behind,
                event: taken.1,
            }))
        }
    }
}
