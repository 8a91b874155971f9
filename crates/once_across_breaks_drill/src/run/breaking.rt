//! Where the link of a step breaks.
ghost use Rattle.std.specs.Prelude.{ℕ, List, Some, IfOk};
ghost use Rattle.afp_calls_grammar.specs.declared.grammar.call.Call.{Call};
ghost use Rattle.afp_client.specs.session.State.{call_frame};
ghost use Rattle.dsi_frame.specs.Frame.{IsGood};
ghost use Rattle.once_across_breaks_drill.specs.rounds.Linked.{IsAnswered, IsLinked, WaitsFor, waits};
ghost use Rattle.once_across_breaks_drill.specs.run.lemma.Going.{GoesBack, GoesBehind, Reaches};

use crate::rounds::{Answered, Linked, come_back, lost_round, told_round};
use afp_base::{Bytes, Moment, OutOfMemory};
use afp_serial::House;
use capture_log_server::SoleTeller;
use once_across_breaks::Break;
use std::alloc::Global;

/// A client whose call waits, and the request that it wrote last.
#[derive(Drop)]
pub(crate) struct Reached {
    pub(crate) linked: Linked,
    pub(crate) request: Bytes,
}

/// The call is told: its reply comes to the client.
pub(crate) fn tell<T: SoleTeller>(
    alloc: Global,
    reached: Reached,
    now: Moment,
    teller: &mut T,
) -> Result<Answered, OutOfMemory>
    requires { (token : List ℕ) × (id : ℕ) × (next : ℕ) × (call : Call) × WaitsFor token id next call reached.linked reached.request }
    ensures { IfOk result (λ a. (token : List ℕ) (id next : ℕ) (call : Call) → WaitsFor token id next call reached.linked reached.request
        → IsAnswered now token id next call reached.linked (T.shown teller.old) a (T.shown teller.new)) }
{
    told_round(
        alloc,
        reached.linked,
        reached.request.as_slice(),
        now,
        teller,
    )
}

/// The link breaks, and the client comes back and writes its request again.
fn go_back<T: SoleTeller>(
    alloc: Global,
    linked: Linked,
    house: &House,
    now: Moment,
    teller: &mut T,
) -> Result<Reached, OutOfMemory>
    requires { (token : List ℕ) × (id : ℕ) × (next : ℕ) × (call : Call) × IsLinked token (Some (waits id call)) next linked }
    ensures { IfOk result (λ r. (token : List ℕ) (id next : ℕ) (call : Call) → IsLinked token (Some (waits id call)) next linked → IsGood (call_frame id call)
        → GoesBack now token id next call linked (T.shown teller.old) r (T.shown teller.new)) }
{
    let mut request = Bytes::new(alloc);
    let back = come_back(alloc, linked, house, now, teller, &mut request)?;
    Ok(Reached {
        linked: back,
        request,
    })
}

/// The request is served, the link breaks before the reply comes, and the client comes back and writes it again.
fn go_behind<T: SoleTeller>(
    alloc: Global,
    linked: Linked,
    request: &[u8],
    house: &House,
    now: Moment,
    teller: &mut T,
) -> Result<Reached, OutOfMemory>
    requires { (token : List ℕ) × (id : ℕ) × (next : ℕ) × (call : Call) × WaitsFor token id next call linked request.now }
    ensures { IfOk result (λ r. (token : List ℕ) (id next : ℕ) (call : Call) → WaitsFor token id next call linked request.now
        → GoesBehind now token id next call linked (T.shown teller.old) r (T.shown teller.new)) }
{
    let line = lost_round(alloc, linked.line, request, now, teller)?;
    let lost = Linked {
        caller: linked.caller,
        line,
        link: linked.link,
    };
    go_back(alloc, lost, house, now, teller)
}

/// The client comes to the link on which its call is told, by where its link breaks. The one error is want of memory.
pub(crate) fn reach<T: SoleTeller>(
    alloc: Global,
    linked: Linked,
    request: Bytes,
    breaks: Break,
    house: &House,
    now: Moment,
    teller: &mut T,
) -> Result<Reached, OutOfMemory>
    requires { (token : List ℕ) × (id : ℕ) × (next : ℕ) × (call : Call) × WaitsFor token id next call linked request }
    ensures { IfOk result (λ r. (token : List ℕ) (id next : ℕ) (call : Call) → WaitsFor token id next call linked request
        → Reaches now token id next call breaks linked (T.shown teller.old) r (T.shown teller.new)) }
{
    match breaks {
        Break::Never => Ok(Reached { linked, request }),
        Break::Before => go_back(alloc, linked, house, now, teller),
        Break::Behind => go_behind(alloc, linked, request.as_slice(), house, now, teller),
    }
}
