//! A mirror, call by call.
ghost use Rattle.std.specs.Prelude.{◌≡◌, false};
ghost use Rattle.afp_mirror_walk.specs.Follows.{first, goes};
ghost use Rattle.afp_mirror_walk.specs.Asking.{IsAsking};
ghost use Rattle.afp_mirror_walk.specs.Ports.{IsNoLogout};
ghost use Rattle.afp_mirror.specs.Runs.{AskTells, Comes};
ghost use Rattle.afp_mirror.specs.lemma.Hearing.{Hears, PortTells};
ghost use Rattle.client_script_lines.specs.calls.Asked.{IsAskable};

use afp_mirror_walk::{Asking, Heard, MirrorEnd, Port, PortFault, Side, Walk, told};
use afp_names::Name;
use afp_replies::{ReplyFault, ReplyKind, read_reply};
use replay_cache::Answer;
use std::alloc::Global;

/// What an answer says.
fn heard_of(
    alloc: Global,
    side: Side,
    kind: &ReplyKind,
    answer: &Answer,
) -> Result<Heard, MirrorEnd>
    ensures { Hears side kind.now answer.now result }
{
    match read_reply(alloc, kind, answer.code, answer.block.as_slice()) {
        Ok(reply) => Ok(Heard {
            code: answer.code,
            reply,
        }),
        Err(fault) => match fault {
            ReplyFault::Bad { .. } => Err(MirrorEnd::Bad { side }),
            ReplyFault::Memory => Err(MirrorEnd::Memory),
        },
    }
}

/// Asks a port a call.
#[tactic(auto, using(crate::proofs::RunLemmas::tells_heard, crate::proofs::RunLemmas::tells_stopped))]
fn ask_port<P: Port>(
    alloc: Global,
    port: &mut P,
    side: Side,
    asking: &Asking<'_>,
) -> Result<Heard, MirrorEnd>
    requires goes_on { (P.port_state port.old).is_over ≡ false }
    requires askable { IsAskable asking.now.call }
    requires stays { IsNoLogout asking.now.call }
    ensures { PortTells side asking.now.call asking.now.kind (P.port_state port.old) result (P.port_state port.new) }
{
    match port.ask(&asking.call) {
        Ok(answer) => heard_of(alloc, side, &asking.kind, &answer),
        Err(fault) => match fault {
            PortFault::Failed => Err(MirrorEnd::Failed { side }),
            PortFault::Memory => Err(MirrorEnd::Memory),
        },
    }
}

/// Asks the call that comes next.
#[tactic(auto, using(crate::proofs::RunLemmas::asks_from, crate::proofs::RunLemmas::asks_to))]
fn ask_of<P: Port, Q: Port>(
    alloc: Global,
    from: &mut P,
    to: &mut Q,
    walk: &Walk,
    asking: &Asking<'_>,
) -> Result<Heard, MirrorEnd>
    requires from { (P.port_state from.old).is_over ≡ false }
    requires to { (Q.port_state to.old).is_over ≡ false }
    requires next { IsAsking walk.now asking.now }
    ensures { AskTells walk.now (P.port_state from.old) (Q.port_state to.old) result (P.port_state from.new) (Q.port_state to.new) }
{
    let _walk = walk;
    match asking.side {
        Side::From => ask_port(alloc, from, Side::From, asking),
        Side::To => ask_port(alloc, to, Side::To, asking),
    }
}

/// Lets a call go.
fn let_go(_asking: Asking<'_>) {}

/// Asks the next call.
#[tactic(auto, using(crate::proofs::RunLemmas::comes_lack))]
fn ask<P: Port, Q: Port>(
    alloc: Global,
    from: &mut P,
    to: &mut Q,
    walk: &Walk,
) -> Result<Heard, MirrorEnd>
    requires from { (P.port_state from.old).is_over ≡ false }
    requires to { (Q.port_state to.old).is_over ≡ false }
    ensures { AskTells walk.now (P.port_state from.old) (Q.port_state to.old) result (P.port_state from.new) (Q.port_state to.new) }
{
    let Ok(asking) = walk.asking() else {
        return Err(MirrorEnd::Memory);
    };
    let heard = ask_of(alloc, from, to, walk, &asking);
    let_go(asking);
    heard
}

/// Copies all nodes below the root of one volume into another, which is to be empty, and reads them back.
#[tactic(auto, using(crate::proofs::RunLemmas::comes_lack, crate::proofs::RunLemmas::carries_first, crate::proofs::RunLemmas::carry_on, crate::proofs::RunLemmas::end_there, crate::proofs::RunLemmas::spent_there))]
pub fn mirror<P: Port, Q: Port>(
    alloc: Global,
    from: &mut P,
    volume: &Name,
    to: &mut Q,
    target: &Name,
) -> MirrorEnd
    requires from { (P.port_state from.old).is_over ≡ false }
    requires to { (Q.port_state to.old).is_over ≡ false }
    ensures { Comes (goes (first volume.now target.now)) (P.port_state from.old) (Q.port_state to.old) result (P.port_state from.new) (Q.port_state to.new) }
{
    let mut walk = match Walk::new(alloc, volume, target) {
        Ok(walk) => walk,
        Err(_) => return MirrorEnd::Memory,
    };
    let mut left = u64::MAX;
    while left > 0 {
        left -= 1;
        let heard = match ask(alloc, from, to, &walk) {
            Ok(heard) => heard,
            Err(end) => return end,
        };
        walk = match told(walk, &heard) {
            Ok(next) => next,
            Err(end) => return end,
        };
    }
    MirrorEnd::Memory
}
