//! FPFlushFork (AFP Reference, "FPFlushFork"): the keeper of the fork's volume settles what was committed to it.
ghost use Rattle.afp_calls_grammar.specs.declared.grammar.call.Call.{Call};
ghost use Rattle.afp_core_state.specs.KeeperSettles.{SettlesRow};
ghost use Rattle.afp_core_state.specs.Running.{IsReady, RunsRow};

use afp_base::{Code, ForkRef, OutOfMemory, SessionNumber};
use afp_core_state::{State, refused, told_settled};
use afp_serial::{Outcome, Told};
use record_keeper::Keeper;

/// Settles the keeper of the volume of an open fork of the session.
/// An error is want of memory, and nothing has changed.
pub fn flush_fork<K: Keeper>(
    state: &mut State<K>,
    session: SessionNumber,
    reference: ForkRef,
) -> Result<(Told, Outcome), OutOfMemory>
    requires { IsReady state.old.world }
    ensures runs { RunsRow state.old session.0 (Call.FlushFork reference) result state.new }
    ensures settles { SettlesRow state.old session.0 (Call.FlushFork reference) result state.new }
{
    let Some(own) = state.fork_at(session, reference) else {
        return Ok((refused(state.alloc, Code::ParamErr), Outcome::Done));
    };
    let answer = state.settle_at(own.index);
    told_settled(state.alloc, answer)
}
