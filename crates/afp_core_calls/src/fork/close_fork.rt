//! FPCloseFork (AFP Reference, "FPCloseFork").
ghost use Rattle.afp_calls_grammar.specs.declared.grammar.call.Call.{Call};
ghost use Rattle.afp_core_state.specs.Running.{IsReady, RunsRow};

use afp_base::{Bytes, Code, ForkRef, OutOfMemory, SessionNumber};
use afp_core_state::{State, done, refused};
use afp_serial::{Outcome, Told};
use record_keeper::Keeper;

/// Closes an open fork of the session; its locks go. An error is want of memory, and nothing has changed.
pub fn close_fork<K: Keeper>(
    state: &mut State<K>,
    session: SessionNumber,
    reference: ForkRef,
) -> Result<(Told, Outcome), OutOfMemory>
    requires { IsReady state.old.world }
    ensures { RunsRow state.old session.0 (Call.CloseFork reference) result state.new }
{
    let Some(_own) = state.fork_at(session, reference) else {
        return Ok((refused(state.alloc, Code::ParamErr), Outcome::Done));
    };
    state.forks.close(reference);
    Ok((done(Bytes::new(state.alloc)), Outcome::Done))
}
