//! FPLogout (AFP Reference, "FPLogout").
ghost use Rattle.std.specs.Prelude.{Ok};
ghost use Rattle.afp_calls_grammar.specs.declared.grammar.call.Call.{Call};
ghost use Rattle.afp_core_state.specs.Running.{IsReady, done as with_done, RunsRow};

use afp_base::{Bytes, Code, SessionNumber};
use afp_core_state::State;
use afp_serial::Told;
use record_keeper::Keeper;

/// Ends the session, and closes its forks.
pub fn logout<K: Keeper>(state: &mut State<K>, session: SessionNumber) -> Told
    requires { IsReady state.old.world }
    ensures { RunsRow state.old session.0 Call.Logout (Ok (with_done result)) state.new }
{
    state.end(session);
    Told::Reply {
        code: Code::Ok,
        block: Bytes::new(state.alloc),
        ends: true,
    }
}
