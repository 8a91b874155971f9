//! FPCloseVol (AFP Reference, "FPCloseVol").
ghost use Rattle.afp_calls_grammar.specs.declared.grammar.call.Call.{Call};
ghost use Rattle.afp_core_state.specs.Running.{RunsRow};

use afp_base::{Bytes, Code, OutOfMemory, SessionNumber, VolumeId};
use afp_core_state::{State, done, refused};
use afp_serial::{Outcome, Told};
use record_keeper::Keeper;

/// Closes a volume that the session has open, and the session's forks on it.
pub fn close_vol<K: Keeper>(
    state: &mut State<K>,
    session: SessionNumber,
    volume: VolumeId,
) -> Result<(Told, Outcome), OutOfMemory>
    ensures { RunsRow state.old session.0 (Call.CloseVol volume) result state.new }
{
    if !state.sessions.has_volume(session, volume) {
        return Ok((refused(state.alloc, Code::ParamErr), Outcome::Done));
    }
    state.sessions.close_volume(session, volume);
    state.forks.close_volume(session, volume);
    Ok((done(Bytes::new(state.alloc)), Outcome::Done))
}
