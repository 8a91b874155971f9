//! FPFlush (AFP Reference, "FPFlush"): the volume's keeper settles what was committed to it.
ghost use Rattle.std.specs.Prelude.{◌<◌};
ghost use Rattle.afp_calls_grammar.specs.declared.grammar.call.Call.{Call};
ghost use Rattle.afp_core_state.specs.KeeperSettles.{SettlesRow};
ghost use Rattle.afp_core_state.specs.Running.{RunsRow};

use afp_base::{Code, OutOfMemory, SessionNumber, VolumeId};
use afp_core_state::{State, refused, told_settled};
use afp_serial::{Outcome, Told};
use record_keeper::Keeper;

/// Settles the keeper of a volume that the session has open.
pub fn flush<K: Keeper>(
    state: &mut State<K>,
    session: SessionNumber,
    volume: VolumeId,
) -> Result<(Told, Outcome), OutOfMemory>
    ensures runs { RunsRow state.old session.0 (Call.Flush volume) result state.new }
    ensures settles { SettlesRow state.old session.0 (Call.Flush volume) result state.new }
{
    let Some(index) = state.opened(session, volume) else {
        return Ok((refused(state.alloc, Code::ParamErr), Outcome::Done));
    };
    let answer = state.settle_at(index);
    told_settled(state.alloc, answer)
}
