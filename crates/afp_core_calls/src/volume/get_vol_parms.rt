//! FPGetVolParms (AFP Reference, "FPGetVolParms").
ghost use Rattle.afp_calls_grammar.specs.declared.grammar.call.Call.{Call};
ghost use Rattle.afp_core_state.specs.Running.{RunsRow};

use afp_base::{Code, OutOfMemory, SessionNumber, VolumeId};
use afp_core_state::{State, parms_room, refused, told_of};
use afp_serial::{Outcome, Told};
use record_keeper::Keeper;

/// Tells what the bits ask of a volume that the session has open.
pub fn get_vol_parms<K: Keeper>(
    state: &State<K>,
    session: SessionNumber,
    volume: VolumeId,
    bits: u16,
) -> Result<(Told, Outcome), OutOfMemory>
    ensures { RunsRow state.now session.0 (Call.GetVolParms volume bits) result state.now }
{
    let Some(index) = state.opened(session, volume) else {
        return Ok((refused(state.alloc, Code::ParamErr), Outcome::Done));
    };
    let mut block = parms_room(state.alloc)?;
    let answer = state
        .kept_at(index)
        .get_vol_parms(state.alloc, volume, bits, &mut block);
    told_of(state.alloc, answer, block)
}
