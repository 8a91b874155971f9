//! FPSetVolParms (AFP Reference, "FPSetVolParms").
ghost use Rattle.afp_core_calls.specs.volume.VolumeCalls.{SetsVolume};
ghost use Rattle.afp_core_state.specs.Running.{RunsRow};

use crate::tree_changes::change_alone;
use afp_base::{OutOfMemory, SessionNumber, VolumeId};
use afp_calls::Call;
use afp_core_state::State;
use afp_serial::{Outcome, Told};
use record_keeper::Keeper;

/// Sets what the bits ask of a volume that the session has open.
pub fn set_vol_parms<K: Keeper>(
    state: &mut State<K>,
    session: SessionNumber,
    volume: VolumeId,
    call: &Call,
) -> Result<(Told, Outcome), OutOfMemory>
    requires { SetsVolume call.now volume }
    ensures { RunsRow state.old session.0 call.now result state.new }
{
    change_alone(state, session, volume, call)
}
