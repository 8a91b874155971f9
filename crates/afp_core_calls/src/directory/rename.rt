//! FPRename (AFP Reference, "FPRename").
ghost use Rattle.afp_core_calls.specs.directory.DirectoryCalls.{Renames};
ghost use Rattle.afp_core_state.specs.Running.{RunsRow};

use crate::tree_changes::change_alone;
use afp_base::{OutOfMemory, SessionNumber, VolumeId};
use afp_calls::Call;
use afp_core_state::State;
use afp_serial::{Outcome, Told};
use record_keeper::Keeper;

/// Gives a file or directory in a volume that the session has open another name.
pub fn rename<K: Keeper>(
    state: &mut State<K>,
    session: SessionNumber,
    volume: VolumeId,
    call: &Call,
) -> Result<(Told, Outcome), OutOfMemory>
    requires { Renames call.now volume }
    ensures { RunsRow state.old session.0 call.now result state.new }
{
    change_alone(state, session, volume, call)
}
