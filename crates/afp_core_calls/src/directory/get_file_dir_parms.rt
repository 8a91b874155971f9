//! FPGetFileDirParms (AFP Reference, "FPGetFileDirParms").
ghost use Rattle.afp_calls_grammar.specs.declared.grammar.call.Call.{Call};
ghost use Rattle.afp_core_state.specs.Running.{RunsRow};

use afp_base::{Code, NodeId, OutOfMemory, SessionNumber, VolumeId};
use afp_core_state::{State, parms_room, refused, told_of};
use afp_names::Path;
use afp_serial::{Outcome, Told};
use record_keeper::Keeper;

/// Tells what the bits ask of a file or directory in a volume that the session has open.
pub fn get_file_dir_parms<K: Keeper>(
    state: &State<K>,
    session: SessionNumber,
    volume: VolumeId,
    dir: NodeId,
    file_bits: u16,
    dir_bits: u16,
    path: &Path,
) -> Result<(Told, Outcome), OutOfMemory>
    ensures { RunsRow state.now session.0 (Call.GetFileDirParms volume dir file_bits dir_bits path.now) result state.now }
{
    let Some(index) = state.opened(session, volume) else {
        return Ok((refused(state.alloc, Code::ParamErr), Outcome::Done));
    };
    let opens = state.forks.on(volume);
    let mut block = parms_room(state.alloc)?;
    let answer = state.kept_at(index).get_file_dir_parms(
        state.alloc,
        state.user(session),
        &opens,
        file_bits,
        dir_bits,
        dir,
        path,
        &mut block,
    );
    told_of(state.alloc, answer, block)
}
