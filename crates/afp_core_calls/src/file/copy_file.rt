//! FPCopyFile (AFP Reference, "FPCopyFile"): from one volume into another, or into the same.
ghost use Rattle.std.specs.Prelude.{◌<◌, length};
ghost use Rattle.afp_calls_grammar.specs.declared.grammar.call.Call.{Call};
ghost use Rattle.afp_core_calls.specs.file.lemma.Copying.{PlansCopy};
ghost use Rattle.afp_core_state.specs.Running.{RunsRow};

use crate::file::rights::lacks_read;
use afp_base::{Bytes, Code, NodeId, OutOfMemory, SessionNumber, VolumeId};
use afp_core_state::{State, commit_plan, latest, refused, told_of, whole_at};
use afp_names::Path;
use afp_serial::{Outcome, Told};
use record_keeper::Keeper;
use volume_edits::{Plan, copied_file, plan_copy_file};
use volume_tree::PlanFault;

/// Copies a file of a volume into a directory of a volume, both of which the session has open.
pub fn copy_file<K: Keeper>(
    state: &mut State<K>,
    session: SessionNumber,
    volume: VolumeId,
    dir: NodeId,
    target_volume: VolumeId,
    target_dir: NodeId,
    path: &Path,
    target_path: &Path,
    new_path: &Path,
) -> Result<(Told, Outcome), OutOfMemory>
    ensures { RunsRow state.old session.0 (Call.CopyFile volume dir target_volume target_dir path.now target_path.now new_path.now) result state.new }
{
    let Some(index) = state.opened(session, volume) else {
        return Ok((refused(state.alloc, Code::ParamErr), Outcome::Done));
    };
    if !state.sessions.has_volume(session, target_volume) {
        return Ok((refused(state.alloc, Code::ParamErr), Outcome::Done));
    }
    let user = state.user(session);
    let planned = plan_copy(
        state,
        user,
        index,
        volume,
        dir,
        target_volume,
        target_dir,
        path,
        target_path,
        new_path,
    );
    match planned {
        Ok((target, plan)) => {
            let nothing = Bytes::new(state.alloc);
            commit_plan(state, target, plan, nothing)
        }
        Err(fault) => told_of(state.alloc, Err(fault), Bytes::new(state.alloc)),
    }
}

/// The index of the volume that gets the copy of a user, and the plan of it; or why the copy is refused.
fn plan_copy<K: Keeper>(
    state: &State<K>,
    user: u32,
    index: usize,
    volume: VolumeId,
    dir: NodeId,
    target_volume: VolumeId,
    target_dir: NodeId,
    path: &Path,
    target_path: &Path,
    new_path: &Path,
) -> Result<(usize, Plan), PlanFault>
    requires { index < length state.now.world.volumes }
    ensures { PlansCopy state.now user index (record { volume = volume.0; dir = dir.0; path = path.now; target = target_volume.0; target_dir = target_dir.0; target_path = target_path.now; new_path = new_path.now }) result }
{
    let whole = whole_at(state, index);
    let source = match copied_file(state.alloc, whole, user, dir, path) {
        Ok(source) => source,
        Err(fault) => return Err(fault),
    };
    let Some(target) = state.index(target_volume) else {
        return Err(PlanFault::Code(Code::ParamErr));
    };
    let held = state.forks.is_held(volume, source.id());
    let denied = lacks_read(whole, user, source.id());
    let to = whole_at(state, target);
    let planned = plan_copy_file(
        state.alloc,
        to,
        user,
        latest(state),
        &source,
        held,
        denied,
        target_dir,
        target_path,
        new_path,
    );
    match planned {
        Ok(plan) => Ok((target, plan)),
        Err(fault) => Err(fault),
    }
}
