//! What the calls that change a volume's tree share: FPSetVolParms, FPCreateDir, FPSetDirParms, FPSetFileDirParms, FPDelete, FPRename, FPMoveAndRename,
//! FPCreateFile and FPSetFileParms (AFP Reference, under these names).
ghost use Rattle.std.specs.Prelude.{◌≡◌, IsSome, Option};
ghost use Rattle.afp_base.specs.declared.code.Code.{Code as CodeOf};
ghost use Rattle.afp_replies.specs.declared.reply.Reply.{Reply};
ghost use Rattle.afp_serial.specs.World.{World};
ghost use Rattle.volume_spec.specs.TreeSteps.{TreeCall};
ghost use Rattle.volume_spec.specs.VolumeState.{VolumeState};
ghost use Rattle.afp_core_calls.specs.lemma.TreeChanges.{AreToldOf, ChangesAlone, ChangesTree, planned_unless};
ghost use Rattle.afp_core_state.specs.Running.{RunsRow};
ghost use Rattle.volume_edits.specs.plans.Requests.{tree_call};

use afp_base::{Bytes, Code, OutOfMemory, SessionNumber, VolumeId};
use afp_calls::Call;
use afp_core_state::{State, latest, refused, run_plan, whole_at};
use afp_serial::{Outcome, Told};
use record_keeper::Keeper;
use volume_edits::{Plan, plan_tree_call};
use volume_tree::PlanFault;

/// A call that changes the tree of a volume that the session has open, and tells no more than that it is done.
pub(crate) fn change_alone<K: Keeper>(
    state: &mut State<K>,
    session: SessionNumber,
    volume: VolumeId,
    call: &Call,
) -> Result<(Told, Outcome), OutOfMemory>
    requires { ChangesAlone call.now volume.0 }
    ensures { RunsRow state.old session.0 call.now result state.new }
{
    let nothing = Bytes::new(state.alloc);
    change_tree(state, session, volume, None, call, nothing)
}

/// A call that changes the tree of a volume that the session has open; `behind` is what it is refused for where the volume does not refuse it, and
/// `block` is what it tells where it is done.
pub(crate) fn change_tree<K: Keeper>(
    state: &mut State<K>,
    session: SessionNumber,
    volume: VolumeId,
    behind: Option<Code>,
    call: &Call,
    block: Bytes,
) -> Result<(Told, Outcome), OutOfMemory>
    requires { IsSome (tree_call call.now) }
    ensures { (change : TreeCall) (reply : VolumeState → Reply) (after : World → Option CodeOf) → ChangesTree call.now after volume.0 change reply → after state.old.world ≡ behind → AreToldOf state.old volume.0 change reply block
        → RunsRow state.old session.0 call.now result state.new }
{
    let Some(index) = state.opened(session, volume) else {
        return Ok((refused(state.alloc, Code::ParamErr), Outcome::Done));
    };
    let whole = whole_at(state, index);
    let user = state.user(session);
    let opens = state.forks.on(volume);
    let planned = plan_tree_call(state.alloc, whole, user, latest(state), &opens, call);
    let answer = unless(behind, planned);
    run_plan(state, index, answer, block)
}

/// What was planned, unless there is a refusal behind those of the volume.
fn unless(behind: Option<Code>, planned: Result<Plan, PlanFault>) -> Result<Plan, PlanFault>
    ensures { result ≡ planned_unless behind planned }
{
    match behind {
        None => planned,
        Some(code) => match planned {
            Ok(_plan) => Err(PlanFault::Code(code)),
            Err(fault) => Err(fault),
        },
    }
}
