//! FPDelete.
ghost use Rattle.std.specs.Prelude.{◌≡◌, Ok, IfOk};
ghost use Rattle.volume_spec.specs.Delete.{delete_refusal};
ghost use Rattle.volume_spec.specs.VolumeCalls as call;
ghost use Rattle.volume_spec.specs.Walk.{found};
ghost use Rattle.volume_tree.specs.Answered.{Refuses};
ghost use Rattle.volume_tree.specs.Shown.{opened};
ghost use Rattle.volume_edits.specs.plans.Plans.{Plans};

use crate::edits::{Edit, Plan, WholeVolume};
use crate::plans::one::{laws_hold, plan_two};
use crate::plans::tree_asked::{directory, has_attribute, has_children, lacks_above};
use afp_base::{Code, Moment, NodeId};
use afp_names::Path;
use deny_modes::VolumeOpens;
use std::alloc::Global;
use volume_spec::limits::{ROOT_ID, WRITE_RIGHT};
use volume_tree::{DELETE_INHIBIT, PlanFault, is_busy};

/// What FPDelete deletes, or why it is refused.
#[tactic(auto, unfolding(volume_spec::specs::Delete::delete_refusal))]
fn deleted(
    alloc: Global,
    whole: &WholeVolume,
    user: u32,
    opens: &VolumeOpens<'_>,
    dir: NodeId,
    path: &Path,
) -> Result<NodeId, PlanFault>
    ensures refused { Refuses result (delete_refusal whole.now.state user (opened opens.now) dir.0 path.now) }
    ensures found { IfOk result (λ id. found whole.now.state.rows user dir.0 path.now ≡ Ok id.0) }
{
    let id = match whole.resolve(alloc, user, dir, path) {
        Ok(id) => id,
        Err(fault) => return Err(fault),
    };
    if id.0 == ROOT_ID {
        return Err(PlanFault::Code(Code::AccessDenied));
    }
    if lacks_above(whole, user, WRITE_RIGHT, id) {
        return Err(PlanFault::Code(Code::AccessDenied));
    }
    if has_attribute(whole, DELETE_INHIBIT, id) {
        return Err(PlanFault::Code(Code::ObjectLocked));
    }
    if is_busy(opens, id) {
        return Err(PlanFault::Code(Code::FileBusy));
    }
    if has_children(whole, id) {
        return Err(PlanFault::Code(Code::DirNotEmpty));
    }
    Ok(id)
}

/// Why FPDelete is refused, or the plan of it: the node goes. Want of memory comes for no other reason.
pub fn plan_delete(
    alloc: Global,
    whole: &WholeVolume,
    user: u32,
    now: Moment,
    opens: &VolumeOpens<'_>,
    dir: NodeId,
    path: &Path,
) -> Result<Plan, PlanFault>
    ensures refused { Refuses result (delete_refusal whole.now.state user (opened opens.now) dir.0 path.now) }
    ensures plan { IfOk result (Plans whole.now.state user now (call.Delete dir.0 path.now)) }
{
    laws_hold(whole, user, now);
    let id = match deleted(alloc, whole, user, opens, dir, path) {
        Ok(id) => id,
        Err(fault) => return Err(fault),
    };
    let up = directory(whole, id);
    plan_two(alloc, now, Edit::goes(id), Edit::dated(now, up))
}
