//! FPDeleteID.
ghost use Rattle.std.specs.Prelude.{◌≡◌, IfOk};
ghost use Rattle.volume_spec.specs.FileIds.{delete_id_refusal};
ghost use Rattle.volume_spec.specs.VolumeCalls as call;
ghost use Rattle.volume_tree.specs.Answered.{Refuses};
ghost use Rattle.volume_edits.specs.plans.Plans.{Plans};

use crate::edits::{Edit, Plan, WholeVolume};
use crate::plans::asked::is_filed;
use crate::plans::one::{laws_hold, plan_one};
use crate::plans::tree_asked::lacks_above;
use afp_base::{Code, Moment, NodeId};
use std::alloc::Global;
use volume_spec::limits::{FIRST_ID, WRITE_RIGHT};
use volume_tree::PlanFault;

/// Why FPDeleteID is refused, or the plan of it: the file is not filed any more. Want of memory comes for no other reason.
#[tactic(auto, unfolding(volume_spec::specs::FileIds::delete_id_refusal))]
pub fn plan_delete_id(
    alloc: Global,
    whole: &WholeVolume,
    user: u32,
    now: Moment,
    id: NodeId,
) -> Result<Plan, PlanFault>
    ensures refused { Refuses result (delete_id_refusal whole.now.state user id.0) }
    ensures plan { IfOk result (Plans whole.now.state user now (call.DeleteID id.0)) }
{
    laws_hold(whole, user, now);
    if id.0 < FIRST_ID {
        return Err(PlanFault::Code(Code::BadIDErr));
    }
    if !is_filed(whole, id) {
        return Err(PlanFault::Code(Code::IDNotFound));
    }
    if lacks_above(whole, user, WRITE_RIGHT, id) {
        return Err(PlanFault::Code(Code::AccessDenied));
    }
    plan_one(alloc, now, Edit::files(id, false))
}
