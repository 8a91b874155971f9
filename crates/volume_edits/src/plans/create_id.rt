//! FPCreateID.
ghost use Rattle.std.specs.Prelude.{◌≡◌, IfOk};
ghost use Rattle.volume_spec.specs.FileIds.{create_id_refusal};
ghost use Rattle.volume_spec.specs.VolumeCalls as call;
ghost use Rattle.volume_tree.specs.Answered.{Refuses};
ghost use Rattle.volume_edits.specs.plans.Plans.{Plans};

use crate::edits::{Edit, Plan, WholeVolume};
use crate::plans::asked::{is_file, is_filed};
use crate::plans::one::{laws_hold, plan_one};
use crate::plans::tree_asked::lacks_above;
use afp_base::{Code, Moment, NodeId};
use afp_names::Path;
use std::alloc::Global;
use volume_spec::limits::WRITE_RIGHT;
use volume_tree::PlanFault;

/// Why FPCreateID is refused, or the plan of it: the file is filed. Want of memory comes for no other reason.
#[tactic(auto, unfolding(volume_spec::specs::FileIds::create_id_refusal))]
pub fn plan_create_id(
    alloc: Global,
    whole: &WholeVolume,
    user: u32,
    now: Moment,
    dir: NodeId,
    path: &Path,
) -> Result<Plan, PlanFault>
    ensures refused { Refuses result (create_id_refusal whole.now.state user dir.0 path.now) }
    ensures plan { IfOk result (Plans whole.now.state user now (call.CreateID dir.0 path.now)) }
{
    laws_hold(whole, user, now);
    let id = match whole.resolve(alloc, user, dir, path) {
        Ok(id) => id,
        Err(fault) => return Err(fault),
    };
    if !is_file(whole, id) {
        return Err(PlanFault::Code(Code::ObjectTypeErr));
    }
    if lacks_above(whole, user, WRITE_RIGHT, id) {
        return Err(PlanFault::Code(Code::AccessDenied));
    }
    if is_filed(whole, id) {
        return Err(PlanFault::Code(Code::IDExists));
    }
    plan_one(alloc, now, Edit::files(id, true))
}
