//! FPRemoveAPPL.
ghost use Rattle.std.specs.Prelude.{◌≡◌, IfOk};
ghost use Rattle.volume_spec.specs.Appls.{remove_appl_refusal};
ghost use Rattle.volume_spec.specs.VolumeCalls as call;
ghost use Rattle.volume_tree.specs.Answered.{Refuses};
ghost use Rattle.volume_edits.specs.plans.Plans.{Plans};

use crate::edits::{Edit, Plan, WholeVolume};
use crate::plans::asked::{has_no_appl, is_file};
use crate::plans::one::{laws_hold, plan_one};
use crate::plans::tree_asked::lacks_above;
use afp_base::{Code, Moment, NodeId};
use afp_names::Path;
use std::alloc::Global;
use volume_spec::limits::WRITE_RIGHT;
use volume_tree::PlanFault;

/// Why FPRemoveAPPL is refused, or the plan of it: the mapping of a creator and a file is taken. Want of memory comes for no other reason.
#[tactic(auto, unfolding(volume_spec::specs::Appls::remove_appl_refusal))]
pub fn plan_remove_appl(
    alloc: Global,
    whole: &WholeVolume,
    user: u32,
    now: Moment,
    dir: NodeId,
    creator: [u8; 4],
    path: &Path,
) -> Result<Plan, PlanFault>
    ensures refused { Refuses result (remove_appl_refusal whole.now.state user dir.0 creator path.now) }
    ensures plan { IfOk result (Plans whole.now.state user now (call.RemoveAPPL dir.0 creator path.now)) }
{
    laws_hold(whole, user, now);
    let id = match whole.resolve(alloc, user, dir, path) {
        Ok(id) => id,
        Err(fault) => return Err(fault),
    };
    if !is_file(whole, id) {
        return Err(PlanFault::Code(Code::ObjectTypeErr));
    }
    if lacks_above(whole, user, WRITE_RIGHT, id) {
        return Err(PlanFault::Code(Code::AccessDenied));
    }
    if has_no_appl(whole, &creator, id) {
        return Err(PlanFault::Code(Code::ItemNotFound));
    }
    plan_one(alloc, now, Edit::takes_appl(creator, id))
}
