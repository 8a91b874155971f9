//! FPAddAPPL.
ghost use Rattle.std.specs.Prelude.{◌≡◌, true, length, IfOk};
ghost use Rattle.volume_spec.specs.Appls.{add_appl_refusal};
ghost use Rattle.volume_spec.specs.TypedVolume.{are_bytes, is_long};
ghost use Rattle.volume_spec.specs.VolumeCalls as call;
ghost use Rattle.volume_tree.specs.Answered.{Refuses};
ghost use Rattle.volume_edits.specs.plans.Plans.{Plans};

use crate::edits::{Edit, Plan, WholeVolume};
use crate::plans::asked::{has_no_appl_room, is_file};
use crate::plans::one::{laws_hold, plan_one};
use crate::plans::tree_asked::lacks_above;
use afp_base::{Code, Moment, NodeId};
use afp_names::Path;
use std::alloc::Global;
use volume_spec::bytes_in_range;
use volume_spec::limits::WRITE_RIGHT;
use volume_tree::PlanFault;

/// What the types say of a mapping. The call does nothing.
fn creator_in_range(creator: &[u8; 4], tag: u32)
    ensures size { length creator.now ≡ 4 }
    ensures bytes { are_bytes creator.now ≡ true }
    ensures tag { is_long tag ≡ true }
{
    bytes_in_range(creator);
}

/// Why FPAddAPPL is refused, or the plan of it: the mapping of a creator and a file is put. Want of memory comes for no other reason.
#[tactic(auto, unfolding(volume_spec::specs::Appls::add_appl_refusal))]
pub fn plan_add_appl(
    alloc: Global,
    whole: &WholeVolume,
    user: u32,
    now: Moment,
    dir: NodeId,
    creator: [u8; 4],
    tag: u32,
    path: &Path,
) -> Result<Plan, PlanFault>
    ensures refused { Refuses result (add_appl_refusal whole.now.state user dir.0 creator path.now) }
    ensures plan { IfOk result (Plans whole.now.state user now (call.AddAPPL dir.0 creator tag path.now)) }
{
    laws_hold(whole, user, now);
    creator_in_range(&creator, tag);
    let id = match whole.resolve(alloc, user, dir, path) {
        Ok(id) => id,
        Err(fault) => return Err(fault),
    };
    if !is_file(whole, id) {
        return Err(PlanFault::Code(Code::ObjectTypeErr));
    }
    if lacks_above(whole, user, WRITE_RIGHT, id) {
        return Err(PlanFault::Code(Code::AccessDenied));
    }
    if has_no_appl_room(whole, &creator, id) {
        return Err(PlanFault::Code(Code::DiskFull));
    }
    plan_one(alloc, now, Edit::puts_appl(creator, id, tag))
}
