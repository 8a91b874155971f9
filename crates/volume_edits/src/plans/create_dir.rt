//! FPCreateDir.
ghost use Rattle.std.specs.Prelude.{◌≡◌, Ok, IfOk};
ghost use Rattle.volume_spec.specs.CreateDir.{create_dir_refusal};
ghost use Rattle.volume_spec.specs.VolumeCalls as call;
ghost use Rattle.volume_spec.specs.Walk.{new_place};
ghost use Rattle.volume_tree.specs.Answered.{Refuses};
ghost use Rattle.volume_edits.specs.plans.Plans.{Plans};

use crate::edits::{Edit, Plan, WholeVolume};
use crate::plans::new_node::new_with_forks;
use crate::plans::one::{laws_hold, plan_two};
use crate::plans::tree_asked::{child, lacks, new_place, room};
use afp_base::{Code, Moment, NodeId};
use afp_names::{Name, Path};
use std::alloc::Global;
use volume_spec::limits::WRITE_RIGHT;
use volume_tree::{PlanFault, steps_are_named};

/// The id that FPCreateDir draws, the directory in which the new one is and its name, or why it is refused.
#[tactic(auto, unfolding(volume_spec::specs::CreateDir::create_dir_refusal))]
fn new_dir<'a>(
    alloc: Global,
    whole: &WholeVolume,
    user: u32,
    dir: NodeId,
    path: &'a Path,
) -> Result<(NodeId, NodeId, &'a Name), PlanFault>
    ensures refused { Refuses result (create_dir_refusal whole.now.state user dir.0 path.now) }
    ensures id { IfOk result (λ at. at.0.0 ≡ whole.now.state.next_id) }
    ensures place { IfOk result (λ at. new_place whole.now.state.rows user dir.0 path.now ≡ Ok (record { dir = at.1.0; name = at.2.now })) }
{
    let (parent, name) = match new_place(alloc, whole, user, dir, path) {
        Ok(place) => place,
        Err(fault) => return Err(fault),
    };
    if lacks(whole, user, WRITE_RIGHT, parent) {
        return Err(PlanFault::Code(Code::AccessDenied));
    }
    match child(alloc, whole, parent, name) {
        Ok(Some(_)) => return Err(PlanFault::Code(Code::ObjectExists)),
        Ok(None) => {}
        Err(_) => return Err(PlanFault::Memory),
    }
    let id = match room(whole) {
        Some(id) => id,
        None => return Err(PlanFault::Code(Code::DiskFull)),
    };
    Ok((id, parent, name))
}

/// Why FPCreateDir is refused, or the plan of it: the new directory comes. Want of memory comes for no other reason.
pub fn plan_create_dir(
    alloc: Global,
    whole: &WholeVolume,
    user: u32,
    now: Moment,
    dir: NodeId,
    path: &Path,
) -> Result<Plan, PlanFault>
    ensures refused { Refuses result (create_dir_refusal whole.now.state user dir.0 path.now) }
    ensures plan { IfOk result (Plans whole.now.state user now (call.CreateDir dir.0 path.now)) }
{
    laws_hold(whole, user, now);
    steps_are_named(path);
    let (id, parent, name) = match new_dir(alloc, whole, user, dir, path) {
        Ok(at) => at,
        Err(fault) => return Err(fault),
    };
    let Ok(new) = new_with_forks(alloc, true, user, id, parent, name, now) else {
        return Err(PlanFault::Memory);
    };
    plan_two(alloc, now, Edit::comes(new), Edit::dated(now, parent))
}
