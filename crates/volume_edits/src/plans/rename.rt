//! FPRename.
ghost use Rattle.std.specs.Prelude.{◌≡◌, Ok, IfOk};
ghost use Rattle.volume_spec.specs.Rename.{rename_refusal};
ghost use Rattle.volume_spec.specs.VolumeCalls as call;
ghost use Rattle.volume_spec.specs.Walk.{found, one_down};
ghost use Rattle.volume_tree.specs.Answered.{Refuses};
ghost use Rattle.volume_edits.specs.plans.Plans.{Plans};

use crate::edits::{Edit, Plan, WholeVolume};
use crate::plans::one::{laws_hold, plan_two};
use crate::plans::tree_asked::{directory, has_attribute, is_taken, lacks_above};
use afp_base::{Code, Moment, NodeId};
use afp_names::{Name, Path};
use std::alloc::Global;
use volume_spec::limits::{ROOT_ID, WRITE_RIGHT};
use volume_tree::{NewName, PlanFault, RENAME_INHIBIT, only_name, steps_are_named};

/// What FPRename renames and the new name, or why it is refused.
#[tactic(auto, unfolding(volume_spec::specs::Rename::rename_refusal))]
fn renamed<'a>(
    alloc: Global,
    whole: &WholeVolume,
    user: u32,
    dir: NodeId,
    path: &Path,
    new: &'a Path,
) -> Result<(NodeId, &'a Name), PlanFault>
    ensures refused { Refuses result (rename_refusal whole.now.state user dir.0 path.now new.now) }
    ensures found { IfOk result (λ at. found whole.now.state.rows user dir.0 path.now ≡ Ok at.0.0) }
    ensures name { IfOk result (λ at. one_down new.now.steps ≡ Ok at.1.now) }
{
    let id = match whole.resolve(alloc, user, dir, path) {
        Ok(id) => id,
        Err(fault) => return Err(fault),
    };
    if id.0 == ROOT_ID {
        return Err(PlanFault::Code(Code::CantRename));
    }
    if lacks_above(whole, user, WRITE_RIGHT, id) {
        return Err(PlanFault::Code(Code::AccessDenied));
    }
    let name = match only_name(new) {
        Some(name) => name,
        None => return Err(PlanFault::Code(Code::ParamErr)),
    };
    if has_attribute(whole, RENAME_INHIBIT, id) {
        return Err(PlanFault::Code(Code::ObjectLocked));
    }
    let Ok(key) = name.key(alloc) else {
        return Err(PlanFault::Memory);
    };
    if is_taken(whole, id, directory(whole, id), name, key.as_slice()) {
        return Err(PlanFault::Code(Code::ObjectExists));
    }
    Ok((id, name))
}

/// Why FPRename is refused, or the plan of it: the node gets another name. Want of memory comes for no other reason.
pub fn plan_rename(
    alloc: Global,
    whole: &WholeVolume,
    user: u32,
    now: Moment,
    dir: NodeId,
    path: &Path,
    new: &Path,
) -> Result<Plan, PlanFault>
    ensures refused { Refuses result (rename_refusal whole.now.state user dir.0 path.now new.now) }
    ensures plan { IfOk result (Plans whole.now.state user now (call.Rename dir.0 path.now new.now)) }
{
    laws_hold(whole, user, now);
    steps_are_named(new);
    let (id, name) = match renamed(alloc, whole, user, dir, path, new) {
        Ok(at) => at,
        Err(fault) => return Err(fault),
    };
    let Ok(name) = NewName::of(alloc, name) else {
        return Err(PlanFault::Memory);
    };
    let up = directory(whole, id);
    plan_two(alloc, now, Edit::renames(id, name), Edit::dated(now, up))
}
