//! FPMoveAndRename.
ghost use Rattle.std.specs.Prelude.{◌≡◌, Ok, IfOk};
ghost use Rattle.volume_spec.specs.MoveAndRename.{move_refusal};
ghost use Rattle.volume_spec.specs.Shared.{name_of};
ghost use Rattle.volume_spec.specs.VolumeCalls as call;
ghost use Rattle.volume_spec.specs.Walk.{found, one_down_or};
ghost use Rattle.volume_tree.specs.Answered.{Refuses};
ghost use Rattle.volume_edits.specs.plans.Plans.{Plans};

use crate::edits::{Edit, Plan, WholeVolume};
use crate::plans::one::{laws_hold, plan_three};
use crate::plans::tree_asked::{
    directory, has_attribute, is_below, is_directory, is_taken, lacks, lacks_above, name_at,
};
use afp_base::{Code, Moment, NodeId};
use afp_names::{Name, Path};
use std::alloc::Global;
use volume_spec::limits::{ROOT_ID, WRITE_RIGHT};
use volume_tree::{NewName, PlanFault, RENAME_INHIBIT, new_name, steps_are_named};

/// What FPMoveAndRename moves, the directory to which it goes and its name there, or why it is refused.
#[tactic(auto, unfolding(volume_spec::specs::MoveAndRename::move_refusal))]
fn moved<'a>(
    alloc: Global,
    whole: &'a WholeVolume,
    user: u32,
    dir: NodeId,
    path: &Path,
    to_dir: NodeId,
    to_path: &Path,
    new: &'a Path,
) -> Result<(NodeId, NodeId, &'a Name), PlanFault>
    ensures refused { Refuses result (move_refusal whole.now.state user dir.0 path.now to_dir.0 to_path.now new.now) }
    ensures found { IfOk result (λ at. found whole.now.state.rows user dir.0 path.now ≡ Ok at.0.0) }
    ensures target { IfOk result (λ at. found whole.now.state.rows user to_dir.0 to_path.now ≡ Ok at.1.0) }
    ensures name { IfOk result (λ at. one_down_or (name_of whole.now.state.rows at.0.0) new.now.steps ≡ Ok at.2.now) }
{
    let id = match whole.resolve(alloc, user, dir, path) {
        Ok(id) => id,
        Err(fault) => return Err(fault),
    };
    if id.0 == ROOT_ID {
        return Err(PlanFault::Code(Code::CantMove));
    }
    let target = match whole.resolve(alloc, user, to_dir, to_path) {
        Ok(target) => target,
        Err(fault) => return Err(fault),
    };
    if !is_directory(whole, target) {
        return Err(PlanFault::Code(Code::ObjectTypeErr));
    }
    if lacks_above(whole, user, WRITE_RIGHT, id) {
        return Err(PlanFault::Code(Code::AccessDenied));
    }
    if lacks(whole, user, WRITE_RIGHT, target) {
        return Err(PlanFault::Code(Code::AccessDenied));
    }
    let name = match new_name(name_at(whole, user, dir, path, id), new) {
        Some(name) => name,
        None => return Err(PlanFault::Code(Code::ParamErr)),
    };
    if is_below(whole, id, target) {
        return Err(PlanFault::Code(Code::CantMove));
    }
    if has_attribute(whole, RENAME_INHIBIT, id) {
        return Err(PlanFault::Code(Code::ObjectLocked));
    }
    let Ok(key) = name.key(alloc) else {
        return Err(PlanFault::Memory);
    };
    if is_taken(whole, id, target, name, key.as_slice()) {
        return Err(PlanFault::Code(Code::ObjectExists));
    }
    Ok((id, target, name))
}

/// Why FPMoveAndRename is refused, or the plan of it: the node gets another place. Want of memory comes for no other reason.
pub fn plan_move_and_rename(
    alloc: Global,
    whole: &WholeVolume,
    user: u32,
    now: Moment,
    dir: NodeId,
    path: &Path,
    to_dir: NodeId,
    to_path: &Path,
    new: &Path,
) -> Result<Plan, PlanFault>
    ensures refused { Refuses result (move_refusal whole.now.state user dir.0 path.now to_dir.0 to_path.now new.now) }
    ensures plan { IfOk result (Plans whole.now.state user now (call.MoveAndRename dir.0 path.now to_dir.0 to_path.now new.now)) }
{
    laws_hold(whole, user, now);
    steps_are_named(new);
    let (id, target, name) = match moved(alloc, whole, user, dir, path, to_dir, to_path, new) {
        Ok(at) => at,
        Err(fault) => return Err(fault),
    };
    let Ok(name) = NewName::of(alloc, name) else {
        return Err(PlanFault::Memory);
    };
    let up = directory(whole, id);
    plan_three(
        alloc,
        now,
        Edit::moves(id, target, name),
        Edit::dated(now, up),
        Edit::dated(now, target),
    )
}
