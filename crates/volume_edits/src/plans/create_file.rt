//! FPCreateFile.
ghost use Rattle.std.specs.Prelude.{◌≡◌, Ok, Some, None, IfOk, IfErr};
ghost use Rattle.afp_names.specs.Name.{name_key};
ghost use Rattle.volume_spec.specs.CreateFile.{create_file_refusal, create_file_there};
ghost use Rattle.volume_spec.specs.VolumeCalls as call;
ghost use Rattle.volume_spec.specs.Walk.{child_by_key, new_place};
ghost use Rattle.volume_tree.specs.Answered.{Refuses};
ghost use Rattle.volume_tree.specs.lemma.Answered.{option_id};
ghost use Rattle.volume_tree.specs.Shown.{opened};
ghost use Rattle.volume_edits.specs.plans.Plans.{Plans};

use crate::edits::{Edit, Plan, WholeVolume};
use crate::plans::new_node::new_with_forks;
use crate::plans::one::{laws_hold, plan_three, plan_two};
use crate::plans::tree_asked::{child, has_attribute, is_directory, lacks, new_place, next, room};
use afp_base::{Code, Moment, NodeId};
use afp_names::{Name, Path};
use deny_modes::VolumeOpens;
use std::alloc::Global;
use volume_spec::limits::WRITE_RIGHT;
use volume_tree::{DELETE_INHIBIT, NodeWithForks, PlanFault, is_busy, steps_are_named};

/// The id of a new file, in the place of an old node if there is one, or why it is refused.
fn file_id(
    whole: &WholeVolume,
    opens: &VolumeOpens<'_>,
    hard: bool,
    old: Option<NodeId>,
) -> Result<NodeId, Code>
    ensures passes { IfOk result (λ id. create_file_there whole.now.state (opened opens.now) hard (option_id old) ≡ None) }
    ensures id { IfOk result (λ id. id.0 ≡ whole.now.state.next_id) }
    ensures refused { IfErr result (λ code. create_file_there whole.now.state (opened opens.now) hard (option_id old) ≡ Some code) }
{
    let old = match old {
        Some(old) => old,
        None => return room(whole).ok_or(Code::DiskFull),
    };
    if is_directory(whole, old) {
        return Err(Code::ObjectTypeErr);
    }
    if !hard {
        return Err(Code::ObjectExists);
    }
    if is_busy(opens, old) {
        return Err(Code::FileBusy);
    }
    if has_attribute(whole, DELETE_INHIBIT, old) {
        return Err(Code::ObjectLocked);
    }
    next(whole).ok_or(Code::DiskFull)
}

/// The id that FPCreateFile draws, the directory in which the new file is, its name and the old file that goes, or why it is refused.
#[tactic(auto, unfolding(volume_spec::specs::CreateFile::create_file_refusal))]
fn new_file<'a>(
    alloc: Global,
    whole: &WholeVolume,
    user: u32,
    opens: &VolumeOpens<'_>,
    hard: bool,
    dir: NodeId,
    path: &'a Path,
) -> Result<(NodeId, NodeId, &'a Name, Option<NodeId>), PlanFault>
    ensures refused { Refuses result (create_file_refusal whole.now.state user (opened opens.now) hard dir.0 path.now) }
    ensures id { IfOk result (λ at. at.0.0 ≡ whole.now.state.next_id) }
    ensures place { IfOk result (λ at. new_place whole.now.state.rows user dir.0 path.now ≡ Ok (record { dir = at.1.0; name = at.2.now })) }
    ensures old { IfOk result (λ at. child_by_key whole.now.state.rows at.1.0 (name_key at.2.now) ≡ option_id at.3) }
{
    let (parent, name) = match new_place(alloc, whole, user, dir, path) {
        Ok(place) => place,
        Err(fault) => return Err(fault),
    };
    if lacks(whole, user, WRITE_RIGHT, parent) {
        return Err(PlanFault::Code(Code::AccessDenied));
    }
    let Ok(old) = child(alloc, whole, parent, name) else {
        return Err(PlanFault::Memory);
    };
    match file_id(whole, opens, hard, old) {
        Ok(id) => Ok((id, parent, name, old)),
        Err(code) => Err(PlanFault::Code(code)),
    }
}

/// Why FPCreateFile is refused, or the plan of it: the new file comes. A hard create replaces an old file. Want of memory comes for no other reason.
pub fn plan_create_file(
    alloc: Global,
    whole: &WholeVolume,
    user: u32,
    now: Moment,
    opens: &VolumeOpens<'_>,
    hard: bool,
    dir: NodeId,
    path: &Path,
) -> Result<Plan, PlanFault>
    ensures refused { Refuses result (create_file_refusal whole.now.state user (opened opens.now) hard dir.0 path.now) }
    ensures plan { IfOk result (Plans whole.now.state user now (call.CreateFile hard dir.0 path.now)) }
{
    laws_hold(whole, user, now);
    steps_are_named(path);
    let (id, parent, name, old) = match new_file(alloc, whole, user, opens, hard, dir, path) {
        Ok(at) => at,
        Err(fault) => return Err(fault),
    };
    let Ok(new) = new_with_forks(alloc, false, user, id, parent, name, now) else {
        return Err(PlanFault::Memory);
    };
    match old {
        Some(old) => plan_three(
            alloc,
            now,
            Edit::goes(old),
            Edit::comes(new),
            Edit::dated(now, parent),
        ),
        None => plan_two(alloc, now, Edit::comes(new), Edit::dated(now, parent)),
    }
}
