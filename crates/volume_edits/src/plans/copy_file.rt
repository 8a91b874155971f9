//! FPCopyFile on the volume that gets the copy.
ghost use Rattle.std.specs.Prelude.{◌≡◌, ◌+◌, Ok, IfOk};
ghost use Rattle.volume_spec.specs.CopyFile.{copy_at, copy_file_refusal};
ghost use Rattle.volume_spec.specs.ForkEffect.{would_pass};
ghost use Rattle.volume_spec.specs.SoundVolume.{row_bytes};
ghost use Rattle.volume_spec.specs.VolumeCalls as call;
ghost use Rattle.volume_spec.specs.Walk.{found, one_down_or};
ghost use Rattle.volume_tree.specs.Answered.{Refuses};
ghost use Rattle.volume_edits.specs.plans.Plans.{Plans};

use crate::edits::{Edit, Plan, WholeVolume};
use crate::plans::copy_source::CopiedFile;
use crate::plans::one::{laws_hold, plan_two};
use crate::plans::tree_asked::{child, is_directory, lacks, room};
use afp_base::{Code, Moment, NodeId, OutOfMemory};
use afp_names::{Name, Path};
use node_rows::Node;
use std::alloc::Global;
use volume_spec::limits::{NEVER, WRITE_RIGHT};
use volume_tree::{NodeWithForks, PlanFault, new_name, steps_are_named};

/// Whether the bytes of all forks would pass the total with those of a file.
fn has_no_bytes(whole: &WholeVolume, file: &CopiedFile<'_>) -> bool
    ensures { result ≡ would_pass whole.now.state 0 (row_bytes file.now) }
{
    file.keeps_formed();
    whole.would_pass(0, file.fork(false).len() + file.fork(true).len())
}

/// The directory in which the copy is and its name, or why it is refused.
#[tactic(auto, unfolding(volume_spec::specs::CopyFile::copy_file_refusal))]
fn copy_place<'a>(
    alloc: Global,
    target: &WholeVolume,
    user: u32,
    source: &'a CopiedFile<'_>,
    held: bool,
    denied: bool,
    dir: NodeId,
    path: &Path,
    new: &'a Path,
) -> Result<(NodeId, &'a Name), PlanFault>
    ensures refused { Refuses result (copy_file_refusal target.now.state user (record { file = source.now; held = held; denied = denied }) dir.0 path.now new.now) }
    ensures found { IfOk result (λ at. found target.now.state.rows user dir.0 path.now ≡ Ok at.0.0) }
    ensures name { IfOk result (λ at. one_down_or source.now.name new.now.steps ≡ Ok at.1.now) }
{
    let parent = match target.resolve(alloc, user, dir, path) {
        Ok(parent) => parent,
        Err(fault) => return Err(fault),
    };
    if !is_directory(target, parent) {
        return Err(PlanFault::Code(Code::ObjectTypeErr));
    }
    if denied || lacks(target, user, WRITE_RIGHT, parent) {
        return Err(PlanFault::Code(Code::AccessDenied));
    }
    let name = match new_name(source.name(), new) {
        Some(name) => name,
        None => return Err(PlanFault::Code(Code::ParamErr)),
    };
    match child(alloc, target, parent, name) {
        Ok(Some(_)) => return Err(PlanFault::Code(Code::ObjectExists)),
        Ok(None) => {}
        Err(_) => return Err(PlanFault::Memory),
    }
    if held {
        return Err(PlanFault::Code(Code::DenyConflict));
    }
    match room(target) {
        Some(_) => {}
        None => return Err(PlanFault::Code(Code::DiskFull)),
    }
    if has_no_bytes(target, source) {
        return Err(PlanFault::Code(Code::DiskFull));
    }
    Ok((parent, name))
}

/// A node under another name in another directory: it was never backed up, and is not filed.
fn node_copied(node: &Node, parent: NodeId, name: Name) -> Node
    ensures { result ≡ copy_at parent.0 name node.now }
{
    Node {
        id: node.id,
        parent,
        dir: node.dir,
        attributes: node.attributes,
        created: node.created,
        modified: node.modified,
        backup: NEVER,
        finder: node.finder,
        filed: false,
        owner: node.owner,
        group: node.group,
        rights: node.rights,
        name,
    }
}

/// The copy of a file, each block of whose forks is copied once. The one error is want of memory.
fn copy_of(
    alloc: Global,
    source: &CopiedFile<'_>,
    parent: NodeId,
    name: &Name,
) -> Result<NodeWithForks, OutOfMemory>
    ensures { IfOk result (λ new. new ≡ copy_at parent.0 name.now source.now) }
{
    let name = name.copy(alloc)?;
    let node = node_copied(source.node(), parent, name);
    let data_fork = source.fork(false).copy(alloc)?;
    let resource_fork = source.fork(true).copy(alloc)?;
    NodeWithForks::new(alloc, node, data_fork, resource_fork)
}

/// Why a volume refuses to take the copy of a file, or the plan of it: the copy comes. The file may be of this volume or of another; `held` says
/// whether an open of either of its forks writes or denies reading, and `denied` whether the user lacks read in its directory. Want of memory comes for no other reason.
pub fn plan_copy_file(
    alloc: Global,
    target: &WholeVolume,
    user: u32,
    now: Moment,
    source: &CopiedFile<'_>,
    held: bool,
    denied: bool,
    dir: NodeId,
    path: &Path,
    new: &Path,
) -> Result<Plan, PlanFault>
    ensures refused { Refuses result (copy_file_refusal target.now.state user (record { file = source.now; held = held; denied = denied }) dir.0 path.now new.now) }
    ensures plan { IfOk result (Plans target.now.state user now (call.CopyFile (record { file = source.now; held = held; denied = denied }) dir.0 path.now new.now)) }
{
    laws_hold(target, user, now);
    source.keeps_formed();
    steps_are_named(new);
    let (parent, name) = match copy_place(
        alloc, target, user, source, held, denied, dir, path, new,
    ) {
        Ok(at) => at,
        Err(fault) => return Err(fault),
    };
    let Ok(copy) = copy_of(alloc, source, parent, name) else {
        return Err(PlanFault::Memory);
    };
    plan_two(alloc, now, Edit::comes(copy), Edit::dated(now, parent))
}
