//! What plans ask of a volume's tree.
ghost use Rattle.std.specs.Prelude.{◌≡◌, true, false, length, Ok, IfOk, MatchOption};
ghost use Rattle.afp_names.specs.Name.{name_key};
ghost use Rattle.volume_spec.specs.Edits.{has_children, is_below, is_taken};
ghost use Rattle.volume_spec.specs.Rights.{is_owner, lacks};
ghost use Rattle.volume_spec.specs.Shared.{directory_of, has_attribute, has_no_ids, has_no_room, lacks_above, name_of};
ghost use Rattle.volume_spec.specs.Walk.{child_by_key, found, has_directory, new_place};
ghost use Rattle.volume_tree.specs.Answered.{FailsAs, IsFoundNode};

use crate::edits::WholeVolume;
use afp_base::{NodeId, OutOfMemory};
use afp_names::{Name, Path};
use std::alloc::Global;
use volume_tree::PlanFault;

/// Whether an id is a directory's.
pub(crate) fn is_directory(whole: &WholeVolume, id: NodeId) -> bool
    ensures { result ≡ has_directory whole.now.state.rows id.0 }
{
    whole.tree.is_directory(id)
}

/// Whether the node of an id has an attribute.
pub(crate) fn has_attribute(whole: &WholeVolume, bit: u16, id: NodeId) -> bool
    ensures { result ≡ has_attribute whole.now.state.rows bit id.0 }
{
    whole.tree.has(bit, id)
}

/// Whether a directory has children.
pub(crate) fn has_children(whole: &WholeVolume, dir: NodeId) -> bool
    ensures { result ≡ has_children whole.now.state.rows dir.0 }
{
    whole.tree.has_children(dir)
}

/// The directory in which a node is.
pub(crate) fn directory(whole: &WholeVolume, id: NodeId) -> NodeId
    ensures { result.0 ≡ directory_of whole.now.state.rows id.0 }
{
    whole.tree.directory(id)
}

/// The child of a directory that has this name. It takes memory only for a name with another character than those of ASCII.
pub(crate) fn child(
    alloc: Global,
    whole: &WholeVolume,
    dir: NodeId,
    name: &Name,
) -> Result<Option<NodeId>, OutOfMemory>
    ensures { IfOk result (λ found. IsFoundNode found (child_by_key whole.now.state.rows dir.0 (name_key name.now))) }
{
    whole.tree.child_named(alloc, dir, name)
}

/// Whether another node of a directory has a name with this key.
pub(crate) fn is_taken(
    whole: &WholeVolume,
    node: NodeId,
    dir: NodeId,
    name: &Name,
    key: &[u8],
) -> bool
    requires { key.now ≡ name_key name.now }
    ensures { result ≡ is_taken whole.now.state.rows node.0 dir.0 name.now }
{
    whole.tree.is_taken(node, dir, name, key)
}

/// Whether a node is another one, or below it.
pub(crate) fn is_below(whole: &WholeVolume, node: NodeId, id: NodeId) -> bool
    ensures { result ≡ is_below whole.now.state.rows (length whole.now.state.rows) node.0 id.0 }
{
    whole.tree.is_below(node, id)
}

/// The id of the next new node; `None` where the ids have ended.
#[tactic(auto, unfolding(volume_spec::specs::Shared::has_no_ids))]
pub(crate) fn next(whole: &WholeVolume) -> Option<NodeId>
    ensures { MatchOption result (has_no_ids whole.now.state ≡ true) (λ id. (has_no_ids whole.now.state ≡ false) × (id.0 ≡ whole.now.state.next_id)) }
{
    whole.tree.next()
}

/// The id of the next new node; `None` where the volume is full or the ids have ended.
#[tactic(auto, unfolding(volume_spec::specs::Shared::has_no_ids, volume_spec::specs::Shared::has_no_room))]
pub(crate) fn room(whole: &WholeVolume) -> Option<NodeId>
    ensures { MatchOption result (has_no_room whole.now.state ≡ true) (λ id. (has_no_room whole.now.state ≡ false) × (id.0 ≡ whole.now.state.next_id)) }
{
    whole.tree.room()
}

/// The name of a node to which a path leads.
pub(crate) fn name_at<'a>(
    whole: &'a WholeVolume,
    user: u32,
    dir: NodeId,
    path: &Path,
    id: NodeId,
) -> &'a Name
    requires { found whole.now.state.rows user dir.0 path.now ≡ Ok id.0 }
    ensures { result.now ≡ name_of whole.now.state.rows id.0 }
{
    whole.tree.name_at(user, dir, path, id)
}

/// The new place that a path names: a directory, and the name in it.
pub(crate) fn new_place<'a>(
    alloc: Global,
    whole: &WholeVolume,
    user: u32,
    dir: NodeId,
    path: &'a Path,
) -> Result<(NodeId, &'a Name), PlanFault>
    ensures place { IfOk result (λ place. new_place whole.now.state.rows user dir.0 path.now ≡ Ok (record { dir = place.0.0; name = place.1.now })) }
    ensures fault { FailsAs result (new_place whole.now.state.rows user dir.0 path.now) }
{
    whole.tree.new_place(alloc, user, dir, path)
}

/// Whether a user lacks a right in the directory of an id.
pub(crate) fn lacks(whole: &WholeVolume, user: u32, right: u8, id: NodeId) -> bool
    ensures { result ≡ lacks whole.now.state.rows user right id.0 }
{
    whole.tree.lacks(user, right, id)
}

/// Whether a user lacks a right in the directory of a node; the root's is the root here.
pub(crate) fn lacks_above(whole: &WholeVolume, user: u32, right: u8, id: NodeId) -> bool
    ensures { result ≡ lacks_above whole.now.state.rows user right id.0 }
{
    whole.tree.lacks_above(user, right, id)
}

/// Whether a user owns the directory of an id.
pub(crate) fn is_owner(whole: &WholeVolume, user: u32, id: NodeId) -> bool
    ensures { result ≡ is_owner whole.now.state.rows user id.0 }
{
    whole.tree.is_owner(user, id)
}
