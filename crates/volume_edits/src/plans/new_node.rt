//! New files and directories.
ghost use Rattle.std.specs.Prelude.{◌≡◌, IfOk};
ghost use Rattle.volume_spec.specs.VolumeState.{new_row};

use afp_base::{Moment, NodeId, OutOfMemory};
use afp_names::Name;
use fork_bytes::Fork;
use node_rows::Node;
use std::alloc::Global;
use volume_tree::NodeWithForks;

/// A new file or directory of a user, with forks of no bytes. The one error is want of memory.
pub(crate) fn new_with_forks(
    alloc: Global,
    dir: bool,
    user: u32,
    id: NodeId,
    parent: NodeId,
    name: &Name,
    now: Moment,
) -> Result<NodeWithForks, OutOfMemory>
    ensures { IfOk result (λ new. new ≡ new_row dir user id.0 parent.0 name.now now) }
{
    let name = name.copy(alloc)?;
    let node = Node::new(dir, user, id, parent, name, now);
    NodeWithForks::new(alloc, node, Fork::new(alloc), Fork::new(alloc))
}
