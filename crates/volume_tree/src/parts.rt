//! What edits of a tree bring, all that they take memory for included.
ghost use Rattle.std.specs.Prelude.{◌≡◌, IfOk};
ghost use Rattle.volume_spec.specs.Edits.{bare};
ghost use Rattle.volume_spec.specs.ForkEffect.{fork_of};

use afp_base::{Bytes, NodeId, OutOfMemory};
use afp_names::Name;
use fork_bytes::Fork;
use node_rows::Node;
use std::alloc::Global;
use std::marker::Model;

/// A new node with its forks, and the key of its name. Its id is not looked at, since it draws the next one.
///
/// Contracts see the definition's row.
#[derive(Drop)]
pub struct NodeWithForks {
    pub(crate) node: Node,
    pub(crate) key: Bytes,
    pub(crate) data_fork: Fork,
    pub(crate) resource_fork: Fork,
}

impl Model for NodeWithForks {
    ghost use Rattle.std.specs.Prelude.{◌≡◌};
    ghost use Rattle.afp_names.specs.Name.{name_key};
    ghost use Rattle.volume_spec.specs.VolumeState.{Row};

    ghost Value = { Row };

    ghost view = { λ a. record a.node { data_fork = a.data_fork; resource_fork = a.resource_fork } };

    ghost invariant = { λ a. a.key ≡ name_key a.node.name };
}

impl NodeWithForks {
    /// A node with these forks. The one error is want of memory.
    pub fn new(
        alloc: Global,
        node: Node,
        data_fork: Fork,
        resource_fork: Fork,
    ) -> Result<NodeWithForks, OutOfMemory>
        ensures { IfOk result (λ new. new ≡ record node { data_fork = data_fork; resource_fork = resource_fork }) }
    {
        let key = node.name.key(alloc)?;
        Ok(NodeWithForks {
            node,
            key,
            data_fork,
            resource_fork,
        })
    }
}

impl NodeWithForks {
    /// The node without its forks.
    pub fn node(&self) -> &Node
        ensures { result.now ≡ bare self.now }
    {
        let node = &self.node;
        let _ = &node.dir;
        node
    }

    /// The one fork or the other.
    pub fn fork(&self, resource: bool) -> &Fork
        ensures { result.now ≡ fork_of resource self.now }
    {
        if resource {
            &self.resource_fork
        } else {
            &self.data_fork
        }
    }
}

/// The new name of a node, and its key.
///
/// Contracts see the name.
#[derive(Drop)]
pub struct NewName {
    pub(crate) name: Name,
    pub(crate) key: Bytes,
}

impl Model for NewName {
    ghost use Rattle.std.specs.Prelude.{◌≡◌, List, ℕ};
    ghost use Rattle.afp_names.specs.Name.{name_key};

    ghost Value = { List ℕ };

    ghost view = { λ a. a.name };

    ghost invariant = { λ a. a.key ≡ name_key a.name };
}

impl NewName {
    /// The same name once more, as a new name. The one error is want of memory.
    pub fn of(alloc: Global, name: &Name) -> Result<NewName, OutOfMemory>
        ensures { IfOk result (λ new. new ≡ name.now) }
    {
        let key = name.key(alloc)?;
        let name = name.copy(alloc)?;
        Ok(NewName { name, key })
    }

    /// The name.
    pub fn name(&self) -> &Name
        ensures { result.now ≡ self.now }
    {
        &self.name
    }
}

/// A node with another id.
pub(crate) fn with_id(node: Node, id: NodeId) -> Node
    ensures { result ≡ record (bare node) { id = id.0 } }
{
    Node { id, ..node }
}
