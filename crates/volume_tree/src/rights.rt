//! What a user may do in a volume's directories (AFP Reference, "Directory access controls").
ghost use Rattle.std.specs.Prelude.{◌≡◌, ◌==◌, not};
ghost use Rattle.volume_spec.specs.Rights.{has_right, is_closed, is_owner, lacks, rights_of};
ghost use Rattle.volume_spec.specs.Shared.{lacks_above};

use crate::volume::Volume;
use afp_base::NodeId;
use node_rows::Node;
use volume_spec::limits::{ONLY_GROUP, ROOT_ID, SEARCH_RIGHT};

/// The rights that a user has of a node: everyone's, its group's where that is the one of each user, and its owner's where that is the user.
#[tactic(auto, unfolding(volume_spec::specs::Rights::rights_of))]
pub fn rights_of(node: &Node, user: u32) -> u8
    ensures { result ≡ rights_of node.now.privileges user }
{
    let by_group = if node.group == ONLY_GROUP {
        node.rights[1]
    } else {
        0
    };
    let by_owner = if node.owner == user {
        node.rights[2]
    } else {
        0
    };
    node.rights[0] | (by_group | by_owner)
}

/// Whether a user has a right of a node.
fn has_right(node: &Node, user: u32, right: u8) -> bool
    ensures { result ≡ has_right user right node.now.privileges }
{
    rights_of(node, user) & right != 0
}

impl Volume {
    /// Whether a user lacks a right in the directory of an id.
    #[tactic(auto, unfolding(volume_spec::specs::Rights::lacks))]
    pub fn lacks(&self, user: u32, right: u8, id: NodeId) -> bool
        ensures { result ≡ lacks self.now.state.rows user right id.0 }
    {
        match self.rows.get(id) {
            Some(node) => !has_right(node, user, right),
            None => true,
        }
    }

    /// Whether a user lacks a right in the directory of a node; the root's is the root here.
    pub fn lacks_above(&self, user: u32, right: u8, id: NodeId) -> bool
        ensures { result ≡ lacks_above self.now.state.rows user right id.0 }
    {
        if id.0 == ROOT_ID {
            return self.lacks(user, right, id);
        }
        self.lacks(user, right, self.directory(id))
    }

    /// Whether a user may not go down from a node: it is a directory in which the user lacks search.
    #[tactic(auto, unfolding(volume_spec::specs::Rights::is_closed))]
    pub(crate) fn is_closed(&self, user: u32, here: NodeId) -> bool
        ensures { result ≡ is_closed self.now.state.rows user here.0 }
    {
        match self.rows.get(here) {
            Some(node) => node.dir && !has_right(node, user, SEARCH_RIGHT),
            None => false,
        }
    }

    /// Whether a user owns the directory of an id.
    #[tactic(auto, unfolding(volume_spec::specs::Rights::is_owner))]
    pub fn is_owner(&self, user: u32, id: NodeId) -> bool
        ensures { result ≡ is_owner self.now.state.rows user id.0 }
    {
        match self.rows.get(id) {
            Some(node) => node.owner == user,
            None => false,
        }
    }
}
