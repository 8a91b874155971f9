//! A file or directory of a volume.
ghost use Rattle.std.specs.Prelude.{◌≡◌};
ghost use Rattle.volume_spec.specs.VolumeState.{new_row, open_to_all};
ghost use Rattle.node_rows.specs.Kept.{marked};

use afp_base::{Moment, NodeId};
use afp_names::Name;
use std::marker::Model;
use volume_spec::limits::{ALL_RIGHTS, NEVER, ONLY_GROUP};

/// A file or directory without its forks (AFP Reference, "File and directory parameters"). Dates are
/// seconds from 2000-01-01 00:00 GMT. The rights are those of everyone, of the group and of the owner, in this order; a file's owner,
/// group and rights are 0.
///
/// Contracts see it as the definition's row, with no bytes in its forks.
#[derive(Drop)]
pub struct Node {
    pub id: NodeId,
    pub parent: NodeId,
    pub dir: bool,
    pub attributes: u16,
    pub created: i32,
    pub modified: i32,
    pub backup: i32,
    pub finder: [u8; 32],
    pub filed: bool,
    pub owner: u32,
    pub group: u32,
    pub rights: [u8; 3],
    pub name: Name,
}

impl Model for Node {
    ghost use Rattle.std.specs.Prelude.{[]};
    ghost use Rattle.volume_spec.specs.VolumeState.{Row, privileges_of};

    ghost Value = { Row };

    ghost view = { λ a. record { id = a.id.0; parent = a.parent.0; dir = a.dir; attributes = a.attributes; created = a.created; modified = a.modified; backup = a.backup; finder = a.finder; filed = a.filed; privileges = privileges_of a.owner a.group a.rights; name = a.name; data_fork = []; resource_fork = [] } };
}

impl Node {
    /// A new file or directory of no attributes (AFP Reference, "FPCreateFile", "FPCreateDir"). A directory is the user's who
    /// makes it, and all have all rights to it.
    pub fn new(dir: bool, user: u32, id: NodeId, parent: NodeId, name: Name, now: Moment) -> Node
        ensures { result ≡ new_row dir user id.0 parent.0 name now }
    {
        let date = now.seconds() as i32;
        let node = Node {
            id,
            parent,
            dir,
            attributes: 0,
            created: date,
            modified: date,
            backup: NEVER,
            finder: [0; 32],
            filed: false,
            owner: 0,
            group: 0,
            rights: [0; 3],
            name,
        };
        if dir { node.open_to_all(user) } else { node }
    }

    /// The node as a user's, to which all have all rights.
    fn open_to_all(self, user: u32) -> Node
        ensures { result ≡ record self { privileges = open_to_all user } }
    {
        Node {
            owner: user,
            group: ONLY_GROUP,
            rights: [ALL_RIGHTS; 3],
            ..self
        }
    }
}

/// The fields of a node that do not tell where it is nor what it is called.
#[derive(Clone, Copy)]
pub struct Marks {
    pub attributes: u16,
    pub created: i32,
    pub modified: i32,
    pub backup: i32,
    pub finder: [u8; 32],
    pub filed: bool,
    pub owner: u32,
    pub group: u32,
    pub rights: [u8; 3],
}

impl Marks {
    /// The marks of a node.
    pub fn of(node: &Node) -> Marks
        ensures { marked result node.now ≡ node.now }
    {
        Marks {
            attributes: node.attributes,
            created: node.created,
            modified: node.modified,
            backup: node.backup,
            finder: node.finder,
            filed: node.filed,
            owner: node.owner,
            group: node.group,
            rights: node.rights,
        }
    }
}
