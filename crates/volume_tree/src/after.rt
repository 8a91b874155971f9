//! A node as it will be, told before it is changed. None of these takes memory.
ghost use Rattle.std.specs.Prelude.{◌≡◌};
ghost use Rattle.volume_spec.specs.Edits.{at_place, filed_as, named};
ghost use Rattle.volume_spec.specs.SetFileDirParms.{with_settings};

use crate::marks::{filed_marks, modified_marks};
use crate::settings::Settings;
use afp_base::NodeId;
use afp_names::Name;
use node_rows::{Marks, Node};
use std::marker::Model;

/// A node as a plan leaves it, without its forks (AFP Reference, "File and directory parameters").
///
/// Contracts see the definition's row, with no bytes in its forks.
#[derive(Drop)]
pub struct NodeAfter<'a> {
    pub id: NodeId,
    pub parent: NodeId,
    pub dir: bool,
    pub marks: Marks,
    pub name: &'a Name,
}

impl<'a> Model for NodeAfter<'a> {
    ghost use Rattle.std.specs.Prelude.{[]};
    ghost use Rattle.volume_spec.specs.VolumeState.{Row, privileges_of};

    ghost Value = { Row };

    ghost view = { λ a. record { id = a.id.0; parent = a.parent.0; dir = a.dir; attributes = a.marks.attributes; created = a.marks.created; modified = a.marks.modified; backup = a.marks.backup; finder = a.marks.finder; filed = a.marks.filed; privileges = privileges_of a.marks.owner a.marks.group a.marks.rights; name = a.name.now; data_fork = []; resource_fork = [] } };
}

impl<'a> NodeAfter<'a> {
    /// A node as it is.
    pub fn of(node: &'a Node) -> NodeAfter<'a>
        ensures { result ≡ node.now }
    {
        NodeAfter {
            id: node.id,
            parent: node.parent,
            dir: node.dir,
            marks: Marks::of(node),
            name: &node.name,
        }
    }

    /// The node at another place.
    pub fn at(self, parent: NodeId, name: &'a Name) -> NodeAfter<'a>
        ensures { result ≡ at_place parent.0 name.now self.entry }
    {
        NodeAfter {
            parent,
            name,
            ..self
        }
    }

    /// The node under another id, which it draws.
    pub fn with_id(self, id: NodeId) -> NodeAfter<'a>
        ensures { result ≡ record self.entry { id = id.0 } }
    {
        NodeAfter { id, ..self }
    }

    /// The node under another name.
    pub fn named(self, name: &'a Name) -> NodeAfter<'a>
        ensures { result ≡ named name.now self.entry }
    {
        NodeAfter { name, ..self }
    }

    /// The file, filed or not.
    pub fn filed(self, filed: bool) -> NodeAfter<'a>
        ensures { result ≡ filed_as filed self.entry }
    {
        NodeAfter {
            marks: filed_marks(self.marks, filed),
            ..self
        }
    }

    /// The node with a modified date.
    pub fn dated(self, date: i32) -> NodeAfter<'a>
        ensures { result ≡ record self.entry { modified = date } }
    {
        NodeAfter {
            marks: modified_marks(self.marks, date),
            ..self
        }
    }

    /// The node with these settings.
    pub fn with(self, settings: &Settings) -> NodeAfter<'a>
        ensures { result ≡ with_settings settings.now self.entry }
    {
        NodeAfter {
            marks: settings.marks_after(self.dir, self.marks),
            ..self
        }
    }
}
