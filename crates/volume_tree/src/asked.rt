//! What calls ask of a volume's tree.
ghost use Rattle.std.specs.Prelude.{true, false, MatchOption, ◌≡◌, Some, length, bytes_eq, IfOk};
ghost use Rattle.afp_names.specs.LongName.{long_name_of};
ghost use Rattle.afp_names.specs.Name.{name_key};
ghost use Rattle.afp_names.specs.Path.{element_of, long_names};
ghost use Rattle.volume_spec.specs.Edits.{has_children, is_below, is_taken};
ghost use Rattle.volume_spec.specs.Shared.{directory_of, has_attribute, has_no_ids, has_no_room, is_busy};
ghost use Rattle.volume_spec.specs.SoundVolume.{has_file};
ghost use Rattle.volume_spec.specs.VolumeState.{Row};
ghost use Rattle.volume_spec.specs.Walk.{parent_at, has_directory, child_by_key, child_by_long_name, row_at};
ghost use Rattle.volume_tree.specs.Answered.{IsFoundNode};
ghost use Rattle.volume_tree.specs.lemma.Answered.{lower, option_id};
ghost use Rattle.volume_tree.specs.Shown.{opened};

use crate::volume::{ROOT_PARENT, Volume};
use afp_base::{Bytes, NodeId, OutOfMemory};
use afp_names::{Name, long_name, put_shown};
use deny_modes::VolumeOpens;
use node_rows::Node;
use std::alloc::Global;
use volume_spec::limits::MOST_NODES;

/// The attribute of a node that may not be deleted (AFP Reference, "File attributes").
pub const DELETE_INHIBIT: u16 = 0x0100;

/// The attribute of a node that may not get another name or place (AFP Reference, "File attributes").
pub const RENAME_INHIBIT: u16 = 0x0080;

/// The element by which a path of long names spells a name.
#[tactic(auto, unfolding(afp_names::specs::Path::element_of))]
fn long_element(alloc: Global, name: &Name) -> Result<Bytes, OutOfMemory>
    ensures { IfOk result (λ element. element ≡ element_of long_names name.now) }
{
    let mut element = Bytes::new(alloc);
    put_shown(alloc, &mut element, name.as_str())?;
    Ok(element)
}

/// Whether a node has this long name.
fn is_long(alloc: Global, node: &Node, element: &[u8]) -> Result<bool, OutOfMemory>
    ensures { IfOk result (λ is. is ≡ bytes_eq (long_name_of node.now.name node.now.id) element.now) }
{
    let long = long_name(alloc, &node.name, node.id)?;
    Ok(long.as_slice() == element)
}

/// The lower of an id and of the one that was found before, if one was.
fn lower(found: Option<NodeId>, id: NodeId) -> NodeId
    ensures { result.0 ≡ lower (option_id found) id.0 }
{
    match found {
        Some(other) => if other.0 < id.0 { other } else { id },
        None => id,
    }
}

/// Whether a fork of a node is open.
pub fn is_busy(opens: &VolumeOpens<'_>, id: NodeId) -> bool
    ensures { result ≡ is_busy (opened opens.now) id.0 }
{
    opens.has_node(id)
}

impl Volume {
    /// The id of the next new node; `None` where the ids have ended.
    #[tactic(auto, unfolding(volume_spec::specs::Shared::has_no_ids))]
    pub fn next(&self) -> Option<NodeId>
        ensures { MatchOption result (has_no_ids self.now.state ≡ true) (λ id. (has_no_ids self.now.state ≡ false) × (id.0 ≡ self.now.state.next_id)) }
    {
        self.rows.next_id()
    }

    /// The id of the next new node; `None` where the volume is full or the ids have ended.
    #[tactic(auto, unfolding(volume_spec::specs::Shared::has_no_room))]
    pub fn room(&self) -> Option<NodeId>
        ensures { MatchOption result (has_no_room self.now.state ≡ true) (λ id. (has_no_room self.now.state ≡ false) × (id.0 ≡ self.now.state.next_id)) }
    {
        if self.count() >= MOST_NODES {
            return None;
        }
        self.next()
    }

    /// The directory in which a node is.
    pub fn parent(&self, id: NodeId) -> Option<NodeId>
        ensures { IsFoundNode result (parent_at self.now.state.rows id.0) }
    {
        match self.rows.get(id) {
            Some(node) => Some(node.parent),
            None => None,
        }
    }

    /// The directory in which a node is; the root's parent where there is no such node.
    pub fn directory(&self, id: NodeId) -> NodeId
        ensures { result.0 ≡ directory_of self.now.state.rows id.0 }
    {
        match self.parent(id) {
            Some(up) => up,
            None => ROOT_PARENT,
        }
    }

    /// Whether an id is a directory's.
    pub fn is_directory(&self, id: NodeId) -> bool
        ensures { result ≡ has_directory self.now.state.rows id.0 }
    {
        match self.rows.get(id) {
            Some(node) => node.dir,
            None => false,
        }
    }

    /// Whether an id is a file's.
    pub fn is_file(&self, id: NodeId) -> bool
        ensures { result ≡ has_file self.now.state.rows id.0 }
    {
        match self.rows.get(id) {
            Some(node) => !node.dir,
            None => false,
        }
    }

    /// Whether the node of an id has an attribute.
    pub fn has(&self, bit: u16, id: NodeId) -> bool
        ensures { result ≡ has_attribute self.now.state.rows bit id.0 }
    {
        match self.rows.get(id) {
            Some(node) => node.attributes & bit != 0,
            None => false,
        }
    }

    /// The child of a directory whose name has this key.
    pub fn child(&self, dir: NodeId, key: &[u8]) -> Option<NodeId>
        ensures { IsFoundNode result (child_by_key self.now.state.rows dir.0 key.now) }
    {
        self.rows.child(dir, key)
    }

    /// The child of a directory whose long name a name spells.
    pub fn long_child(
        &self,
        alloc: Global,
        dir: NodeId,
        name: &Name,
    ) -> Result<Option<NodeId>, OutOfMemory>
        ensures { IfOk result (λ found. IsFoundNode found (child_by_long_name self.now.state.rows dir.0 (element_of long_names name.now))) }
    {
        let element = long_element(alloc, name)?;
        self.find_long(alloc, dir, element.as_slice())
    }

    /// The first child by id of a directory with this long name. Children stand by their keys, so all of them are passed.
    fn find_long(
        &self,
        alloc: Global,
        dir: NodeId,
        element: &[u8],
    ) -> Result<Option<NodeId>, OutOfMemory>
        ensures { IfOk result (λ found. IsFoundNode found (child_by_long_name self.now.state.rows dir.0 element.now)) }
    {
        self.keeps_sound();
        let siblings = self.siblings(dir);
        let mut found = None;
        for child in siblings {
            let fits = self.has_long(alloc, child.id, element)?;
            if fits {
                found = Some(lower(found, child.id));
            }
        }
        Ok(found)
    }

    /// Whether the node of an id has this long name.
    fn has_long(&self, alloc: Global, id: NodeId, element: &[u8]) -> Result<bool, OutOfMemory>
        ensures { IfOk result (λ has. (row : Row) → row_at self.now.state.rows id.0 ≡ Some row → has ≡ bytes_eq (long_name_of row.name row.id) element.now) }
    {
        match self.node(id) {
            Some(node) => is_long(alloc, node, element),
            None => Ok(false),
        }
    }

    /// Whether a directory has children.
    pub fn has_children(&self, dir: NodeId) -> bool
        ensures { result ≡ has_children self.now.state.rows dir.0 }
    {
        self.rows.nth(dir, 0).is_some()
    }

    /// Whether a node is another one, or below it.
    pub fn is_below(&self, node: NodeId, id: NodeId) -> bool
        ensures { result ≡ is_below self.now.state.rows (length self.now.state.rows) node.0 id.0 }
    {
        self.keeps_sound();
        let mut here = id;
        for _step in 0..self.count() {
            if here.0 == node.0 {
                return true;
            }
            match self.parent(here) {
                Some(up) => here = up,
                None => return false,
            }
        }
        here.0 == node.0
    }

    /// Whether another node of a directory has a name with this key.
    pub fn is_taken(&self, node: NodeId, dir: NodeId, name: &Name, key: &[u8]) -> bool
        requires { key.now ≡ name_key name.now }
        ensures { result ≡ is_taken self.now.state.rows node.0 dir.0 name.now }
    {
        self.keeps_sound();
        match self.child(dir, key) {
            Some(other) => other.0 != node.0,
            None => false,
        }
    }
}
