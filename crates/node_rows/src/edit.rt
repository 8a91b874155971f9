//! One node or child more, less or changed, at its place. None of these takes memory.
ghost use Rattle.std.specs.Prelude.{◌≡◌, ◌+◌, ◌<◌, ◌≤◌, ◌==◌, true, None, slice_set, slice_index_or, length, vec_len, vec_capacity};
ghost use Rattle.std.specs.List.{list_any, list_all, filter, remove};
ghost use Rattle.volume_spec.specs.Edits.{at_place};
ghost use Rattle.volume_spec.specs.Order.{put_in, rises};
ghost use Rattle.afp_base.specs.Apart.{are_apart};
ghost use Rattle.volume_spec.specs.SoundVolume.{has_rising_ids};
ghost use Rattle.volume_spec.specs.VolumeState.{Row};
ghost use Rattle.volume_spec.specs.Walk.{row_at};
ghost use Rattle.node_rows.specs.Children.{child_order};
ghost use Rattle.node_rows.specs.Kept.{admitted, marked};
ghost use Rattle.node_rows.specs.lemma.Places.{is_apart, is_child, is_other, place_for};

use crate::child::Child;
use crate::node::{Marks, Node};
use crate::search::{child_place, node_place, place_of};
use afp_base::NodeId;
use afp_names::Name;
use sorted_map::RecentPlaces;

/// Puts a node at the place of its id.
pub(crate) fn put_node(nodes: &mut Vec<Node>, recent: &RecentPlaces, node: Node)
    requires rising { has_rising_ids nodes.old.items ≡ true }
    requires new { row_at nodes.old.items node.id ≡ None }
    requires room { vec_len nodes.old < vec_capacity nodes.old }
    ensures items { nodes.new.items ≡ admitted node nodes.old.items }
    ensures len { vec_len nodes.new ≡ vec_len nodes.old + 1 }
    ensures capacity { vec_capacity nodes.old ≤ vec_capacity nodes.new }
{
    let place = node_place(nodes.as_slice(), node.id);
    let _ = nodes.insert(place, node);
    recent.inserted(place);
}

/// Puts a child at the place of its parent and key, and answers that place.
pub(crate) fn put_child(children: &mut Vec<Child>, child: Child) -> usize
    requires order { rises child_order children.old.items ≡ true }
    requires new { list_all (is_apart child) children.old.items ≡ true }
    requires room { vec_len children.old < vec_capacity children.old }
    ensures items { children.new.items ≡ put_in child_order child children.old.items }
    ensures place { result ≡ place_for child children.old.items }
    ensures within { result ≤ length children.old.items }
    ensures len { vec_len children.new ≡ vec_len children.old + 1 }
    ensures capacity { vec_capacity children.old ≤ vec_capacity children.new }
{
    let place = child_place(children.as_slice(), child.parent, child.key.as_slice());
    let _ = children.insert(place, child);
    place
}

/// Takes the child of this node away, and answers the place where it stood.
pub(crate) fn take_child(children: &mut Vec<Child>, node: &Node) -> usize
    requires order { rises child_order children.old.items ≡ true }
    requires one { are_apart (λ a b. a.id.0 == b.id.0) children.old.items ≡ true }
    requires there { list_any (is_child node.now) children.old.items ≡ true }
    ensures items { children.new.items ≡ filter (is_other node.now.id) children.old.items }
    ensures place { filter (is_other node.now.id) children.old.items ≡ remove children.old.items result }
    ensures within { result < length children.old.items }
    ensures len { vec_len children.new + 1 ≡ vec_len children.old }
    ensures capacity { vec_capacity children.new ≡ vec_capacity children.old }
{
    let place = place_of(children.as_slice(), node);
    let _child = children.remove(place);
    place
}

impl Node {
    fn set_marks(&mut self, marks: Marks)
        ensures { self.new ≡ marked marks self.old }
    {
        self.attributes = marks.attributes;
        self.created = marks.created;
        self.modified = marks.modified;
        self.backup = marks.backup;
        let finder = marks.finder;
        self.finder = finder;
        self.filed = marks.filed;
        self.owner = marks.owner;
        self.group = marks.group;
        let rights = marks.rights;
        self.rights = rights;
    }

    fn put_at(&mut self, parent: NodeId, name: Name)
        ensures { self.new ≡ at_place parent.0 name self.old }
    {
        self.parent = parent;
        self.name = name;
    }
}

/// Gives the node at a place other marks.
pub(crate) fn set_marks(nodes: &mut Vec<Node>, place: usize, marks: Marks)
    requires { place < vec_len nodes.old }
    ensures items { (d : Row) → nodes.new.items ≡ slice_set nodes.old.items place (marked marks (slice_index_or nodes.old.items place d)) }
    ensures len { vec_len nodes.new ≡ vec_len nodes.old }
    ensures capacity { vec_capacity nodes.new ≡ vec_capacity nodes.old }
{
    nodes[place].set_marks(marks);
}

/// Gives the node at a place another parent and name.
pub(crate) fn put_at(nodes: &mut Vec<Node>, place: usize, parent: NodeId, name: Name)
    requires { place < vec_len nodes.old }
    ensures items { (d : Row) → nodes.new.items ≡ slice_set nodes.old.items place (at_place parent.0 name (slice_index_or nodes.old.items place d)) }
    ensures len { vec_len nodes.new ≡ vec_len nodes.old }
    ensures capacity { vec_capacity nodes.new ≡ vec_capacity nodes.old }
{
    nodes[place].put_at(parent, name);
}
