//! Places in sorted lists: of an id where others were found of late, at the ends or by halving, and of all else by halving.
ghost use Rattle.std.specs.Prelude.{◌≡◌, ◌∷◌, ◌≤◌, ◌<◌, true, Some, IfSome, not, nat_lt, length, option_map, slice_get, bytes_eq, position, ◌==◌};
ghost use Rattle.std.specs.List.{position_or_len, find, filter, list_any, remove};
ghost use Rattle.volume_spec.specs.Order.{stands_before, rises};
ghost use Rattle.afp_base.specs.Apart.{are_apart};
ghost use Rattle.volume_spec.specs.SoundVolume.{has_rising_ids};
ghost use Rattle.node_rows.specs.Children.{child_order};
ghost use Rattle.node_rows.specs.Kept.{IsPlaceOf};
ghost use Rattle.node_rows.specs.lemma.Places.{IsPart, is_child, is_child_at, is_other};

use crate::child::Child;
use crate::node::Node;
use afp_base::NodeId;
use afp_names::LONGEST_NAME;
use sorted_map::RecentPlaces;
use std::cmp::Ordering;

/// The place of the first node whose id is not below this one. The ends are looked at first: a new node comes behind all others, and the root is the first.
pub(crate) fn node_place(nodes: &[Node], id: NodeId) -> usize
    requires { has_rising_ids nodes.now ≡ true }
    ensures place { result ≡ position_or_len (λ row. not (nat_lt row.id id.0)) nodes.now }
    ensures within { result ≤ length nodes.now }
{
    let count = nodes.len();
    if count == 0 {
        return 0;
    }
    if is_below(&nodes[count - 1], id) {
        return count;
    }
    if !is_below(&nodes[0], id) {
        return 0;
    }
    halve_nodes(nodes, id)
}

/// The same, found by halving.
fn halve_nodes(nodes: &[Node], id: NodeId) -> usize
    requires { has_rising_ids nodes.now ≡ true }
    ensures place { result ≡ position_or_len (λ row. not (nat_lt row.id id.0)) nodes.now }
    ensures within { result ≤ length nodes.now }
{
    nodes.partition_point(|node| is_below(node, id))
}

fn is_below(node: &Node, id: NodeId) -> bool
    ensures { result ≡ nat_lt node.now.id id.0 }
{
    node.id.0 < id.0
}

/// The place of the node of this id.
pub(crate) fn search_node(nodes: &[Node], id: NodeId) -> Option<usize>
    requires { has_rising_ids nodes.now ≡ true }
    ensures { IsPlaceOf nodes.now id.0 result }
{
    let place = node_place(nodes, id);
    if place == nodes.len() {
        return None;
    }
    if !has_id(&nodes[place], id) {
        return None;
    }
    Some(place)
}

fn has_id(node: &Node, id: NodeId) -> bool
    ensures { result ≡ (node.now.id == id.0) }
{
    node.id.0 == id.0
}

/// Whether a node at a place has this id.
fn is_there(nodes: &[Node], place: usize, id: NodeId) -> bool
    requires { has_rising_ids nodes.now ≡ true }
    ensures { result ≡ true → IsPlaceOf nodes.now id.0 (Some place) }
{
    place < nodes.len() && has_id(&nodes[place], id)
}

/// The place of the node of this id, if it is a recent one behind the last.
fn find_again(nodes: &[Node], recent: &RecentPlaces, id: NodeId) -> Option<usize>
    requires { has_rising_ids nodes.now ≡ true }
    ensures { IfSome result (λ place. IsPlaceOf nodes.now id.0 (Some place)) }
{
    let [_, second, third, fourth] = recent.places();
    let place = if is_there(nodes, second, id) {
        second
    } else if is_there(nodes, third, id) {
        third
    } else if is_there(nodes, fourth, id) {
        fourth
    } else {
        return None;
    };
    recent.found(place);
    Some(place)
}

/// The place of the node of this id. It is searched for where it is neither the first, which is the root, nor a recent one.
pub(crate) fn find_node(nodes: &[Node], recent: &RecentPlaces, id: NodeId) -> Option<usize>
    requires { has_rising_ids nodes.now ≡ true }
    ensures { IsPlaceOf nodes.now id.0 result }
{
    if is_there(nodes, 0, id) {
        return Some(0);
    }
    let last = recent.last();
    if is_there(nodes, last, id) {
        return Some(last);
    }
    if let Some(place) = find_again(nodes, recent, id) {
        return Some(place);
    }
    let found = search_node(nodes, id);
    if let Some(place) = found {
        recent.found(place);
    }
    found
}

/// Whether a child stands before this parent and key.
fn is_before(child: &Child, parent: NodeId, key: &[u8]) -> bool
    ensures { result ≡ stands_before (child_order child.now) (parent.0 ∷ key.now) }
{
    match child.parent.0.cmp(&parent.0) {
        Ordering::Less => true,
        Ordering::Equal => child.key.as_slice().cmp(key).is_lt(),
        Ordering::Greater => false,
    }
}

/// The place of the first child that does not stand before this parent and key.
pub(crate) fn child_place(children: &[Child], parent: NodeId, key: &[u8]) -> usize
    requires { rises child_order children.now ≡ true }
    ensures place { result ≡ position_or_len (λ child. not (stands_before (child_order child) (parent.0 ∷ key.now))) children.now }
    ensures within { result ≤ length children.now }
{
    children.partition_point(|child| is_before(child, parent, key))
}

/// The id of the child with this parent and key.
pub(crate) fn find_child(children: &[Child], parent: NodeId, key: &[u8]) -> Option<NodeId>
    requires { rises child_order children.now ≡ true }
    ensures { result ≡ option_map (λ child. child.id) (find (λ child. bytes_eq (child_order child) (parent.0 ∷ key.now)) children.now) }
{
    let place = child_place(children, parent, key);
    if place == children.len() {
        return None;
    }
    let child = &children[place];
    if !is_at(child, parent, key) {
        return None;
    }
    Some(child.id)
}

fn is_at(child: &Child, parent: NodeId, key: &[u8]) -> bool
    ensures { result ≡ bytes_eq (child_order child.now) (parent.0 ∷ key.now) }
{
    child.parent.0 == parent.0 && child.key.as_slice() == key
}

/// The id of the child at a place among those of this parent, from 0.
pub(crate) fn nth_child(children: &[Child], parent: NodeId, i: usize) -> Option<NodeId>
    requires { rises child_order children.now ≡ true }
    ensures { result ≡ option_map (λ child. child.id) (slice_get (filter (λ child. child.parent.0 == parent.0) children.now) i) }
{
    let first = child_place(children, parent, &[]);
    if i >= children.len() - first {
        return None;
    }
    let child = &children[first + i];
    if child.parent.0 != parent.0 {
        return None;
    }
    Some(child.id)
}

/// The place of the first child whose parent is not below a number.
fn parent_place(children: &[Child], bound: u64) -> usize
    requires { rises child_order children.now ≡ true }
    ensures place { result ≡ position_or_len (λ child. not (nat_lt child.parent.0 bound)) children.now }
    ensures within { result ≤ length children.now }
{
    children.partition_point(|child| u64::from(child.parent.0) < bound)
}

/// The place of the first child of this parent, and the place behind the last one.
pub(crate) fn sibling_places(children: &[Child], parent: NodeId) -> (usize, usize)
    requires { rises child_order children.now ≡ true }
    ensures { IsPart children.now parent.0 result.0 result.1 }
{
    let first = parent_place(children, u64::from(parent.0));
    let behind = parent_place(children, u64::from(parent.0) + 1);
    (first, behind)
}

/// The children of this parent, from the first to the last.
pub(crate) fn siblings(children: &[Child], parent: NodeId) -> &[Child]
    requires { rises child_order children.now ≡ true }
    ensures { result.now ≡ filter (λ child. child.parent.0 == parent.0) children.now }
{
    let (first, behind) = sibling_places(children, parent);
    &children[first..behind]
}

/// The place of this node's child. It takes no memory: it is found by halving where the name is of ASCII characters alone, and
/// else among the children of the directory.
pub(crate) fn place_of(children: &[Child], node: &Node) -> usize
    requires order { rises child_order children.now ≡ true }
    requires one { are_apart (λ a b. a.id.0 == b.id.0) children.now ≡ true }
    requires there { list_any (is_child node.now) children.now ≡ true }
    ensures within { result < length children.now }
    ensures others { filter (is_other node.now.id) children.now ≡ remove children.now result }
{
    let mut room = [0; LONGEST_NAME];
    match node.name.ascii_key(&mut room) {
        Some(len) => child_place(children, node.parent, &room[..len]),
        None => place_among(children, node.parent, node.id),
    }
}

/// The place of the child of this id, among those of its parent.
fn place_among(children: &[Child], parent: NodeId, id: NodeId) -> usize
    requires one { are_apart (λ a b. a.id.0 == b.id.0) children.now ≡ true }
    requires order { rises child_order children.now ≡ true }
    requires there { list_any (is_child_at parent.0 id.0) children.now ≡ true }
    ensures within { result < length children.now }
    ensures others { filter (is_other id.0) children.now ≡ remove children.now result }
{
    let first = child_place(children, parent, &[]);
    first + place_of_id(&children[first..], id).unwrap_or(0)
}

/// The place of the first child with this id.
fn place_of_id(children: &[Child], id: NodeId) -> Option<usize>
    ensures { result ≡ position (λ child. child.id.0 == id.0) children.now }
{
    children.iter().position(|child| child.id.0 == id.0)
}
