//! The nodes of a volume.
ghost use Rattle.std.specs.Prelude.{◌≡◌, ℕ, ◌+◌, ◌<◌, ◌≤◌, ◌^◌, ◌++◌, ◌∷◌, [], true, false, None, Some, length, map, nat_lt, MatchOption, option_map, slice_get, min, not, insert, IfOk, OnOk, vec_len, vec_capacity};
ghost use Rattle.std.specs.Option.{option_copied};
ghost use Rattle.std.specs.List.{list_all};
ghost use Rattle.afp_names.specs.Name.{name_key};
ghost use Rattle.volume_spec.specs.Edits.{at_place, is_taken, with_changed, without};
ghost use Rattle.volume_spec.specs.Listing.{listed};
ghost use Rattle.volume_spec.specs.Order.{put_in, rises};
ghost use Rattle.afp_base.specs.Apart.{are_apart};
ghost use Rattle.volume_spec.specs.SoundVolume.{are_named_alike, has_rising_ids, last_next_id};
ghost use Rattle.volume_spec.specs.VolumeState.{Row, first_id, root_id};
ghost use Rattle.volume_spec.specs.Walk.{child_by_key, row_at};
ghost use Rattle.node_rows.specs.Children.{child_of, child_order, children_of};
ghost use Rattle.node_rows.specs.Kept.{IsPlaceOf, admitted, marked};
ghost use Rattle.node_rows.specs.Kinds.{IsPlaceBehind, are_of_kind};
ghost use Rattle.node_rows.specs.lemma.Kinds.{child_kinds, is_file};
ghost use Rattle.node_rows.specs.lemma.Places.{is_apart, place_for};

use crate::child::Child;
use crate::edit::{put_at, put_child, put_node, set_marks, take_child};
use crate::kinds::Kinds;
use crate::node::{Marks, Node};
use crate::order::sort;
use crate::search::{find_child, find_node, nth_child, search_node, sibling_places, siblings};
use afp_base::{Bytes, NodeId, OutOfMemory};
use afp_names::Name;
use sorted_map::RecentPlaces;
use std::alloc::Global;
use std::marker::Model;

/// The nodes of a volume, its next node id, and room for more nodes.
///
/// Contracts see the definition's rows, by rising id and with no bytes in their forks; the next id; and `spare`, a number of
/// nodes that can be added with no memory.
#[derive(Drop)]
pub struct Rows {
    nodes: Vec<Node>,
    children: Vec<Child>,
    kinds: Kinds,
    next: u64,
    recent: RecentPlaces,
}

impl Model for Rows {
    ghost use Rattle.std.specs.Prelude.{◌-◌, min, vec_capacity, vec_len};
    ghost use Rattle.node_rows.specs.Kept.{RowsValue};
    ghost use Rattle.node_rows.specs.lemma.Kept.{AreAllKept};

    ghost Value = { RowsValue };

    ghost view = { λ a. record { rows = a.nodes.items; next_id = a.next; spare = min (min (vec_capacity a.nodes - vec_len a.nodes) (vec_capacity a.children - vec_len a.children)) a.kinds.spare } };

    ghost invariant = { λ a. AreAllKept a.nodes.items a.children.items a.kinds.kinds a.next };
}

impl Rows {
    /// The root of a volume alone.
    pub fn new(alloc: Global, root: Node, next: u64) -> Result<Rows, OutOfMemory>
        requires root { root.id ≡ root_id }
        requires low { first_id ≤ next }
        requires high { next ≤ last_next_id }
        ensures rows { IfOk result (λ rows. rows.rows ≡ root ∷ []) }
        ensures next { IfOk result (λ rows. rows.next_id ≡ next) }
    {
        let child = child_of(alloc, &root)?;
        let mut children = Vec::new(alloc);
        children.push(child)?;
        let mut nodes = Vec::new(alloc);
        nodes.push(root)?;
        let kinds = kinds_of(alloc, nodes.as_slice(), children.as_slice())?;
        Ok(Rows {
            nodes,
            children,
            kinds,
            next,
            recent: RecentPlaces::new(),
        })
    }

    /// Nodes that stand by rising id, below the next id, and no two of which have one parent and names with one key. It takes the
    /// time of one sort, and looks each node up once.
    pub fn of(alloc: Global, nodes: Vec<Node>, next: u64) -> Result<Rows, OutOfMemory>
        requires rising { has_rising_ids nodes.items ≡ true }
        requires below { list_all (λ (row : Row). nat_lt row.id next) nodes.items ≡ true }
        requires apart { are_apart are_named_alike nodes.items ≡ true }
        requires low { first_id ≤ next }
        requires high { next ≤ last_next_id }
        ensures rows { IfOk result (λ rows. rows.rows ≡ nodes.items) }
        ensures next { IfOk result (λ rows. rows.next_id ≡ next) }
    {
        let mut children = children_of(alloc, nodes.as_slice())?;
        sort(&mut children);
        let kinds = kinds_of(alloc, nodes.as_slice(), children.as_slice())?;
        Ok(Rows {
            nodes,
            children,
            kinds,
            next,
            recent: RecentPlaces::new(),
        })
    }

    /// The node of an id.
    pub fn get(&self, id: NodeId) -> Option<&Node>
        ensures { option_copied result ≡ row_at self.now.rows id.0 }
    {
        match find_node(self.nodes.as_slice(), &self.recent, id) {
            Some(place) => Some(&self.nodes[place]),
            None => None,
        }
    }

    /// The place of the node of an id among `nodes`.
    pub fn find(&self, id: NodeId) -> Option<usize>
        ensures { IsPlaceOf self.now.rows id.0 result }
    {
        find_node(self.nodes.as_slice(), &self.recent, id)
    }

    /// The child of a directory whose name has this key.
    pub fn child(&self, dir: NodeId, key: &[u8]) -> Option<NodeId>
        ensures { MatchOption result (child_by_key self.now.rows dir.0 key.now ≡ None) (λ id. child_by_key self.now.rows dir.0 key.now ≡ Some id.0) }
    {
        find_child(self.children.as_slice(), dir, key)
    }

    /// The child at a place of a directory's list, which goes by the keys of names and counts from 0.
    pub fn nth(&self, dir: NodeId, i: usize) -> Option<NodeId>
        ensures { MatchOption result (slice_get (listed self.now.rows dir.0) i ≡ None) (λ id. option_map (λ (row : Row). row.id) (slice_get (listed self.now.rows dir.0) i) ≡ Some id.0) }
    {
        nth_child(self.children.as_slice(), dir, i)
    }

    /// The children of a directory in the order of its list, found by two halvings.
    pub fn siblings(&self, dir: NodeId) -> &[Child]
        ensures { result.now ≡ map child_of (listed self.now.rows dir.0) }
    {
        siblings(self.children.as_slice(), dir)
    }

    /// The place in a directory's list, from another place on, of the file behind `skip` other files, or of the directory behind
    /// `skip` other directories. It is found by three halvings, whatever stands before it.
    pub fn place_behind(&self, dir: NodeId, files: bool, from: usize, skip: usize) -> Option<usize>
        ensures { IsPlaceBehind (are_of_kind files (listed self.now.rows dir.0)) from skip result }
    {
        let (first, behind) = sibling_places(self.children.as_slice(), dir);
        if skip >= (behind - first).saturating_sub(from) {
            return None;
        }
        let place = self.kinds.find(files, first + from, behind, skip);
        if place < behind {
            Some(place - first)
        } else {
            None
        }
    }

    /// How many nodes there are.
    pub fn count(&self) -> usize
        ensures { result ≡ length self.now.rows }
    {
        self.nodes.len()
    }

    /// The id that the next new node draws. `None`: the last id, 4,294,967,295, was drawn.
    pub fn next_id(&self) -> Option<NodeId>
        ensures { MatchOption result (self.now.next_id ≡ last_next_id) (λ id. self.now.next_id ≡ id.0) }
    {
        match u32::try_from(self.next) {
            Ok(next) => Some(NodeId(next)),
            Err(_) => None,
        }
    }

    /// The nodes by rising id. No two have one parent and names with one key.
    pub fn nodes(&self) -> &[Node]
        ensures nodes { result.now ≡ self.now.rows }
        ensures rising { has_rising_ids self.now.rows ≡ true }
        ensures apart { are_apart are_named_alike self.now.rows ≡ true }
    {
        self.nodes.as_slice()
    }

    /// One child for each node, the root among them, by rising parent and then by key in the order of bytes.
    pub fn children(&self) -> &[Child]
        ensures { result.now ≡ children_of self.now.rows }
    {
        self.children.as_slice()
    }

    /// Makes room for one node more. An error changes nothing that contracts see.
    pub fn reserve(&mut self) -> Result<(), OutOfMemory>
        ensures room { OnOk result (1 ≤ self.new.spare) }
        ensures rows { self.new.rows ≡ self.old.rows }
        ensures next { self.new.next_id ≡ self.old.next_id }
        ensures spare { self.old.spare ≤ self.new.spare }
    {
        self.nodes.reserve(1)?;
        self.children.reserve(1)?;
        self.kinds.reserve()?;
        Ok(())
    }

    /// Adds a node with the next id, which is drawn by this. It takes no memory.
    pub fn insert(&mut self, node: Node, key: Bytes)
        requires id { node.id ≡ self.old.next_id }
        requires key { key ≡ name_key node.name }
        requires free { child_by_key self.old.rows node.parent key ≡ None }
        requires room { 1 ≤ self.old.spare }
        ensures rows { self.new.rows ≡ self.old.rows ++ node ∷ [] }
        ensures next { self.new.next_id ≡ self.old.next_id + 1 }
        ensures spare { self.old.spare ≤ self.new.spare + 1 }
    {
        put_all(
            &mut self.nodes,
            &mut self.children,
            &mut self.kinds,
            &self.recent,
            node,
            key,
        );
        self.next += 1;
    }

    /// Adds a node with an id that was drawn before and is no node's. Its parent need not be there yet. It takes no memory.
    pub fn admit(&mut self, node: Node, key: Bytes)
        requires drawn { node.id < self.old.next_id }
        requires low { first_id ≤ node.id }
        requires new { row_at self.old.rows node.id ≡ None }
        requires key { key ≡ name_key node.name }
        requires free { child_by_key self.old.rows node.parent key ≡ None }
        requires room { 1 ≤ self.old.spare }
        ensures rows { self.new.rows ≡ admitted node self.old.rows }
        ensures next { self.new.next_id ≡ self.old.next_id }
        ensures spare { self.old.spare ≤ self.new.spare + 1 }
    {
        put_all(
            &mut self.nodes,
            &mut self.children,
            &mut self.kinds,
            &self.recent,
            node,
            key,
        );
    }

    /// Gives the node at a place among `nodes` other marks.
    pub fn mark_at(&mut self, place: usize, marks: Marks)
        requires { (id : ℕ) × IsPlaceOf self.old.rows id (Some place) }
        ensures rows { (id : ℕ) → IsPlaceOf self.old.rows id (Some place) → self.new.rows ≡ with_changed id (marked marks) self.old.rows }
        ensures next { self.new.next_id ≡ self.old.next_id }
        ensures spare { self.new.spare ≡ self.old.spare }
    {
        set_marks(&mut self.nodes, place, marks);
    }

    /// Takes the node of an id away, where there is one.
    pub fn remove(&mut self, id: NodeId)
        ensures rows { self.new.rows ≡ without id.0 self.old.rows }
        ensures next { self.new.next_id ≡ self.old.next_id }
        ensures spare { self.old.spare ≤ self.new.spare }
    {
        match find_node(self.nodes.as_slice(), &self.recent, id) {
            Some(place) => {
                let stood = take_child(&mut self.children, &self.nodes[place]);
                self.kinds.remove(stood);
                let _node = self.nodes.remove(place);
                self.recent.removed(place);
            }
            None => {}
        }
    }

    /// Gives the node of an id another parent and name, where there is one. It takes no memory.
    pub fn place(&mut self, id: NodeId, parent: NodeId, name: Name, key: Bytes)
        requires key { key ≡ name_key name }
        requires free { is_taken self.old.rows id.0 parent.0 name ≡ false }
        ensures rows { self.new.rows ≡ with_changed id.0 (at_place parent.0 name) self.old.rows }
        ensures next { self.new.next_id ≡ self.old.next_id }
        ensures spare { self.old.spare ≤ self.new.spare }
    {
        match find_node(self.nodes.as_slice(), &self.recent, id) {
            Some(place) => {
                let node = &self.nodes[place];
                let file = !node.dir;
                let stood = take_child(&mut self.children, node);
                self.kinds.remove(stood);
                let stands = put_child(&mut self.children, Child { parent, key, id });
                self.kinds.insert(stands, file);
                put_at(&mut self.nodes, place, parent, name);
            }
            None => {}
        }
    }
}

/// The child of each node.
fn children_of(alloc: Global, nodes: &[Node]) -> Result<Vec<Child>, OutOfMemory>
    ensures { IfOk result (λ children. children.items ≡ map child_of nodes.now) }
{
    let mut children = Vec::new(alloc);
    children.reserve(nodes.len())?;
    for node in nodes {
        children.push(child_of(alloc, node)?)?;
    }
    Ok(children)
}

fn child_of(alloc: Global, node: &Node) -> Result<Child, OutOfMemory>
    ensures { IfOk result (λ child. child ≡ child_of node.now) }
{
    let key = node.name.key(alloc)?;
    Ok(Child {
        parent: node.parent,
        key,
        id: node.id,
    })
}

/// Whether the node of an id is a file.
fn is_file(nodes: &[Node], id: NodeId) -> bool
    requires { has_rising_ids nodes.now ≡ true }
    ensures { result ≡ is_file (row_at nodes.now id.0) }
{
    match search_node(nodes, id) {
        Some(place) => {
            let node = &nodes[place];
            !node.dir
        }
        None => false,
    }
}

/// The kinds of children, in their order.
fn kinds_of(alloc: Global, nodes: &[Node], children: &[Child]) -> Result<Kinds, OutOfMemory>
    requires { has_rising_ids nodes.now ≡ true }
    ensures { IfOk result (λ kinds. kinds.kinds ≡ child_kinds nodes.now children.now) }
{
    let mut kinds = Kinds::new(alloc);
    for i in 0..children.len() {
        kinds.reserve()?;
        kinds.insert(i, is_file(nodes, children[i].id));
    }
    Ok(kinds)
}

/// Puts a node at the place of its id, and its child and kind at that of its parent and key.
fn put_all(
    nodes: &mut Vec<Node>,
    children: &mut Vec<Child>,
    kinds: &mut Kinds,
    recent: &RecentPlaces,
    node: Node,
    key: Bytes,
)
    requires rising { has_rising_ids nodes.old.items ≡ true }
    requires order { rises child_order children.old.items ≡ true }
    requires new { row_at nodes.old.items node.id ≡ None }
    requires key { key ≡ name_key node.name }
    requires free { list_all (is_apart (child_of node)) children.old.items ≡ true }
    requires kinds { length kinds.old.kinds ≡ length children.old.items }
    requires nodes_room { vec_len nodes.old < vec_capacity nodes.old }
    requires children_room { vec_len children.old < vec_capacity children.old }
    requires kinds_room { 1 ≤ kinds.old.spare }
    ensures nodes { nodes.new.items ≡ admitted node nodes.old.items }
    ensures children { children.new.items ≡ put_in child_order (child_of node) children.old.items }
    ensures kinds { kinds.new.kinds ≡ insert kinds.old.kinds (place_for (child_of node) children.old.items) (not node.dir) }
    ensures nodes_len { vec_len nodes.new ≡ vec_len nodes.old + 1 }
    ensures nodes_capacity { vec_capacity nodes.old ≤ vec_capacity nodes.new }
    ensures children_len { vec_len children.new ≡ vec_len children.old + 1 }
    ensures children_capacity { vec_capacity children.old ≤ vec_capacity children.new }
    ensures kinds_spare { kinds.old.spare ≤ kinds.new.spare + 1 }
    ensures id { node.id < 2 ^ 32 }
{
    let child = Child {
        parent: node.parent,
        key,
        id: node.id,
    };
    let stands = put_child(children, child);
    kinds.insert(stands, !node.dir);
    put_node(nodes, recent, node);
}
