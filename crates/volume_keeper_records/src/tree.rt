//! Where all nodes stand.
ghost use Rattle.std.specs.Prelude.{◌≡◌, ◌<◌, ◌^◌, ◌==◌, ◌&&◌, ◌*◌, ◌+◌, Bool, nat_lt, IfOk, map, length};
ghost use Rattle.std.specs.List.{list_any};
ghost use Rattle.std.specs.List.Sorted.{IsStrictlySortedBy};
ghost use Rattle.std.specs.Ordering.{nat_cmp};
ghost use Rattle.afp_base.specs.Limits.{block_size};
ghost use Rattle.volume_keeper_records.specs.declared.tree.Place.{Place};
ghost use Rattle.volume_keeper_records.specs.lemma.Climb.{id_of, climbs_to_root};
ghost use Rattle.volume_keeper_records.specs.lemma.Judged.{IsTree, IsTreeOf, told, is_there as is_there_by, is_file_there, is_stray_here, length_of};

use crate::climb::{ends_of, place_in_ids, push, stand};
use crate::rows::{ForkBlock, TableRow};
use afp_base::OutOfMemory;
use fork_bytes::BLOCK_SIZE;
use std::alloc::Global;
use volume_spec::limits::ROOT_ID;

/// Where a node stands, and how long its forks are.
#[derive(Clone, Copy)]
pub(crate) struct Place {
    pub(crate) id: u32,
    pub(crate) is_directory: bool,
    pub(crate) parent: u32,
    pub(crate) data_length: u64,
    pub(crate) resource_length: u64,
}

/// Where all nodes stand, and where the climb from each ends.
#[derive(Drop)]
pub(crate) struct Tree {
    places: Vec<Place>,
    ids: Vec<u32>,
    ends: Vec<usize>,
}

pub(crate) fn grow(alloc: Global, places: Vec<Place>) -> Result<Tree, OutOfMemory>
    requires order { IsStrictlySortedBy nat_cmp (map id_of places.items) }
    requires room { length places.items < 2 ^ 60 }
    ensures { IfOk result (λ tree. IsTreeOf places.items tree) }
{
    let mut ids = Vec::new(alloc);
    for place in &places {
        push(&mut ids, place.id)?;
    }
    let ends = ends_of(alloc, &ids, &places)?;
    Ok(Tree { places, ids, ends })
}

/// The place of the node with an id.
fn find(tree: &Tree, id: u32) -> Option<Place>
    requires { IsTree tree.now }
    ensures { (test : Place → Bool) → list_any (λ place. (place.id == id) && test place) tree.now.places.items ≡ told test result }
{
    let at = place_in_ids(&tree.ids, id);
    if at < tree.places.len() {
        Some(tree.places[at])
    } else {
        None
    }
}

fn is_there(tree: &Tree, id: u32) -> bool
    requires { IsTree tree.now }
    ensures { result ≡ is_there_by tree.now.places.items id }
{
    match find(tree, id) {
        Some(_) => true,
        None => false,
    }
}

fn is_file(tree: &Tree, id: u32) -> bool
    requires { IsTree tree.now }
    ensures { result ≡ is_file_there tree.now.places.items id }
{
    match find(tree, id) {
        Some(place) => !place.is_directory,
        None => false,
    }
}

fn leads(tree: &Tree, id: u32) -> bool
    requires { IsTree tree.now }
    ensures { result ≡ climbs_to_root tree.now.places.items (length tree.now.places.items) id }
{
    let at = stand(&tree.ids, id);
    tree.ends[at] == tree.ids.len() + 1
}

/// Whether the parents of a node do not lead to the root, or the node of a row is missing.
pub(crate) fn is_stray(tree: &Tree, row: &TableRow) -> bool
    requires { IsTree tree.now }
    ensures { result ≡ is_stray_here tree.now.places.items row.now }
{
    match row {
        TableRow::Head(_) => false,
        TableRow::Node(node) => node.id != ROOT_ID
            && !(is_there(tree, ROOT_ID) && leads(tree, node.parent)),
        TableRow::Block(block) => !is_file(tree, block.node),
        TableRow::Comment(comment) => !is_there(tree, comment.node),
        TableRow::Icon(_) => false,
        TableRow::Appl(appl) => !is_file(tree, appl.node),
    }
}

/// Whether a block reaches behind its fork's length.
pub(crate) fn reaches_behind(tree: &Tree, block: &ForkBlock) -> bool
    requires tree { IsTree tree.now }
    requires short { length block.now.bytes < 5000 }
    ensures { result ≡ list_any (λ place. (place.id == block.now.node) && nat_lt (length_of block.now.is_resource place) (block_size * block.now.index + length block.now.bytes)) tree.now.places.items }
{
    let index = block.index;
    let end = BLOCK_SIZE as u64 * index as u64 + block.bytes.as_slice().len() as u64;
    match find(tree, block.node) {
        Some(place) => {
            if block.is_resource {
                place.resource_length < end
            } else {
                place.data_length < end
            }
        }
        None => false,
    }
}
