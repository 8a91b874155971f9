//! Which nodes lead to the root: as many steps up as there are nodes, from all at once.
ghost use Rattle.std.specs.Prelude.{◌≡◌, ◌+◌, ◌<◌, ◌^◌, IfOk, OnOk, OnErr, [], ◌∷◌, ◌++◌, length, All, map, ℕ, slice_index};
ghost use Rattle.std.specs.List.Sorted.{IsStrictlySortedBy};
ghost use Rattle.std.specs.Ordering.{nat_cmp};
ghost use Rattle.volume_keeper_records.specs.lemma.Climb.{place_in, stands, steps_of, climbed, through, id_of, EndsAt};

use crate::tree::Place;
use afp_base::OutOfMemory;
use std::alloc::Global;
use volume_spec::limits::ROOT_ID;

pub(crate) fn push<T: Drop>(list: &mut Vec<T>, item: T) -> Result<(), OutOfMemory>
    ensures ok { OnOk result (list.new.items ≡ list.old.items ++ item ∷ []) }
    ensures err { OnErr result (list.new.items ≡ list.old.items) }
{
    match list.push(item) {
        Ok(()) => Ok(()),
        Err(_) => Err(OutOfMemory),
    }
}

/// The place of an id, or the length.
pub(crate) fn place_in_ids(ids: &[u32], id: u32) -> usize
    requires { IsStrictlySortedBy nat_cmp ids.now }
    ensures { result ≡ place_in ids.now id }
{
    match ids.binary_search(&id) {
        Ok(place) => place,
        Err(_) => ids.len(),
    }
}

pub(crate) fn stand(ids: &[u32], id: u32) -> usize
    requires order { IsStrictlySortedBy nat_cmp ids.now }
    requires room { length ids.now < 2 ^ 60 }
    ensures { result ≡ stands ids.now id }
{
    if id == ROOT_ID {
        ids.len() + 1
    } else {
        place_in_ids(ids, id)
    }
}

/// One step from each place.
fn steps(alloc: Global, ids: &[u32], nodes: &[Place]) -> Result<Vec<usize>, OutOfMemory>
    requires order { IsStrictlySortedBy nat_cmp ids.now }
    requires room { length ids.now < 2 ^ 60 }
    ensures { IfOk result (λ steps. steps.items ≡ steps_of ids.now nodes.now) }
{
    let mut steps = Vec::new(alloc);
    for node in nodes {
        let next = if node.is_directory {
            stand(ids, node.parent)
        } else {
            ids.len()
        };
        push(&mut steps, next)?;
    }
    push(&mut steps, ids.len())?;
    push(&mut steps, ids.len() + 1)?;
    Ok(steps)
}

/// The one after the other.
fn follow(alloc: Global, first: &[usize], second: &[usize]) -> Result<Vec<usize>, OutOfMemory>
    requires { All (λ place. place < length second.now) first.now }
    ensures { IfOk result (λ both. both.items ≡ through first.now second.now) }
{
    let mut both = Vec::new(alloc);
    for place in first {
        push(&mut both, second[*place])?;
    }
    Ok(both)
}

/// So many steps at once from each place, by repeated squaring.
fn all_through(alloc: Global, steps: Vec<usize>, count: usize) -> Result<Vec<usize>, OutOfMemory>
    requires { All (λ place. place < length steps.items) steps.items }
    ensures length { IfOk result (λ ends. length ends.items ≡ length steps.items) }
    ensures ends { IfOk result (λ ends. (place : ℕ) → place < length steps.items → slice_index ends.items place ≡ climbed steps.items count place) }
{
    let mut ends = Vec::new(alloc);
    for place in 0..steps.len() {
        push(&mut ends, place)?;
    }
    let mut up = steps;
    let mut left = count;
    while left > 0 {
        if left % 2 == 1 {
            ends = follow(alloc, &ends, &up)?;
        }
        up = follow(alloc, &up, &up)?;
        left /= 2;
    }
    Ok(ends)
}

/// Where the climb from each place ends.
pub(crate) fn ends_of(
    alloc: Global,
    ids: &[u32],
    nodes: &[Place],
) -> Result<Vec<usize>, OutOfMemory>
    requires ids { ids.now ≡ map id_of nodes.now }
    requires order { IsStrictlySortedBy nat_cmp ids.now }
    requires room { length ids.now < 2 ^ 60 }
    ensures { IfOk result (λ ends. EndsAt nodes.now ids.now ends.items) }
{
    let up = steps(alloc, ids, nodes)?;
    let ends = all_through(alloc, up, nodes.len())?;
    Ok(ends)
}
