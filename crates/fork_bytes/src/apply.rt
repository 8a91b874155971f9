//! Plans carried out.
ghost use Rattle.std.specs.Prelude.{◌≡◌, ◌≤◌, ◌<◌, ◌+◌, ◌++◌, ℕ, true, if◌then◌else◌, List, [], length, take, drop, slice_set, vec_capacity};
ghost use Rattle.fork_bytes.specs.Kept.{are_rising, is_empty};
ghost use Rattle.fork_bytes.specs.lemma.Kept.{in_front, with_put, with_puts, Fits};
ghost use Rattle.fork_bytes.specs.Plan.{IsForkPlan};

use crate::block::Block;
use crate::fork::{Fork, has_at, place_of};
use crate::plan::ForkPlan;

impl Fork {
    /// Carries out a plan of this fork as it is. It takes no memory.
    pub fn apply(&mut self, plan: ForkPlan)
        requires { (after : List ℕ) × IsForkPlan self.old after plan }
        ensures { (after : List ℕ) → IsForkPlan self.old after plan → self.new ≡ after }
    {
        let ForkPlan {
            len,
            changes,
            writes: _,
            room,
        } = plan;
        move_to(&mut self.blocks, room);
        put_all(&mut self.blocks, changes);
        self.len = len;
    }
}

/// Moves blocks to a vector that has no elements, where it has more room.
fn move_to(blocks: &mut Vec<Block>, room: Vec<Block>)
    requires { room.items ≡ [] }
    ensures items { blocks.new.items ≡ blocks.old.items }
    ensures more { vec_capacity blocks.old ≤ vec_capacity blocks.new }
    ensures brought { vec_capacity room ≤ vec_capacity blocks.new }
{
    if blocks.capacity() < room.capacity() {
        let mut moved = room;
        let _ = moved.append(blocks);
        *blocks = moved;
    }
}

/// Puts changes in their places among the blocks, one after the other.
fn put_all(blocks: &mut Vec<Block>, changes: Vec<Block>)
    requires rising { are_rising blocks.old.items ≡ true }
    requires room { Fits (vec_capacity blocks.old) changes.items blocks.old.items }
    ensures items { blocks.new.items ≡ with_puts changes.items blocks.old.items }
    ensures room { vec_capacity blocks.old ≤ vec_capacity blocks.new }
{
    let mut rest = changes;
    rest.reverse();
    for _turn in 0..rest.len() {
        let last = rest.len() - 1;
        put(blocks, rest.remove(last));
    }
}

/// Puts a change in its place among the blocks.
fn put(blocks: &mut Vec<Block>, change: Block)
    requires rising { are_rising blocks.old.items ≡ true }
    requires room { length (with_put change blocks.old.items) ≤ vec_capacity blocks.old }
    ensures items { blocks.new.items ≡ with_put change blocks.old.items }
    ensures room { vec_capacity blocks.old ≤ vec_capacity blocks.new }
{
    let place = place_of(blocks.as_slice(), change.index);
    if has_at(blocks.as_slice(), place, change.index) {
        replace(blocks, place, change);
    } else {
        insert(blocks, place, change);
    }
}

/// Puts a change in place of the block that it changes.
fn replace(blocks: &mut Vec<Block>, place: usize, change: Block)
    requires { place < length blocks.old.items }
    ensures items { blocks.new.items ≡ (if is_empty change.bytes then take place blocks.old.items ++ drop (place + 1) blocks.old.items else slice_set blocks.old.items place change) }
    ensures room { vec_capacity blocks.old ≤ vec_capacity blocks.new }
{
    if change.bytes.as_slice().is_empty() {
        let _ = blocks.remove(place);
    } else {
        blocks[place] = change;
    }
}

/// Puts a change at a place where no block is changed by it.
fn insert(blocks: &mut Vec<Block>, place: usize, change: Block)
    requires within { place ≤ length blocks.old.items }
    requires room { length (in_front change blocks.old.items) ≤ vec_capacity blocks.old }
    ensures items { blocks.new.items ≡ take place blocks.old.items ++ in_front change (drop place blocks.old.items) }
    ensures room { vec_capacity blocks.old ≤ vec_capacity blocks.new }
{
    if !change.bytes.as_slice().is_empty() {
        let _ = blocks.insert(place, change);
    }
}
