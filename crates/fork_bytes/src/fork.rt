//! A fork.
ghost use Rattle.std.specs.Prelude.{◌≡◌, ◌≢◌, ◌≤◌, ◌<◌, ◌+◌, ◌^◌, true, false, [], length, slice_index_or, vec_capacity, IfOk};
ghost use Rattle.fork_bytes.specs.Blocks.{block_at, blocks_of};
ghost use Rattle.fork_bytes.specs.Kept.{are_rising, room_of};
ghost use Rattle.fork_bytes.specs.lemma.Kept.{IsPlace};

use crate::block::Block;
use afp_base::OutOfMemory;
use std::alloc::Global;
use std::marker::Model;

/// A fork's bytes, at most `MOST_FORK_BYTES`. Contracts see them as a list of bytes.
#[derive(Drop)]
pub struct Fork {
    pub(crate) len: u64,
    pub(crate) blocks: Vec<Block>,
}

impl Model for Fork {
    ghost use Rattle.std.specs.Prelude.{List, ℕ, vec_capacity};
    ghost use Rattle.fork_bytes.specs.Kept.{bytes_of};
    ghost use Rattle.fork_bytes.specs.lemma.Kept.{IsForkKept};

    ghost Value = { List ℕ };

    ghost view = { λ a. bytes_of a.len a.blocks.items };

    ghost invariant = { λ a. IsForkKept a.len a.blocks.items (vec_capacity a.blocks) };
}

impl Fork {
    /// A fork of no bytes. It takes no memory.
    pub fn new(alloc: Global) -> Fork
        ensures { result ≡ [] }
    {
        Fork {
            len: 0,
            blocks: Vec::new(alloc),
        }
    }

    /// How many bytes there are.
    pub fn len(&self) -> u64
        ensures { result ≡ length self.now }
    {
        self.len
    }

    /// The blocks that are not all zeros, by rising index, lent: each with its bytes without the zeros at its end.
    pub fn blocks(&self) -> &[Block]
        ensures { result.now ≡ blocks_of self.now }
    {
        self.blocks.as_slice()
    }

    /// The same bytes once more. The one error is want of memory.
    pub fn copy(&self, alloc: Global) -> Result<Fork, OutOfMemory>
        ensures { IfOk result (λ f. f ≡ self.now) }
    {
        let blocks = copied(alloc, self.blocks.as_slice())?;
        Ok(Fork {
            len: self.len,
            blocks,
        })
    }

    /// The bytes of a block, without the zeros at its end.
    pub(crate) fn block(&self, index: u32) -> &[u8]
        ensures { result.now ≡ block_at self.now index }
    {
        let blocks = self.blocks.as_slice();
        let place = place_of(blocks, index);
        if has_at(blocks, place, index) {
            blocks[place].bytes.as_slice()
        } else {
            &[]
        }
    }
}

/// How many of the blocks have an index below this one, where indexes rise. In a fork without a block of zeros that is the
/// index itself, and nothing is looked for.
pub(crate) fn place_of(blocks: &[Block], index: u32) -> usize
    ensures within { result ≤ length blocks.now }
    ensures place { are_rising blocks.now ≡ true → IsPlace blocks.now index result }
{
    if has_at(blocks, index as usize, index) {
        return index as usize;
    }
    place_among(blocks, index)
}

/// The same, by halving.
fn place_among(blocks: &[Block], index: u32) -> usize
    ensures within { result ≤ length blocks.now }
    ensures place { are_rising blocks.now ≡ true → IsPlace blocks.now index result }
{
    blocks.partition_point(|block| block.index < index)
}

/// Whether the block at a place has an index.
pub(crate) fn has_at(blocks: &[Block], place: usize, index: u32) -> bool
    ensures within { result ≡ true → place < length blocks.now }
    ensures found { result ≡ true → (d : Block) → (slice_index_or blocks.now place d).index ≡ index }
    ensures missed { result ≡ false → (d : Block) → place < length blocks.now → (slice_index_or blocks.now place d).index ≢ index }
{
    if place < blocks.len() {
        blocks[place].index == index
    } else {
        false
    }
}

/// For how many blocks there is room where so many are kept.
pub(crate) fn room_for(n: usize) -> usize
    requires { n < 2 ^ 63 + 65537 }
    ensures { result ≡ room_of n }
{
    if n < 64 { n } else { 256 * ((n + 255) / 256) }
}

/// The same blocks once more, with room.
pub(crate) fn copied(alloc: Global, blocks: &[Block]) -> Result<Vec<Block>, OutOfMemory>
    ensures items { IfOk result (λ list. list.items ≡ blocks.now) }
    ensures room { IfOk result (λ list. room_of (length blocks.now) ≤ vec_capacity list) }
{
    let mut list = Vec::new(alloc);
    list.reserve(room_for(blocks.len()))?;
    for block in blocks {
        list.push(block.copy()?)?;
    }
    Ok(list)
}
