//! What a change of a fork will do.
ghost use Rattle.std.specs.Prelude.{◌≡◌, ◌<◌, length, slice_index_or, IfOk};

use crate::block::Block;
use crate::fork::copied;
use afp_base::OutOfMemory;
use std::alloc::Global;
use std::marker::Model;

/// What a write, or a new length, will do to a fork: the blocks that differ, as they are afterwards, and the room that they need.
#[derive(Drop)]
pub struct ForkPlan {
    pub(crate) len: u64,
    pub(crate) changes: Vec<Block>,
    pub(crate) writes: bool,
    pub(crate) room: Vec<Block>,
}

impl Model for ForkPlan {
    ghost use Rattle.std.specs.Prelude.{◌≡◌, ◌≤◌, [], vec_capacity};
    ghost use Rattle.afp_base.specs.Limits.{most_fork_bytes};
    ghost use Rattle.fork_bytes.specs.Plan.{ForkPlanState};

    ghost Value = { ForkPlanState };

    ghost view = { λ a. record { len = a.len; changes = a.changes.items; writes = a.writes; room = vec_capacity a.room } };

    ghost invariant = { λ a. (a.room.items ≡ []) × (a.len ≤ most_fork_bytes) };
}

impl ForkPlan {
    /// How many blocks differ.
    pub fn count(&self) -> usize
        ensures { result ≡ length self.now.changes }
    {
        self.changes.len()
    }

    /// The index of the `k`th block that differs, and its bytes afterwards, without the zeros at its end.
    pub fn change(&self, k: usize) -> (u32, &[u8])
        requires { k < length self.now.changes }
        ensures index { (d : Block) → result.0 ≡ (slice_index_or self.now.changes k d).index }
        ensures bytes { (d : Block) → result.1.now ≡ (slice_index_or self.now.changes k d).bytes }
    {
        let block = &self.changes[k];
        (block.index, block.bytes.as_slice())
    }

    /// The blocks that differ, as they are afterwards, copied. The one error is want of memory.
    pub fn blocks(&self, alloc: Global) -> Result<Vec<Block>, OutOfMemory>
        ensures { IfOk result (λ list. list.items ≡ self.now.changes) }
    {
        copied(alloc, self.changes.as_slice())
    }

    /// The fork's length afterwards.
    pub fn len(&self) -> u64
        ensures { result ≡ self.now.len }
    {
        self.len
    }

    /// Whether a byte is written or the length changes.
    pub fn writes(&self) -> bool
        ensures { result ≡ self.now.writes }
    {
        self.writes
    }
}
