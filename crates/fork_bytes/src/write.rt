//! Plans of writes and of new lengths.
ghost use Rattle.std.specs.Prelude.{◌≡◌, ◌+◌, ◌/◌, ◌≤◌, ◌<◌, ◌==◌, ◌++◌, not, [], length, take, nat_eq, if◌then◌else◌, IfOk, OnOk};
ghost use Rattle.std.specs.Cmp.Lexicographic.{pointwise};
ghost use Rattle.afp_base.specs.ForkBytes.{splice, resized};
ghost use Rattle.afp_base.specs.Limits.{most_fork_bytes, block_size};
ghost use Rattle.fork_bytes.specs.Blocks.{trimmed, block_count, blocks_of};
ghost use Rattle.fork_bytes.specs.Kept.{is_empty};
ghost use Rattle.fork_bytes.specs.Plan.{IsForkPlan, HasRoom, added_by, changes_of, with_change};

use crate::block::{BLOCK_SIZE, Block, front_of, trimmed_len, zeros};
use crate::fork::{Fork, room_for};
use crate::plan::ForkPlan;
use afp_base::laws::{resizing_keeps_the_front, splice_puts_between};
use afp_base::{Bytes, OutOfMemory, rest_of};
use std::alloc::Global;

/// Changes that are gathered block by block, and how many of them are blocks that were all zeros and are not afterwards.
#[derive(Drop)]
struct Changes {
    list: Vec<Block>,
    added: usize,
}

impl Fork {
    /// The plan of a write of `piece` at `from`; a gap before it is filled with zeros, and a piece of no bytes changes nothing. The one error is want
    /// of memory.
    pub fn plan_write(
        &self,
        alloc: Global,
        from: u64,
        piece: &[u8],
    ) -> Result<ForkPlan, OutOfMemory>
        requires { from + length piece.now ≤ most_fork_bytes }
        ensures plan { IfOk result (λ p. IsForkPlan self.now (splice self.now from piece.now) p) }
        ensures writes { IfOk result (λ p. p.writes ≡ not (is_empty piece.now)) }
    {
        splice_puts_between();
        if piece.is_empty() {
            return self.planned(alloc, self.len, Changes::new(alloc), false);
        }
        let end = from + piece.len() as u64;
        let changes = self.written(alloc, from, end, piece)?;
        self.planned(alloc, self.len.max(end), changes, true)
    }

    /// The plan of a new length: bytes behind it go, and new bytes are zeros. The one error is want of memory.
    pub fn plan_set_length(&self, alloc: Global, len: u64) -> Result<ForkPlan, OutOfMemory>
        requires { len ≤ most_fork_bytes }
        ensures plan { IfOk result (λ p. IsForkPlan self.now (resized self.now len) p) }
        ensures writes { IfOk result (λ p. p.writes ≡ not (len == length self.now)) }
    {
        let changes = self.cut(alloc, len)?;
        self.planned(alloc, len, changes, len != self.len)
    }

    /// The changes of a write.
    fn written(
        &self,
        alloc: Global,
        from: u64,
        end: u64,
        piece: &[u8],
    ) -> Result<Changes, OutOfMemory>
        requires some { 0 < length piece.now }
        requires ends { end ≡ from + length piece.now }
        requires few { end ≤ most_fork_bytes }
        ensures changes { IfOk result (λ c. c.list.items ≡ changes_of self.now (splice self.now from piece.now)) }
        ensures added { IfOk result (λ c. c.added ≡ added_by self.now c.list.items) }
        ensures few { IfOk result (λ c. c.added ≤ 65536) }
    {
        splice_puts_between();
        let mut changes = Changes::new(alloc);
        for index in block_of(from)..block_of(end - 1) + 1 {
            let at = u64::from(index) * BLOCK_SIZE as u64;
            let low = from.max(at);
            let high = end.min(at + BLOCK_SIZE as u64);
            let part = front_of(rest_of(piece, (low - from) as usize), (high - low) as usize);
            let old = self.block(index);
            let new = spliced(alloc, old, (low - at) as usize, part)?;
            changes.note(index, old, new)?;
        }
        Ok(changes)
    }

    /// The changes of a new length.
    fn cut(&self, alloc: Global, len: u64) -> Result<Changes, OutOfMemory>
        requires { len ≤ most_fork_bytes }
        ensures changes { IfOk result (λ c. c.list.items ≡ changes_of self.now (resized self.now len)) }
        ensures added { IfOk result (λ c. c.added ≡ added_by self.now c.list.items) }
        ensures few { IfOk result (λ c. c.added ≤ 65536) }
    {
        resizing_keeps_the_front();
        if self.len <= len {
            return Ok(Changes::new(alloc));
        }
        self.cut_blocks(alloc, len, self.len)
    }

    /// The changes of a length below that of the fork.
    fn cut_blocks(&self, alloc: Global, len: u64, end: u64) -> Result<Changes, OutOfMemory>
        requires shorter { len < length self.now }
        requires end { end ≡ length self.now }
        requires few { end ≤ most_fork_bytes }
        ensures changes { IfOk result (λ c. c.list.items ≡ changes_of self.now (resized self.now len)) }
        ensures added { IfOk result (λ c. c.added ≡ added_by self.now c.list.items) }
        ensures few { IfOk result (λ c. c.added ≤ 65536) }
    {
        resizing_keeps_the_front();
        let mut changes = Changes::new(alloc);
        for index in block_of(len)..block_of(end - 1) + 1 {
            let at = u64::from(index) * BLOCK_SIZE as u64;
            let old = self.block(index);
            let new = front(alloc, old, len.saturating_sub(at) as usize)?;
            changes.note(index, old, new)?;
        }
        Ok(changes)
    }

    /// The plan of these changes, with the room that they need.
    fn planned(
        &self,
        alloc: Global,
        len: u64,
        changes: Changes,
        writes: bool,
    ) -> Result<ForkPlan, OutOfMemory>
        requires added { changes.added ≤ 65536 }
        requires few { len ≤ most_fork_bytes }
        ensures len { IfOk result (λ p. p.len ≡ len) }
        ensures changes { IfOk result (λ p. p.changes ≡ changes.list.items) }
        ensures writes { IfOk result (λ p. p.writes ≡ writes) }
        ensures room { IfOk result (λ p. HasRoom (length (blocks_of self.now)) changes.added p.room) }
    {
        let kept = self.blocks.len();
        let mut room = Vec::new(alloc);
        if room_for(kept) < kept + changes.added {
            room.reserve(room_for(kept + changes.added))?;
        }
        Ok(ForkPlan {
            len,
            changes: changes.list,
            writes,
            room,
        })
    }
}

/// How many blocks so many bytes reach into.
fn blocks_for(len: u64) -> u32
    requires { len ≤ most_fork_bytes }
    ensures { result ≡ block_count len }
{
    ((len + 4095) / BLOCK_SIZE as u64) as u32
}

impl Fork {
    /// The blocks that differ between this fork and another, by rising index, as they are in the other: what changes where this one's bytes
    /// become the other's. A fork of no bytes stands for one that is not there. The one error is want of memory.
    pub fn differing(&self, alloc: Global, other: &Fork) -> Result<Vec<Block>, OutOfMemory>
        ensures { IfOk result (λ list. list.items ≡ changes_of self.now other.now) }
    {
        let mut changes = Changes::new(alloc);
        for index in 0..blocks_for(self.len.max(other.len)) {
            changes.note_copy(alloc, index, self.block(index), other.block(index))?;
        }
        Ok(changes.list)
    }
}

impl Changes {
    fn new(alloc: Global) -> Changes
        ensures list { result.list.items ≡ [] }
        ensures added { result.added ≡ 0 }
    {
        Changes {
            list: Vec::new(alloc),
            added: 0,
        }
    }

    /// Adds a block's new bytes, where they differ from the old ones.
    fn note(&mut self, index: u32, old: &[u8], new: Bytes) -> Result<(), OutOfMemory>
        requires { self.old.added ≤ 65536 }
        ensures list { OnOk result (self.new.list.items ≡ self.old.list.items ++ with_change index old.now new []) }
        ensures added { OnOk result (self.new.added ≡ self.old.added + (if pointwise nat_eq old.now new then 0 else (if is_empty old.now then 1 else 0))) }
    {
        if old == new.as_slice() {
            return Ok(());
        }
        let is_added = old.is_empty();
        self.list.push(Block { index, bytes: new })?;
        if is_added {
            self.added += 1;
        }
        Ok(())
    }
}

impl Changes {
    /// Adds a copy of a block's new bytes, where they differ from the old ones.
    fn note_copy(
        &mut self,
        alloc: Global,
        index: u32,
        old: &[u8],
        new: &[u8],
    ) -> Result<(), OutOfMemory>
        requires { self.old.added ≤ 65536 }
        ensures list { OnOk result (self.new.list.items ≡ self.old.list.items ++ with_change index old.now new.now []) }
        ensures added { OnOk result (self.new.added ≡ self.old.added + (if pointwise nat_eq old.now new.now then 0 else (if is_empty old.now then 1 else 0))) }
    {
        if old == new {
            return Ok(());
        }
        let copy = Bytes::of(alloc, new)?;
        self.note(index, old, copy)
    }
}

/// The index of the block in which a byte stands.
fn block_of(at: u64) -> u32
    requires { at < most_fork_bytes + block_size }
    ensures { result ≡ at / block_size }
{
    (at / BLOCK_SIZE as u64) as u32
}

/// A block with a part of it written, without the zeros at its end.
fn spliced(alloc: Global, old: &[u8], low: usize, part: &[u8]) -> Result<Bytes, OutOfMemory>
    requires block { length old.now ≤ block_size }
    requires some { 0 < length part.now }
    requires within { low + length part.now ≤ block_size }
    ensures { IfOk result (λ new. new ≡ trimmed (splice old.now low part.now)) }
{
    let front = front_of(old, low);
    let gap = zeros(low - front.len());
    let mut new = joined(alloc, front, gap, part, rest_of(old, low + part.len()))?;
    let len = trimmed_len(new.as_slice());
    new.truncate(len);
    Ok(new)
}

/// Four pieces, one behind the other.
fn joined(
    alloc: Global,
    front: &[u8],
    zeros: &[u8],
    part: &[u8],
    behind: &[u8],
) -> Result<Bytes, OutOfMemory>
    ensures { IfOk result (λ bytes. bytes ≡ front.now ++ zeros.now ++ part.now ++ behind.now) }
{
    let size = front
        .len()
        .saturating_add(zeros.len())
        .saturating_add(part.len())
        .saturating_add(behind.len());
    let mut bytes = Bytes::with_room(alloc, size)?;
    bytes.extend(front)?;
    bytes.extend(zeros)?;
    bytes.extend(part)?;
    bytes.extend(behind)?;
    Ok(bytes)
}

/// The front of a block, without the zeros at its end.
fn front(alloc: Global, old: &[u8], keep: usize) -> Result<Bytes, OutOfMemory>
    ensures { IfOk result (λ new. new ≡ trimmed (take keep old.now)) }
{
    let kept = front_of(old, keep);
    let mut new = Bytes::new(alloc);
    new.extend(&kept[..trimmed_len(kept)])?;
    Ok(new)
}
