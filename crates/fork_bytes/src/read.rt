//! Reading from a fork.
ghost use Rattle.std.specs.Prelude.{◌≡◌, ◌≢◌, ◌≤◌, ◌<◌, ◌+◌, ◌-◌, ◌*◌, ◌/◌, ◌++◌, ℕ, min, length, take, bit_and, slice_index, OnOk, OnErr, IfOk, IfSome, IfNone};
ghost use Rattle.afp_base.specs.ForkBytes.{taken};
ghost use Rattle.afp_base.specs.Limits.{most_fork_bytes, block_size};
ghost use Rattle.fork_bytes.specs.Line.{line_of};

use crate::block::{BLOCK_SIZE, front_of, zeros};
use crate::fork::Fork;
use afp_base::{Bytes, OutOfMemory, rest_of};

impl Fork {
    /// Appends the at most `count` bytes from `from` on. An error changes nothing.
    pub fn read(&self, from: u64, count: u32, out: &mut Bytes) -> Result<(), OutOfMemory>
        ensures ok { OnOk result (out.new ≡ out.old ++ taken self.now from count) }
        ensures err { OnErr result (out.new ≡ out.old) }
    {
        if from >= self.len {
            return Ok(());
        }
        let start = out.as_slice().len();
        match self.read_blocks(from, self.end_of(from, count), out) {
            Ok(()) => Ok(()),
            Err(OutOfMemory) => {
                out.truncate(start);
                Err(OutOfMemory)
            }
        }
    }

    /// Appends bytes as `read` does, up to the first whose value under the mask is `end`, that one included. Whether it stopped at one.
    /// An error changes nothing.
    pub fn read_line(
        &self,
        from: u64,
        count: u32,
        mask: u8,
        end: u8,
        out: &mut Bytes,
    ) -> Result<bool, OutOfMemory>
        ensures stopped { IfOk result (λ stopped. stopped ≡ (line_of mask end (taken self.now from count)).stopped) }
        ensures ok { OnOk result (out.new ≡ out.old ++ (line_of mask end (taken self.now from count)).bytes) }
        ensures err { OnErr result (out.new ≡ out.old) }
    {
        if from >= self.len {
            return Ok(false);
        }
        let start = out.as_slice().len();
        match self.read_lines(from, self.end_of(from, count), mask, end, out) {
            Ok(stopped) => Ok(stopped),
            Err(OutOfMemory) => {
                out.truncate(start);
                Err(OutOfMemory)
            }
        }
    }

    /// Where a read of `count` bytes from `from` on ends.
    fn end_of(&self, from: u64, count: u32) -> u64
        requires { from < length self.now }
        ensures { result ≡ from + min count (length self.now - from) }
    {
        from + (self.len - from).min(u64::from(count))
    }

    /// Appends the bytes from `from` to `end`. After an error what stood there is at the front.
    fn read_blocks(&self, from: u64, end: u64, out: &mut Bytes) -> Result<(), OutOfMemory>
        requires order { from ≤ end }
        requires within { end ≤ length self.now }
        requires few { end ≤ most_fork_bytes }
        ensures ok { OnOk result (out.new ≡ out.old ++ taken self.now from (end - from)) }
        ensures err { OnErr result (take (length out.old) out.new ≡ out.old) }
    {
        let mut at = from;
        while at < end {
            let stop = next_block(at).min(end);
            self.read_in_block(at, stop, out)?;
            at = stop;
        }
        Ok(())
    }

    /// Appends the bytes from `from` to `end`, up to one whose value under the mask is `character`. After an error what stood there is at
    /// the front.
    fn read_lines(
        &self,
        from: u64,
        end: u64,
        mask: u8,
        character: u8,
        out: &mut Bytes,
    ) -> Result<bool, OutOfMemory>
        requires order { from ≤ end }
        requires within { end ≤ length self.now }
        requires few { end ≤ most_fork_bytes }
        ensures stopped { IfOk result (λ stopped. stopped ≡ (line_of mask character (taken self.now from (end - from))).stopped) }
        ensures ok { OnOk result (out.new ≡ out.old ++ (line_of mask character (taken self.now from (end - from))).bytes) }
        ensures err { OnErr result (take (length out.old) out.new ≡ out.old) }
    {
        let mut at = from;
        while at < end {
            let stop = next_block(at).min(end);
            let start = out.as_slice().len();
            self.read_in_block(at, stop, out)?;
            if let Some(k) = end_in(rest_of(out.as_slice(), start), mask, character) {
                out.truncate(start + k + 1);
                return Ok(true);
            }
            at = stop;
        }
        Ok(false)
    }

    /// Appends bytes of one block. After an error what stood there is at the front.
    fn read_in_block(&self, from: u64, end: u64, out: &mut Bytes) -> Result<(), OutOfMemory>
        requires order { from < end }
        requires within { end ≤ length self.now }
        requires few { end ≤ most_fork_bytes }
        requires one_block { end ≤ block_size * (from / block_size + 1) }
        ensures ok { OnOk result (out.new ≡ out.old ++ taken self.now from (end - from)) }
        ensures err { OnErr result (take (length out.old) out.new ≡ out.old) }
    {
        let index = from / BLOCK_SIZE as u64;
        let low = (from - BLOCK_SIZE as u64 * index) as usize;
        let part = front_of(
            rest_of(self.block(index as u32), low),
            (end - from) as usize,
        );
        out.extend(part)?;
        out.extend(zeros((end - from) as usize - part.len()))
    }
}

/// The start of the next block.
fn next_block(at: u64) -> u64
    requires { at ≤ most_fork_bytes }
    ensures { result ≡ block_size * (at / block_size + 1) }
{
    (at / BLOCK_SIZE as u64 + 1) * BLOCK_SIZE as u64
}

/// The place of the first byte whose value under the mask is `end`.
fn end_in(bytes: &[u8], mask: u8, end: u8) -> Option<usize>
    ensures none { IfNone result ((k : ℕ) → k < length bytes.now → bit_and (slice_index bytes.now k) mask ≢ end) }
    ensures within { IfSome result (λ place. place < length bytes.now) }
    ensures is { IfSome result (λ place. bit_and (slice_index bytes.now place) mask ≡ end) }
    ensures first { IfSome result (λ place. (k : ℕ) → k < place → bit_and (slice_index bytes.now k) mask ≢ end) }
{
    for i in 0..bytes.len() {
        if bytes[i] & mask == end {
            return Some(i);
        }
    }
    None
}
