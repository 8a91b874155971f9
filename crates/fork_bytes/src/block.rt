//! Blocks, and their bytes without the zeros at the end.
ghost use Rattle.std.specs.Prelude.{◌≡◌, ◌≤◌, length, take, drop, replicate, IfOk};
ghost use Rattle.afp_base.specs.Limits.{block_size};
ghost use Rattle.fork_bytes.specs.Blocks.{trimmed};

use afp_base::{Bytes, OutOfMemory};

/// The bytes of a block (this profile).
pub const BLOCK_SIZE: usize = 4096;

/// A block of a fork: its index, counted in blocks from the fork's start, and its bytes without the zeros at its end.
#[derive(Drop)]
pub struct Block {
    pub index: u32,
    pub bytes: Bytes,
}

impl Block {
    /// The same block once more.
    pub(crate) fn copy(&self) -> Result<Block, OutOfMemory>
        ensures { IfOk result (λ b. b ≡ self.now) }
    {
        let bytes = self.bytes.copy()?;
        Ok(Block {
            index: self.index,
            bytes,
        })
    }
}

/// How many bytes are left without the zeros at the end.
pub(crate) fn trimmed_len(bytes: &[u8]) -> usize
    ensures within { result ≤ length bytes.now }
    ensures trims { take result bytes.now ≡ trimmed bytes.now }
{
    for i in 0..bytes.len() {
        let len = bytes.len() - i;
        if bytes[len - 1] != 0 {
            return len;
        }
    }
    0
}

/// The first bytes, all where there are fewer.
pub(crate) fn front_of(bytes: &[u8], n: usize) -> &[u8]
    ensures { result.now ≡ take n bytes.now }
{
    &bytes[..n.min(bytes.len())]
}

/// A block of zeros.
const ZEROS: [u8; BLOCK_SIZE] = [0; BLOCK_SIZE];

/// So many zeros, at most a block of them.
pub(crate) fn zeros(n: usize) -> &'static [u8]
    requires { n ≤ block_size }
    ensures { result.now ≡ replicate n 0 }
{
    &ZEROS[..n]
}
