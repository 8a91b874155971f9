//! Bytes under way.
ghost use Rattle.std.specs.Prelude.{◌≡◌, ◌≤◌, length, drop, min, OnOk};

use afp_base::{Bytes, OutOfMemory};
use std::alloc::Global;

/// Takes away the first `size` bytes. The one error is want of memory.
pub(crate) fn take_away(alloc: Global, bytes: &mut Bytes, size: usize) -> Result<(), OutOfMemory>
    requires { size ≤ length bytes.old }
    ensures { OnOk result (bytes.new ≡ drop size bytes.old) }
{
    let rest = Bytes::of(alloc, &bytes.as_slice()[size..])?;
    *bytes = rest;
    Ok(())
}

/// How many of so many bytes move, where at most `most` do.
pub(crate) fn moved(bytes: &Bytes, most: u32) -> usize
    ensures { result ≡ min (length bytes.now) most }
{
    bytes.as_slice().len().min(most as usize)
}
