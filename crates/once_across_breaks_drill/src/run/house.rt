//! The house of a drill.
ghost use Rattle.std.specs.Prelude.{◌≡◌, IfOk};
ghost use Rattle.once_across_breaks_drill.specs.steps.Drilling.{house};

use afp_base::{Bytes, OutOfMemory};
use afp_serial::House;
use std::alloc::Global;
use std::vec::Vec;

/// The server's signature: that of the examples.
const SIGNATURE: [u8; 16] = [0, 1, 2, 3, 4, 5, 6, 7, 8, 9, 10, 11, 12, 13, 14, 15];

/// The house: no user, and one volume. The one error is want of memory.
pub(crate) fn new_house(alloc: Global) -> Result<House, OutOfMemory>
    ensures { IfOk result (λ h. h ≡ house) }
{
    let mut volumes = Vec::new(alloc);
    volumes.push(Bytes::of(alloc, b"Share")?)?;
    match House::new(
        alloc,
        "Mac",
        SIGNATURE,
        Vec::new(alloc),
        volumes,
        "",
        [0; 32],
    ) {
        Ok(house) => Ok(house),
        Err(_) => Err(OutOfMemory),
    }
}
