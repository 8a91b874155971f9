//! Names whose bits are asked.
ghost use Rattle.std.specs.Prelude.{◌≡◌, ◌<◌, [], IfOk, length, nat_lt, true};
ghost use Rattle.volume_spec.specs.Parms.{asked_or};

use afp_base::{Bytes, OutOfMemory};
use afp_bitmap::is_asked;
use afp_names::Name;
use std::alloc::Global;

/// A name in UTF-8, where it is asked.
pub(crate) fn name_or(alloc: Global, bits: u16, bit: u32, name: &Name) -> Result<Bytes, OutOfMemory>
    requires { nat_lt bit 16 ≡ true }
    ensures name { IfOk result (λ bytes. bytes ≡ asked_or bits bit [] name.now) }
    ensures short { IfOk result (λ bytes. length bytes < 256) }
{
    if is_asked(bits, bit) {
        Bytes::of(alloc, name.as_str().as_bytes())
    } else {
        Ok(Bytes::new(alloc))
    }
}
