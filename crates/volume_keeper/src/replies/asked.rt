//! Values whose bits are asked, and what stands for those that are not.
ghost use Rattle.std.specs.Prelude.{◌≡◌, pos, nat_lt, replicate, true};
ghost use Rattle.volume_spec.specs.Parms.{asked_or};

use afp_bitmap::is_asked;

pub(crate) fn short_or(bits: u16, bit: u32, value: u16) -> u16
    requires { nat_lt bit 16 ≡ true }
    ensures { result ≡ asked_or bits bit 0 value }
{
    if is_asked(bits, bit) { value } else { 0 }
}

pub(crate) fn long_or(bits: u16, bit: u32, value: u32) -> u32
    requires { nat_lt bit 16 ≡ true }
    ensures { result ≡ asked_or bits bit 0 value }
{
    if is_asked(bits, bit) { value } else { 0 }
}

pub(crate) fn wide_or(bits: u16, bit: u32, value: u64) -> u64
    requires { nat_lt bit 16 ≡ true }
    ensures { result ≡ asked_or bits bit 0 value }
{
    if is_asked(bits, bit) { value } else { 0 }
}

pub(crate) fn date_or(bits: u16, bit: u32, value: i32) -> i32
    requires { nat_lt bit 16 ≡ true }
    ensures { result ≡ asked_or bits bit (pos 0) value }
{
    if is_asked(bits, bit) { value } else { 0 }
}

pub(crate) fn finder_or(bits: u16, bit: u32, value: [u8; 32]) -> [u8; 32]
    requires { nat_lt bit 16 ≡ true }
    ensures { result ≡ asked_or bits bit (replicate 32 0) value }
{
    if is_asked(bits, bit) { value } else { [0; 32] }
}
