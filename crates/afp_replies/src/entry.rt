//! The parts of an entry of a list (AFP Reference, "FPEnumerate", "FPEnumerateExt").
ghost use Rattle.std.specs.Prelude.{◌≡◌, ◌++◌, ◌<◌, ◌^◌, ◌+◌, ◌≤◌, drop, length, replicate, take, OnOk, OnErr};
ghost use Rattle.byteorder.specs.Endian.{big_bytes};
ghost use Rattle.afp_replies.specs.Bytes.{flag_of, width};
ghost use Rattle.afp_replies.specs.Entry.{pad_count};

use crate::fields::DIRECTORY_FLAG;
use afp_base::{Bytes, OutOfMemory};

/// The flag of a directory or a file.
pub fn flag_of(dir: bool) -> u8
    ensures { result ≡ flag_of dir }
{
    if dir { DIRECTORY_FLAG } else { 0 }
}

/// Zeros where the length of an entry is to stand, narrow or wide.
/// The one error is want of memory, and it changes nothing.
pub fn put_place(wide: bool, out: &mut Bytes) -> Result<(), OutOfMemory>
    ensures ok { OnOk result (out.new ≡ out.old ++ replicate (width wide) 0) }
    ensures err { OnErr result (out.new ≡ out.old) }
{
    if wide {
        out.push_u16(0)
    } else {
        out.push_u8(0)
    }
}

/// Writes the length of an entry at its place.
pub fn put_length(wide: bool, at: usize, size: usize, out: &mut Bytes)
    requires inside { at + width wide ≤ length out.old }
    requires fits { size < 256 ^ width wide }
    ensures { out.new ≡ take at out.old ++ big_bytes (width wide) size ++ drop (at + width wide) out.old }
{
    if wide {
        out.put_u16(at, size as u16);
    } else {
        out.put(at, &[size as u8]);
    }
}

/// The pad behind the flag of an entry, in a wide list. The one error is want of memory, and it changes nothing.
pub fn put_entry_pad(wide: bool, out: &mut Bytes) -> Result<(), OutOfMemory>
    ensures ok { OnOk result (out.new ≡ out.old ++ replicate (pad_count wide) 0) }
    ensures err { OnErr result (out.new ≡ out.old) }
{
    if wide { out.push_u8(0) } else { Ok(()) }
}
