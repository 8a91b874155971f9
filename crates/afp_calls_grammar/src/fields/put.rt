//! The canonical bytes of the fields of a request, one after the other. The one error is want of memory. It changes nothing.
ghost use Rattle.std.specs.Prelude.{◌≡◌, ◌<◌, ◌≤◌, ◌^◌, ◌++◌, length, OnOk, OnErr};
ghost use Rattle.afp_calls_grammar.specs.grammar.Words.{IsNumberIn, command, literal, pad, last_pad, even, u8, u16, u32, count_in, optional_bytes, i32, i64, str, counted_field};
ghost use Rattle.afp_calls_grammar.specs.fields.Putting.{Puts, PutsIn};

use afp_base::{Bytes, OutOfMemory};
use byteorder::{BigEndian, ByteOrder};

/// The number of the command.
pub fn put_command(out: &mut Bytes, number: u8) -> Result<(), OutOfMemory>
    ensures put { OnOk result (Puts (command number) out.old out.new) }
    ensures err { OnErr result (out.new ≡ out.old) }
{
    out.push_u8(number)
}

/// A byte that each request of a sort has.
pub fn put_literal(out: &mut Bytes, byte: u8) -> Result<(), OutOfMemory>
    ensures put { OnOk result (Puts (literal byte) out.old out.new) }
    ensures err { OnErr result (out.new ≡ out.old) }
{
    out.extend(&[byte])
}

/// A pad byte.
pub fn put_pad(out: &mut Bytes) -> Result<(), OutOfMemory>
    ensures pad { OnOk result (Puts pad out.old out.new) }
    ensures last { OnOk result (Puts last_pad out.old out.new) }
    ensures err { OnErr result (out.new ≡ out.old) }
{
    out.extend(&[0])
}

/// A pad byte, where the place in the block is odd. The block begins at `start` of these bytes.
pub fn put_even(out: &mut Bytes, start: usize) -> Result<(), OutOfMemory>
    requires { start ≤ length out.old }
    ensures put { OnOk result (PutsIn start even out.old out.new) }
    ensures err { OnErr result (out.new ≡ out.old) }
{
    if (out.as_slice().len() - start) % 2 == 1 {
        return out.extend(&[0]);
    }
    Ok(())
}

/// A byte.
pub fn put_u8(out: &mut Bytes, number: u8) -> Result<(), OutOfMemory>
    ensures put { OnOk result (Puts (u8 number) out.old out.new) }
    ensures err { OnErr result (out.new ≡ out.old) }
{
    out.push_u8(number)
}

/// A number of 2 bytes.
pub fn put_u16(out: &mut Bytes, number: u16) -> Result<(), OutOfMemory>
    ensures put { OnOk result (Puts (u16 number) out.old out.new) }
    ensures err { OnErr result (out.new ≡ out.old) }
{
    out.push_u16(number)
}

/// A number of 4 bytes.
pub fn put_u32(out: &mut Bytes, number: u32) -> Result<(), OutOfMemory>
    ensures put { OnOk result (Puts (u32 number) out.old out.new) }
    ensures err { OnErr result (out.new ≡ out.old) }
{
    out.push_u32(number)
}

/// A count, in 4 bytes, of what stands further on.
pub fn put_count(out: &mut Bytes, size: usize) -> Result<(), OutOfMemory>
    requires { size < 256 ^ 4 }
    ensures put { OnOk result (Puts (count_in 4 size) out.old out.new) }
    ensures err { OnErr result (out.new ≡ out.old) }
{
    out.push_u32(size as u32)
}

/// A number of 4 bytes, where it is there.
pub fn put_optional(out: &mut Bytes, number: Option<u32>) -> Result<(), OutOfMemory>
    ensures typed { OnOk result (IsNumberIn 4 number) }
    ensures bytes { OnOk result (out.new ≡ out.old ++ optional_bytes 4 number) }
    ensures err { OnErr result (out.new ≡ out.old) }
{
    match number {
        None => Ok(()),
        Some(number) => put_u32(out, number),
    }
}

/// A signed number of 4 bytes.
pub fn put_i32(out: &mut Bytes, number: i32) -> Result<(), OutOfMemory>
    ensures put { OnOk result (Puts (i32 number) out.old out.new) }
    ensures err { OnErr result (out.new ≡ out.old) }
{
    out.push_u32(number.cast_unsigned())
}

/// A signed number of 8 bytes.
pub fn put_i64(out: &mut Bytes, number: i64) -> Result<(), OutOfMemory>
    ensures put { OnOk result (Puts (i64 number) out.old out.new) }
    ensures err { OnErr result (out.new ≡ out.old) }
{
    out.push_u64(number.cast_unsigned())
}

/// Bytes behind their count of one byte.
pub fn put_str(out: &mut Bytes, text: &[u8]) -> Result<(), OutOfMemory>
    requires { length text.now < 256 }
    ensures put { OnOk result (Puts (str text.now) out.old out.new) }
    ensures err { OnErr result (out.new ≡ out.old) }
{
    put_counted(out, &[text.len() as u8], text)
}

/// Bytes behind their count of 2 bytes.
pub fn put_text(out: &mut Bytes, text: &[u8]) -> Result<(), OutOfMemory>
    requires { length text.now < 256 ^ 2 }
    ensures put { OnOk result (Puts (counted_field 2 text.now) out.old out.new) }
    ensures err { OnErr result (out.new ≡ out.old) }
{
    let mut bytes = [0; 2];
    BigEndian::write_u16(&mut bytes, text.len() as u16);
    put_counted(out, &bytes, text)
}

/// Bytes behind their count of 4 bytes.
pub fn put_long_text(out: &mut Bytes, text: &[u8]) -> Result<(), OutOfMemory>
    requires { length text.now < 256 ^ 4 }
    ensures put { OnOk result (Puts (counted_field 4 text.now) out.old out.new) }
    ensures err { OnErr result (out.new ≡ out.old) }
{
    let mut bytes = [0; 4];
    BigEndian::write_u32(&mut bytes, text.len() as u32);
    put_counted(out, &bytes, text)
}

/// So many bytes, or all that remain.
pub fn put_bytes(out: &mut Bytes, bytes: &[u8]) -> Result<(), OutOfMemory>
    ensures put { OnOk result (out.new ≡ out.old ++ bytes.now) }
    ensures err { OnErr result (out.new ≡ out.old) }
{
    out.extend(bytes)
}

/// A text behind its count.
fn put_counted(out: &mut Bytes, count: &[u8], text: &[u8]) -> Result<(), OutOfMemory>
    ensures put { OnOk result (out.new ≡ out.old ++ (count.now ++ text.now)) }
    ensures err { OnErr result (out.new ≡ out.old) }
{
    let before = out.as_slice().len();
    out.extend(count)?;
    match out.extend(text) {
        Ok(()) => Ok(()),
        Err(error) => {
            out.truncate(before);
            Err(error)
        }
    }
}
