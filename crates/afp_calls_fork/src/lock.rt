//! The requests about byte-range locks (AFP Reference, "Fork Commands").

ghost use Rattle.std.specs.Prelude.{length, OnOk, OnErr};
ghost use Rattle.afp_calls_grammar.specs.grammar.Lock.{byte_range_lock, byte_range_lock_reader, byte_range_lock_ext, byte_range_lock_ext_reader};
ghost use Rattle.afp_calls_grammar.specs.fields.lemma.Taking.{Gives};
ghost use Rattle.afp_base.specs.Appended.{Keeps};
ghost use Rattle.afp_calls_grammar.specs.fields.Putting.{PutsAll};

use afp_base::{Bytes, ForkRef, OutOfMemory};
use afp_calls_grammar::grammar::commands::{BYTE_RANGE_LOCK, BYTE_RANGE_LOCK_EXT};
use afp_calls_grammar::{Call, Fields, ReadFault, put_command, put_i32, put_i64, put_u8, put_u16};

/// Reads 1 FPByteRangeLock: flags (1; bit 0 unlocks, bit 7 counts from the fork's end), open fork
/// reference number (2), offset (4, signed), length (4, signed).
pub(crate) fn read_byte_range_lock<'a>(fields: &mut Fields<'a>) -> Result<Call<'a>, ReadFault>
    ensures { Gives byte_range_lock_reader fields.old result }
{
    let flags = fields.u8()?;
    let reference = ForkRef(fields.u16()?);
    let offset = fields.i32()?;
    let length = fields.i32()?;
    fields.alone()?;
    Ok(Call::ByteRangeLock {
        flags,
        reference,
        offset,
        length,
    })
}

/// Writes FPByteRangeLock: 1 and these fields.
pub(crate) fn write_byte_range_lock(
    out: &mut Bytes,
    flags: u8,
    reference: ForkRef,
    offset: i32,
    length: i32,
) -> Result<(), OutOfMemory>
    ensures put { OnOk result
        (PutsAll (byte_range_lock flags reference offset length).fields out.old out.new) }
    ensures err { OnErr result (Keeps out.old out.new) }
{
    put_command(out, BYTE_RANGE_LOCK)?;
    put_u8(out, flags)?;
    put_u16(out, reference.0)?;
    put_i32(out, offset)?;
    put_i32(out, length)
}

/// Reads 59 FPByteRangeLockExt: flags (1; bit 0 unlocks, bit 7 counts from the fork's end), open
/// fork reference number (2), offset (8, signed), length (8, signed).
pub(crate) fn read_byte_range_lock_ext<'a>(fields: &mut Fields<'a>) -> Result<Call<'a>, ReadFault>
    ensures { Gives byte_range_lock_ext_reader fields.old result }
{
    let flags = fields.u8()?;
    let reference = ForkRef(fields.u16()?);
    let offset = fields.i64()?;
    let length = fields.i64()?;
    fields.alone()?;
    Ok(Call::ByteRangeLockExt {
        flags,
        reference,
        offset,
        length,
    })
}

/// Writes FPByteRangeLockExt: 59 and these fields.
pub(crate) fn write_byte_range_lock_ext(
    out: &mut Bytes,
    flags: u8,
    reference: ForkRef,
    offset: i64,
    length: i64,
) -> Result<(), OutOfMemory>
    ensures put { OnOk result
        (PutsAll (byte_range_lock_ext flags reference offset length).fields out.old out.new) }
    ensures err { OnErr result (Keeps out.old out.new) }
{
    put_command(out, BYTE_RANGE_LOCK_EXT)?;
    put_u8(out, flags)?;
    put_u16(out, reference.0)?;
    put_i64(out, offset)?;
    put_i64(out, length)
}
