//! The requests about the bytes of a fork (AFP Reference, "Fork Commands").

ghost use Rattle.std.specs.Prelude.{◌≡◌, OnOk, OnErr, []};
ghost use Rattle.afp_calls_grammar.specs.grammar.ForkBytes.{read, read_reader, read_ext, read_ext_reader, write, write_reader, write_ext, write_ext_reader, piece_size};
ghost use Rattle.afp_calls_grammar.specs.fields.lemma.Taking.{Gives};
ghost use Rattle.afp_base.specs.Appended.{Keeps};
ghost use Rattle.afp_calls_grammar.specs.fields.Putting.{PutsAll};

use afp_base::{Bytes, ForkRef, OutOfMemory};
use afp_calls_grammar::grammar::commands::{READ, READ_EXT, WRITE, WRITE_EXT};
use afp_calls_grammar::{
    Call, Fields, ReadFault, put_command, put_i32, put_i64, put_pad, put_u8, put_u16, put_u32,
};

/// Reads 27 FPRead: pad, open fork reference number (2), offset (4, signed), request count (4),
/// newline mask (1), newline character (1).
pub(crate) fn read_read<'a>(fields: &mut Fields<'a>) -> Result<Call<'a>, ReadFault>
    ensures { Gives read_reader fields.old result }
{
    fields.pad()?;
    let reference = ForkRef(fields.u16()?);
    let offset = fields.i32()?;
    let count = fields.u32()?;
    let mask = fields.u8()?;
    let character = fields.u8()?;
    fields.alone()?;
    Ok(Call::Read {
        reference,
        offset,
        count,
        mask,
        character,
    })
}

/// Writes FPRead: 27 and these fields, the pad as 0.
pub(crate) fn write_read(
    out: &mut Bytes,
    reference: ForkRef,
    offset: i32,
    count: u32,
    mask: u8,
    character: u8,
) -> Result<(), OutOfMemory>
    ensures put { OnOk result
        (PutsAll (read reference offset count mask character).fields out.old out.new) }
    ensures err { OnErr result (Keeps out.old out.new) }
{
    put_command(out, READ)?;
    put_pad(out)?;
    put_u16(out, reference.0)?;
    put_i32(out, offset)?;
    put_u32(out, count)?;
    put_u8(out, mask)?;
    put_u8(out, character)
}

/// Reads 60 FPReadExt: pad, open fork reference number (2), offset (8, signed), request count (8,
/// signed).
pub(crate) fn read_read_ext<'a>(fields: &mut Fields<'a>) -> Result<Call<'a>, ReadFault>
    ensures { Gives read_ext_reader fields.old result }
{
    fields.pad()?;
    let reference = ForkRef(fields.u16()?);
    let offset = fields.i64()?;
    let count = fields.i64()?;
    fields.alone()?;
    Ok(Call::ReadExt {
        reference,
        offset,
        count,
    })
}

/// Writes FPReadExt: 60 and these fields, the pad as 0.
pub(crate) fn write_read_ext(
    out: &mut Bytes,
    reference: ForkRef,
    offset: i64,
    count: i64,
) -> Result<(), OutOfMemory>
    ensures put { OnOk result (PutsAll (read_ext reference offset count).fields out.old out.new) }
    ensures err { OnErr result (Keeps out.old out.new) }
{
    put_command(out, READ_EXT)?;
    put_pad(out)?;
    put_u16(out, reference.0)?;
    put_i64(out, offset)?;
    put_i64(out, count)
}

/// Reads 33 FPWrite: flag (1; 0x80 from the fork's end), open fork reference number (2), offset (4,
/// signed), request count (4). Enclosed: fork data, as many bytes as the count.
pub(crate) fn read_write<'a>(fields: &mut Fields<'a>) -> Result<Call<'a>, ReadFault>
    ensures { Gives write_reader fields.old result }
{
    let flag = fields.u8()?;
    let reference = ForkRef(fields.u16()?);
    let offset = fields.i32()?;
    let count = fields.u32()?;
    let piece = fields.enclosed(u64::from(count))?;
    Ok(Call::Write {
        flag,
        reference,
        offset,
        count,
        piece,
    })
}

/// Writes FPWrite: 33 and these fields. The data is not in the block: it goes enclosed.
pub(crate) fn write_write(
    out: &mut Bytes,
    flag: u8,
    reference: ForkRef,
    offset: i32,
    count: u32,
) -> Result<(), OutOfMemory>
    ensures put { OnOk result (PutsAll (write flag reference offset count []).fields out.old out.new) }
    ensures err { OnErr result (Keeps out.old out.new) }
{
    put_command(out, WRITE)?;
    put_u8(out, flag)?;
    put_u16(out, reference.0)?;
    put_i32(out, offset)?;
    put_u32(out, count)
}

/// Reads 61 FPWriteExt: flag (1; 0x80 from the fork's end), open fork reference number (2), offset (8, signed),
/// request count (8, signed). Enclosed: fork data, as many bytes as the count, none where it is negative.
pub(crate) fn read_write_ext<'a>(fields: &mut Fields<'a>) -> Result<Call<'a>, ReadFault>
    ensures { Gives write_ext_reader fields.old result }
{
    let flag = fields.u8()?;
    let reference = ForkRef(fields.u16()?);
    let offset = fields.i64()?;
    let count = fields.i64()?;
    let piece = fields.enclosed(piece_size(count))?;
    Ok(Call::WriteExt {
        flag,
        reference,
        offset,
        count,
        piece,
    })
}

/// Writes FPWriteExt: 61 and these fields. The data is not in the block: it goes enclosed.
pub(crate) fn write_write_ext(
    out: &mut Bytes,
    flag: u8,
    reference: ForkRef,
    offset: i64,
    count: i64,
) -> Result<(), OutOfMemory>
    ensures put { OnOk result
        (PutsAll (write_ext flag reference offset count []).fields out.old out.new) }
    ensures err { OnErr result (Keeps out.old out.new) }
{
    put_command(out, WRITE_EXT)?;
    put_u8(out, flag)?;
    put_u16(out, reference.0)?;
    put_i64(out, offset)?;
    put_i64(out, count)
}

/// How many bytes a signed count asks for: none where it is negative.
fn piece_size(count: i64) -> u64
    ensures { result ≡ piece_size count }
{
    if count < 0 { 0 } else { count as u64 }
}
