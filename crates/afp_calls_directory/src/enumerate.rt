//! The requests about what a directory holds (AFP Reference, "Directory Commands").

ghost use Rattle.std.specs.Prelude.{OnOk, OnErr};
ghost use Rattle.afp_calls_grammar.specs.grammar.Enumerate.{enumerate, enumerate_reader, enumerate_ext, enumerate_ext_reader, enumerate_ext2, enumerate_ext2_reader};
ghost use Rattle.afp_calls_grammar.specs.fields.lemma.Taking.{Gives};
ghost use Rattle.afp_base.specs.Appended.{Keeps};
ghost use Rattle.afp_calls_grammar.specs.fields.Putting.{PutsAll};

use afp_base::{Bytes, NodeId, OutOfMemory, VolumeId};
use afp_calls_grammar::grammar::commands::{ENUMERATE, ENUMERATE_EXT, ENUMERATE_EXT2};
use afp_calls_grammar::{
    Call, Fields, ReadFault, put_command, put_pad, put_path, put_u16, put_u32,
};
use afp_names::Path;
use std::alloc::Global;

/// Reads 9 FPEnumerate: pad, volume ID (2), directory ID (4), file bitmap (2), directory bitmap
/// (2), request count (2), start index (2), maximum reply size (2), pathname.
pub(crate) fn read_enumerate<'a>(
    alloc: Global,
    fields: &mut Fields<'a>,
) -> Result<Call<'a>, ReadFault>
    ensures { Gives enumerate_reader fields.old result }
{
    fields.pad()?;
    let volume = VolumeId(fields.u16()?);
    let dir = NodeId(fields.u32()?);
    let file_bits = fields.u16()?;
    let dir_bits = fields.u16()?;
    let count = fields.u16()?;
    let start = fields.u16()?;
    let size = fields.u16()?;
    let path = fields.path(alloc)?;
    fields.alone()?;
    Ok(Call::Enumerate {
        volume,
        dir,
        file_bits,
        dir_bits,
        count,
        start,
        size,
        path,
    })
}

/// Writes FPEnumerate: 9 and these fields, the pad as 0.
pub(crate) fn write_enumerate(
    alloc: Global,
    out: &mut Bytes,
    volume: VolumeId,
    dir: NodeId,
    file_bits: u16,
    dir_bits: u16,
    count: u16,
    start: u16,
    size: u16,
    path: &Path,
) -> Result<(), OutOfMemory>
    ensures put { OnOk result
        (PutsAll (enumerate volume dir file_bits dir_bits count start size path.now).fields
        out.old out.new) }
    ensures err { OnErr result (Keeps out.old out.new) }
{
    put_command(out, ENUMERATE)?;
    put_pad(out)?;
    put_u16(out, volume.0)?;
    put_u32(out, dir.0)?;
    put_u16(out, file_bits)?;
    put_u16(out, dir_bits)?;
    put_u16(out, count)?;
    put_u16(out, start)?;
    put_u16(out, size)?;
    put_path(alloc, out, path)
}

/// Reads 66 FPEnumerateExt: pad, volume ID (2), directory ID (4), file bitmap (2), directory bitmap
/// (2), request count (2), start index (2), maximum reply size (2), pathname.
pub(crate) fn read_enumerate_ext<'a>(
    alloc: Global,
    fields: &mut Fields<'a>,
) -> Result<Call<'a>, ReadFault>
    ensures { Gives enumerate_ext_reader fields.old result }
{
    fields.pad()?;
    let volume = VolumeId(fields.u16()?);
    let dir = NodeId(fields.u32()?);
    let file_bits = fields.u16()?;
    let dir_bits = fields.u16()?;
    let count = fields.u16()?;
    let start = fields.u16()?;
    let size = fields.u16()?;
    let path = fields.path(alloc)?;
    fields.alone()?;
    Ok(Call::EnumerateExt {
        volume,
        dir,
        file_bits,
        dir_bits,
        count,
        start,
        size,
        path,
    })
}

/// Writes FPEnumerateExt: 66 and these fields, the pad as 0.
pub(crate) fn write_enumerate_ext(
    alloc: Global,
    out: &mut Bytes,
    volume: VolumeId,
    dir: NodeId,
    file_bits: u16,
    dir_bits: u16,
    count: u16,
    start: u16,
    size: u16,
    path: &Path,
) -> Result<(), OutOfMemory>
    ensures put { OnOk result
        (PutsAll (enumerate_ext volume dir file_bits dir_bits count start size path.now).fields
        out.old out.new) }
    ensures err { OnErr result (Keeps out.old out.new) }
{
    put_command(out, ENUMERATE_EXT)?;
    put_pad(out)?;
    put_u16(out, volume.0)?;
    put_u32(out, dir.0)?;
    put_u16(out, file_bits)?;
    put_u16(out, dir_bits)?;
    put_u16(out, count)?;
    put_u16(out, start)?;
    put_u16(out, size)?;
    put_path(alloc, out, path)
}

/// Reads 68 FPEnumerateExt2: pad, volume ID (2), directory ID (4), file bitmap (2), directory
/// bitmap (2), request count (2), start index (4), maximum reply size (4), pathname.
pub(crate) fn read_enumerate_ext2<'a>(
    alloc: Global,
    fields: &mut Fields<'a>,
) -> Result<Call<'a>, ReadFault>
    ensures { Gives enumerate_ext2_reader fields.old result }
{
    fields.pad()?;
    let volume = VolumeId(fields.u16()?);
    let dir = NodeId(fields.u32()?);
    let file_bits = fields.u16()?;
    let dir_bits = fields.u16()?;
    let count = fields.u16()?;
    let start = fields.u32()?;
    let size = fields.u32()?;
    let path = fields.path(alloc)?;
    fields.alone()?;
    Ok(Call::EnumerateExt2 {
        volume,
        dir,
        file_bits,
        dir_bits,
        count,
        start,
        size,
        path,
    })
}

/// Writes FPEnumerateExt2: 68 and these fields, the pad as 0.
pub(crate) fn write_enumerate_ext2(
    alloc: Global,
    out: &mut Bytes,
    volume: VolumeId,
    dir: NodeId,
    file_bits: u16,
    dir_bits: u16,
    count: u16,
    start: u32,
    size: u32,
    path: &Path,
) -> Result<(), OutOfMemory>
    ensures put { OnOk result
        (PutsAll (enumerate_ext2 volume dir file_bits dir_bits count start size path.now).fields
        out.old out.new) }
    ensures err { OnErr result (Keeps out.old out.new) }
{
    put_command(out, ENUMERATE_EXT2)?;
    put_pad(out)?;
    put_u16(out, volume.0)?;
    put_u32(out, dir.0)?;
    put_u16(out, file_bits)?;
    put_u16(out, dir_bits)?;
    put_u16(out, count)?;
    put_u32(out, start)?;
    put_u32(out, size)?;
    put_path(alloc, out, path)
}
