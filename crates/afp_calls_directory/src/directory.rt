//! The requests about directories (AFP Reference, "Directory Commands").

ghost use Rattle.std.specs.Prelude.{OnOk, OnErr};
ghost use Rattle.afp_calls_grammar.specs.grammar.Directory.{create_dir, create_dir_reader, open_dir, open_dir_reader, close_dir, close_dir_reader};
ghost use Rattle.afp_calls_grammar.specs.fields.lemma.Taking.{Gives};
ghost use Rattle.afp_base.specs.Appended.{Keeps};
ghost use Rattle.afp_calls_grammar.specs.fields.Putting.{PutsAll};

use afp_base::{Bytes, NodeId, OutOfMemory, VolumeId};
use afp_calls_grammar::grammar::commands::{CLOSE_DIR, CREATE_DIR, OPEN_DIR};
use afp_calls_grammar::{
    Call, Fields, ReadFault, put_command, put_pad, put_path, put_u16, put_u32,
};
use afp_names::Path;
use std::alloc::Global;

/// Reads 6 FPCreateDir: pad, volume ID (2), directory ID (4), pathname.
pub(crate) fn read_create_dir<'a>(
    alloc: Global,
    fields: &mut Fields<'a>,
) -> Result<Call<'a>, ReadFault>
    ensures { Gives create_dir_reader fields.old result }
{
    fields.pad()?;
    let volume = VolumeId(fields.u16()?);
    let dir = NodeId(fields.u32()?);
    let path = fields.path(alloc)?;
    fields.alone()?;
    Ok(Call::CreateDir { volume, dir, path })
}

/// Writes FPCreateDir: 6 and these fields, the pad as 0.
pub(crate) fn write_create_dir(
    alloc: Global,
    out: &mut Bytes,
    volume: VolumeId,
    dir: NodeId,
    path: &Path,
) -> Result<(), OutOfMemory>
    ensures put { OnOk result (PutsAll (create_dir volume dir path.now).fields out.old out.new) }
    ensures err { OnErr result (Keeps out.old out.new) }
{
    put_command(out, CREATE_DIR)?;
    put_pad(out)?;
    put_u16(out, volume.0)?;
    put_u32(out, dir.0)?;
    put_path(alloc, out, path)
}

/// Reads 25 FPOpenDir: pad, volume ID (2), directory ID (4), pathname.
pub(crate) fn read_open_dir<'a>(
    alloc: Global,
    fields: &mut Fields<'a>,
) -> Result<Call<'a>, ReadFault>
    ensures { Gives open_dir_reader fields.old result }
{
    fields.pad()?;
    let volume = VolumeId(fields.u16()?);
    let dir = NodeId(fields.u32()?);
    let path = fields.path(alloc)?;
    fields.alone()?;
    Ok(Call::OpenDir { volume, dir, path })
}

/// Writes FPOpenDir: 25 and these fields, the pad as 0.
pub(crate) fn write_open_dir(
    alloc: Global,
    out: &mut Bytes,
    volume: VolumeId,
    dir: NodeId,
    path: &Path,
) -> Result<(), OutOfMemory>
    ensures put { OnOk result (PutsAll (open_dir volume dir path.now).fields out.old out.new) }
    ensures err { OnErr result (Keeps out.old out.new) }
{
    put_command(out, OPEN_DIR)?;
    put_pad(out)?;
    put_u16(out, volume.0)?;
    put_u32(out, dir.0)?;
    put_path(alloc, out, path)
}

/// Reads 3 FPCloseDir: pad, volume ID (2), directory ID (4).
pub(crate) fn read_close_dir<'a>(fields: &mut Fields<'a>) -> Result<Call<'a>, ReadFault>
    ensures { Gives close_dir_reader fields.old result }
{
    fields.pad()?;
    let volume = VolumeId(fields.u16()?);
    let dir = NodeId(fields.u32()?);
    fields.alone()?;
    Ok(Call::CloseDir { volume, dir })
}

/// Writes FPCloseDir: 3 and these fields, the pad as 0.
pub(crate) fn write_close_dir(
    out: &mut Bytes,
    volume: VolumeId,
    dir: NodeId,
) -> Result<(), OutOfMemory>
    ensures put { OnOk result (PutsAll (close_dir volume dir).fields out.old out.new) }
    ensures err { OnErr result (Keeps out.old out.new) }
{
    put_command(out, CLOSE_DIR)?;
    put_pad(out)?;
    put_u16(out, volume.0)?;
    put_u32(out, dir.0)
}
