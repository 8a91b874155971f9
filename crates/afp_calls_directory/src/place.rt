//! The requests about where directories and files stand (AFP Reference, "Combined Directory-File Commands").

ghost use Rattle.std.specs.Prelude.{OnOk, OnErr};
ghost use Rattle.afp_calls_grammar.specs.grammar.Place.{delete, delete_reader, rename, rename_reader, move_and_rename, move_and_rename_reader};
ghost use Rattle.afp_calls_grammar.specs.fields.lemma.Taking.{Gives};
ghost use Rattle.afp_base.specs.Appended.{Keeps};
ghost use Rattle.afp_calls_grammar.specs.fields.Putting.{PutsAll};

use afp_base::{Bytes, NodeId, OutOfMemory, VolumeId};
use afp_calls_grammar::grammar::commands::{DELETE, MOVE_AND_RENAME, RENAME};
use afp_calls_grammar::{
    Call, Fields, ReadFault, put_command, put_pad, put_path, put_u16, put_u32,
};
use afp_names::Path;
use std::alloc::Global;

/// Reads 8 FPDelete: pad, volume ID (2), directory ID (4), pathname.
pub(crate) fn read_delete<'a>(alloc: Global, fields: &mut Fields<'a>) -> Result<Call<'a>, ReadFault>
    ensures { Gives delete_reader fields.old result }
{
    fields.pad()?;
    let volume = VolumeId(fields.u16()?);
    let dir = NodeId(fields.u32()?);
    let path = fields.path(alloc)?;
    fields.alone()?;
    Ok(Call::Delete { volume, dir, path })
}

/// Writes FPDelete: 8 and these fields, the pad as 0.
pub(crate) fn write_delete(
    alloc: Global,
    out: &mut Bytes,
    volume: VolumeId,
    dir: NodeId,
    path: &Path,
) -> Result<(), OutOfMemory>
    ensures put { OnOk result (PutsAll (delete volume dir path.now).fields out.old out.new) }
    ensures err { OnErr result (Keeps out.old out.new) }
{
    put_command(out, DELETE)?;
    put_pad(out)?;
    put_u16(out, volume.0)?;
    put_u32(out, dir.0)?;
    put_path(alloc, out, path)
}

/// Reads 28 FPRename: pad, volume ID (2), directory ID (4), pathname, new name (a pathname).
pub(crate) fn read_rename<'a>(alloc: Global, fields: &mut Fields<'a>) -> Result<Call<'a>, ReadFault>
    ensures { Gives rename_reader fields.old result }
{
    fields.pad()?;
    let volume = VolumeId(fields.u16()?);
    let dir = NodeId(fields.u32()?);
    let path = fields.path(alloc)?;
    let new_path = fields.path(alloc)?;
    fields.alone()?;
    Ok(Call::Rename {
        volume,
        dir,
        path,
        new_path,
    })
}

/// Writes FPRename: 28 and these fields, the pad as 0.
pub(crate) fn write_rename(
    alloc: Global,
    out: &mut Bytes,
    volume: VolumeId,
    dir: NodeId,
    path: &Path,
    new_path: &Path,
) -> Result<(), OutOfMemory>
    ensures put { OnOk result
        (PutsAll (rename volume dir path.now new_path.now).fields out.old out.new) }
    ensures err { OnErr result (Keeps out.old out.new) }
{
    put_command(out, RENAME)?;
    put_pad(out)?;
    put_u16(out, volume.0)?;
    put_u32(out, dir.0)?;
    put_path(alloc, out, path)?;
    put_path(alloc, out, new_path)
}

/// Reads 23 FPMoveAndRename: pad, volume ID (2), source directory ID (4), destination directory ID
/// (4), source pathname, destination pathname, new name (a pathname).
pub(crate) fn read_move_and_rename<'a>(
    alloc: Global,
    fields: &mut Fields<'a>,
) -> Result<Call<'a>, ReadFault>
    ensures { Gives move_and_rename_reader fields.old result }
{
    fields.pad()?;
    let volume = VolumeId(fields.u16()?);
    let dir = NodeId(fields.u32()?);
    let target_dir = NodeId(fields.u32()?);
    let path = fields.path(alloc)?;
    let target_path = fields.path(alloc)?;
    let new_path = fields.path(alloc)?;
    fields.alone()?;
    Ok(Call::MoveAndRename {
        volume,
        dir,
        target_dir,
        path,
        target_path,
        new_path,
    })
}

/// Writes FPMoveAndRename: 23 and these fields, the pad as 0.
pub(crate) fn write_move_and_rename(
    alloc: Global,
    out: &mut Bytes,
    volume: VolumeId,
    dir: NodeId,
    target_dir: NodeId,
    path: &Path,
    target_path: &Path,
    new_path: &Path,
) -> Result<(), OutOfMemory>
    ensures put { OnOk result
        (PutsAll (move_and_rename volume dir target_dir path.now target_path.now new_path.now).fields
        out.old out.new) }
    ensures err { OnErr result (Keeps out.old out.new) }
{
    put_command(out, MOVE_AND_RENAME)?;
    put_pad(out)?;
    put_u16(out, volume.0)?;
    put_u32(out, dir.0)?;
    put_u32(out, target_dir.0)?;
    put_path(alloc, out, path)?;
    put_path(alloc, out, target_path)?;
    put_path(alloc, out, new_path)
}
