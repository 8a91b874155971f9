//! The requests about parameters of directories and files (AFP Reference, "Combined Directory-File Commands").

ghost use Rattle.std.specs.Prelude.{OnOk, OnErr};
ghost use Rattle.afp_calls_grammar.specs.grammar.Parameters.{set_dir_parms, set_dir_parms_reader, get_file_dir_parms, get_file_dir_parms_reader, set_file_dir_parms, set_file_dir_parms_reader};
ghost use Rattle.afp_calls_grammar.specs.fields.lemma.Taking.{Gives};
ghost use Rattle.afp_base.specs.Appended.{Keeps};
ghost use Rattle.afp_calls_grammar.specs.fields.Putting.{PutsAll};

use afp_base::{Bytes, NodeId, OutOfMemory, VolumeId};
use afp_calls_grammar::grammar::commands::{GET_FILE_DIR_PARMS, SET_DIR_PARMS, SET_FILE_DIR_PARMS};
use afp_calls_grammar::{
    Call, Fields, ReadFault, put_bytes, put_command, put_even, put_pad, put_path, put_u16, put_u32,
};
use afp_names::Path;
use std::alloc::Global;

/// Reads 29 FPSetDirParms: pad, volume ID (2), directory ID (4), bitmap (2), pathname, pad to even,
/// parameters (all that remains).
pub(crate) fn read_set_dir_parms<'a>(
    alloc: Global,
    fields: &mut Fields<'a>,
) -> Result<Call<'a>, ReadFault>
    ensures { Gives set_dir_parms_reader fields.old result }
{
    fields.pad()?;
    let volume = VolumeId(fields.u16()?);
    let dir = NodeId(fields.u32()?);
    let bits = fields.u16()?;
    let path = fields.path(alloc)?;
    fields.even()?;
    let tail = fields.tail(alloc)?;
    fields.alone()?;
    Ok(Call::SetDirParms {
        volume,
        dir,
        bits,
        path,
        tail,
    })
}

/// Writes FPSetDirParms: 29 and these fields, pads as 0. An even place is counted from the 29.
pub(crate) fn write_set_dir_parms(
    alloc: Global,
    out: &mut Bytes,
    volume: VolumeId,
    dir: NodeId,
    bits: u16,
    path: &Path,
    tail: &Bytes,
) -> Result<(), OutOfMemory>
    ensures put { OnOk result
        (PutsAll (set_dir_parms volume dir bits path.now tail.now).fields out.old out.new) }
    ensures err { OnErr result (Keeps out.old out.new) }
{
    let start = out.as_slice().len();
    put_command(out, SET_DIR_PARMS)?;
    put_pad(out)?;
    put_u16(out, volume.0)?;
    put_u32(out, dir.0)?;
    put_u16(out, bits)?;
    put_path(alloc, out, path)?;
    put_even(out, start)?;
    put_bytes(out, tail.as_slice())
}

/// Reads 34 FPGetFileDirParms: pad, volume ID (2), directory ID (4), file bitmap (2), directory
/// bitmap (2), pathname.
pub(crate) fn read_get_file_dir_parms<'a>(
    alloc: Global,
    fields: &mut Fields<'a>,
) -> Result<Call<'a>, ReadFault>
    ensures { Gives get_file_dir_parms_reader fields.old result }
{
    fields.pad()?;
    let volume = VolumeId(fields.u16()?);
    let dir = NodeId(fields.u32()?);
    let file_bits = fields.u16()?;
    let dir_bits = fields.u16()?;
    let path = fields.path(alloc)?;
    fields.alone()?;
    Ok(Call::GetFileDirParms {
        volume,
        dir,
        file_bits,
        dir_bits,
        path,
    })
}

/// Writes FPGetFileDirParms: 34 and these fields, the pad as 0.
pub(crate) fn write_get_file_dir_parms(
    alloc: Global,
    out: &mut Bytes,
    volume: VolumeId,
    dir: NodeId,
    file_bits: u16,
    dir_bits: u16,
    path: &Path,
) -> Result<(), OutOfMemory>
    ensures put { OnOk result
        (PutsAll (get_file_dir_parms volume dir file_bits dir_bits path.now).fields
        out.old out.new) }
    ensures err { OnErr result (Keeps out.old out.new) }
{
    put_command(out, GET_FILE_DIR_PARMS)?;
    put_pad(out)?;
    put_u16(out, volume.0)?;
    put_u32(out, dir.0)?;
    put_u16(out, file_bits)?;
    put_u16(out, dir_bits)?;
    put_path(alloc, out, path)
}

/// Reads 35 FPSetFileDirParms: pad, volume ID (2), directory ID (4), bitmap (2), pathname, pad to
/// even, parameters (all that remains).
pub(crate) fn read_set_file_dir_parms<'a>(
    alloc: Global,
    fields: &mut Fields<'a>,
) -> Result<Call<'a>, ReadFault>
    ensures { Gives set_file_dir_parms_reader fields.old result }
{
    fields.pad()?;
    let volume = VolumeId(fields.u16()?);
    let dir = NodeId(fields.u32()?);
    let bits = fields.u16()?;
    let path = fields.path(alloc)?;
    fields.even()?;
    let tail = fields.tail(alloc)?;
    fields.alone()?;
    Ok(Call::SetFileDirParms {
        volume,
        dir,
        bits,
        path,
        tail,
    })
}

/// Writes FPSetFileDirParms: 35 and these fields, pads as 0. An even place is counted from the 35.
pub(crate) fn write_set_file_dir_parms(
    alloc: Global,
    out: &mut Bytes,
    volume: VolumeId,
    dir: NodeId,
    bits: u16,
    path: &Path,
    tail: &Bytes,
) -> Result<(), OutOfMemory>
    ensures put { OnOk result
        (PutsAll (set_file_dir_parms volume dir bits path.now tail.now).fields out.old out.new) }
    ensures err { OnErr result (Keeps out.old out.new) }
{
    let start = out.as_slice().len();
    put_command(out, SET_FILE_DIR_PARMS)?;
    put_pad(out)?;
    put_u16(out, volume.0)?;
    put_u32(out, dir.0)?;
    put_u16(out, bits)?;
    put_path(alloc, out, path)?;
    put_even(out, start)?;
    put_bytes(out, tail.as_slice())
}
