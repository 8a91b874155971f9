//! The requests about files (AFP Reference, "File Commands").

ghost use Rattle.std.specs.Prelude.{OnOk, OnErr, [], ◌∷◌};
ghost use Rattle.afp_calls_grammar.specs.grammar.File.{create_file, create_file_reader, copy_file, copy_file_reader, set_file_parms, set_file_parms_reader, exchange_files, exchange_files_reader};
ghost use Rattle.afp_calls_grammar.specs.grammar.Reading.{Alone, words};
ghost use Rattle.afp_calls_grammar.specs.grammar.Words.{Even, Pathname, Tail};
ghost use Rattle.afp_calls_grammar.specs.declared.grammar.call.Call.TheVariants as calls;
ghost use Rattle.afp_calls_grammar.specs.fields.Input.{read_on};
ghost use Rattle.afp_calls_grammar.specs.fields.Taking.{IsFound};
ghost use Rattle.afp_calls_grammar.specs.fields.lemma.Taking.{Gives};
ghost use Rattle.afp_base.specs.Appended.{Keeps};
ghost use Rattle.afp_calls_grammar.specs.fields.Putting.{PutsAll};

use afp_base::{Bytes, NodeId, OutOfMemory, VolumeId};
use afp_calls_grammar::grammar::commands::{
    COPY_FILE, CREATE_FILE, EXCHANGE_FILES, SET_FILE_PARMS,
};
use afp_calls_grammar::{
    Call, Fields, ReadFault, put_bytes, put_command, put_even, put_pad, put_path, put_u8, put_u16,
    put_u32,
};
use afp_names::Path;
use std::alloc::Global;

/// Reads 7 FPCreateFile: flag (1; 0x80 hard), volume ID (2), directory ID (4), pathname.
pub(crate) fn read_create_file<'a>(
    alloc: Global,
    fields: &mut Fields<'a>,
) -> Result<Call<'a>, ReadFault>
    ensures { Gives create_file_reader fields.old result }
{
    let flag = fields.u8()?;
    let volume = VolumeId(fields.u16()?);
    let dir = NodeId(fields.u32()?);
    let path = fields.path(alloc)?;
    fields.alone()?;
    Ok(Call::CreateFile {
        flag,
        volume,
        dir,
        path,
    })
}

/// Writes FPCreateFile: 7 and these fields.
pub(crate) fn write_create_file(
    alloc: Global,
    out: &mut Bytes,
    flag: u8,
    volume: VolumeId,
    dir: NodeId,
    path: &Path,
) -> Result<(), OutOfMemory>
    ensures put { OnOk result (PutsAll (create_file flag volume dir path.now).fields out.old out.new) }
    ensures err { OnErr result (Keeps out.old out.new) }
{
    put_command(out, CREATE_FILE)?;
    put_u8(out, flag)?;
    put_u16(out, volume.0)?;
    put_u32(out, dir.0)?;
    put_path(alloc, out, path)
}

/// Reads 5 FPCopyFile: pad, source volume ID (2), source directory ID (4), destination volume ID
/// (2), destination directory ID (4), source pathname, destination pathname, new name (a pathname).
pub(crate) fn read_copy_file<'a>(
    alloc: Global,
    fields: &mut Fields<'a>,
) -> Result<Call<'a>, ReadFault>
    ensures { Gives copy_file_reader fields.old result }
{
    fields.pad()?;
    let volume = VolumeId(fields.u16()?);
    let dir = NodeId(fields.u32()?);
    let target_volume = VolumeId(fields.u16()?);
    let target_dir = NodeId(fields.u32()?);
    copy_file_by_paths(alloc, fields, volume, dir, target_volume, target_dir)
}

/// The three pathnames of FPCopyFile, behind its volumes and directories.
fn copy_file_by_paths<'a>(
    alloc: Global,
    fields: &mut Fields<'a>,
    volume: VolumeId,
    dir: NodeId,
    target_volume: VolumeId,
    target_dir: NodeId,
) -> Result<Call<'a>, ReadFault>
    ensures { IsFound (read_on
        (words (Pathname ∷ Pathname ∷ Pathname ∷ []) (λ path target_path new_path. Alone
        (calls.CopyFile volume dir target_volume target_dir path target_path new_path))) fields.old)
        result }
{
    let path = fields.path(alloc)?;
    let target_path = fields.path(alloc)?;
    let new_path = fields.path(alloc)?;
    fields.alone()?;
    Ok(Call::CopyFile {
        volume,
        dir,
        target_volume,
        target_dir,
        path,
        target_path,
        new_path,
    })
}

/// Writes FPCopyFile: 5 and these fields, the pad as 0.
pub(crate) fn write_copy_file(
    alloc: Global,
    out: &mut Bytes,
    volume: VolumeId,
    dir: NodeId,
    target_volume: VolumeId,
    target_dir: NodeId,
    path: &Path,
    target_path: &Path,
    new_path: &Path,
) -> Result<(), OutOfMemory>
    ensures put { OnOk result
        (PutsAll (copy_file volume dir target_volume target_dir path.now target_path.now new_path.now).fields
        out.old out.new) }
    ensures err { OnErr result (Keeps out.old out.new) }
{
    put_command(out, COPY_FILE)?;
    put_pad(out)?;
    put_u16(out, volume.0)?;
    put_u32(out, dir.0)?;
    put_u16(out, target_volume.0)?;
    put_u32(out, target_dir.0)?;
    put_path(alloc, out, path)?;
    put_path(alloc, out, target_path)?;
    put_path(alloc, out, new_path)
}

/// Reads 30 FPSetFileParms: pad, volume ID (2), directory ID (4), bitmap (2), pathname, pad to
/// even, parameters (all that remains).
pub(crate) fn read_set_file_parms<'a>(
    alloc: Global,
    fields: &mut Fields<'a>,
) -> Result<Call<'a>, ReadFault>
    ensures { Gives set_file_parms_reader fields.old result }
{
    fields.pad()?;
    let volume = VolumeId(fields.u16()?);
    let dir = NodeId(fields.u32()?);
    let bits = fields.u16()?;
    set_file_parms_behind_its_bits(alloc, fields, volume, dir, bits)
}

/// The pathname, the pad and the parameters of FPSetFileParms, behind its bitmap.
fn set_file_parms_behind_its_bits<'a>(
    alloc: Global,
    fields: &mut Fields<'a>,
    volume: VolumeId,
    dir: NodeId,
    bits: u16,
) -> Result<Call<'a>, ReadFault>
    ensures { IsFound (read_on
        (words (Pathname ∷ Even ∷ Tail ∷ []) (λ path _ rest. Alone
        (calls.SetFileParms volume dir bits path rest))) fields.old)
        result }
{
    let path = fields.path(alloc)?;
    fields.even()?;
    let tail = fields.tail(alloc)?;
    fields.alone()?;
    Ok(Call::SetFileParms {
        volume,
        dir,
        bits,
        path,
        tail,
    })
}

/// Writes FPSetFileParms: 30 and these fields, pads as 0. An even place is counted from the 30.
pub(crate) fn write_set_file_parms(
    alloc: Global,
    out: &mut Bytes,
    volume: VolumeId,
    dir: NodeId,
    bits: u16,
    path: &Path,
    tail: &Bytes,
) -> Result<(), OutOfMemory>
    ensures put { OnOk result
        (PutsAll (set_file_parms volume dir bits path.now tail.now).fields out.old out.new) }
    ensures err { OnErr result (Keeps out.old out.new) }
{
    let start = out.as_slice().len();
    put_command(out, SET_FILE_PARMS)?;
    put_pad(out)?;
    put_u16(out, volume.0)?;
    put_u32(out, dir.0)?;
    put_u16(out, bits)?;
    put_path(alloc, out, path)?;
    put_even(out, start)?;
    put_bytes(out, tail.as_slice())
}

/// Reads 42 FPExchangeFiles: pad, volume ID (2), source directory ID (4), destination directory ID
/// (4), source pathname, destination pathname.
pub(crate) fn read_exchange_files<'a>(
    alloc: Global,
    fields: &mut Fields<'a>,
) -> Result<Call<'a>, ReadFault>
    ensures { Gives exchange_files_reader fields.old result }
{
    fields.pad()?;
    let volume = VolumeId(fields.u16()?);
    let dir = NodeId(fields.u32()?);
    let second_dir = NodeId(fields.u32()?);
    let path = fields.path(alloc)?;
    let second_path = fields.path(alloc)?;
    fields.alone()?;
    Ok(Call::ExchangeFiles {
        volume,
        dir,
        second_dir,
        path,
        second_path,
    })
}

/// Writes FPExchangeFiles: 42 and these fields, the pad as 0.
pub(crate) fn write_exchange_files(
    alloc: Global,
    out: &mut Bytes,
    volume: VolumeId,
    dir: NodeId,
    second_dir: NodeId,
    path: &Path,
    second_path: &Path,
) -> Result<(), OutOfMemory>
    ensures put { OnOk result
        (PutsAll (exchange_files volume dir second_dir path.now second_path.now).fields
        out.old out.new) }
    ensures err { OnErr result (Keeps out.old out.new) }
{
    put_command(out, EXCHANGE_FILES)?;
    put_pad(out)?;
    put_u16(out, volume.0)?;
    put_u32(out, dir.0)?;
    put_u32(out, second_dir.0)?;
    put_path(alloc, out, path)?;
    put_path(alloc, out, second_path)
}
