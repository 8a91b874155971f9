//! The requests about ids of files (AFP Reference, "File Commands").

ghost use Rattle.std.specs.Prelude.{OnOk, OnErr};
ghost use Rattle.afp_calls_grammar.specs.grammar.FileId.{create_id, create_id_reader, delete_id, delete_id_reader, resolve_id, resolve_id_reader};
ghost use Rattle.afp_calls_grammar.specs.fields.lemma.Taking.{Gives};
ghost use Rattle.afp_base.specs.Appended.{Keeps};
ghost use Rattle.afp_calls_grammar.specs.fields.Putting.{PutsAll};

use afp_base::{Bytes, NodeId, OutOfMemory, VolumeId};
use afp_calls_grammar::grammar::commands::{CREATE_ID, DELETE_ID, RESOLVE_ID};
use afp_calls_grammar::{
    Call, Fields, ReadFault, put_command, put_pad, put_path, put_u16, put_u32,
};
use afp_names::Path;
use std::alloc::Global;

/// Reads 39 FPCreateID: pad, volume ID (2), directory ID (4), pathname.
pub(crate) fn read_create_id<'a>(
    alloc: Global,
    fields: &mut Fields<'a>,
) -> Result<Call<'a>, ReadFault>
    ensures { Gives create_id_reader fields.old result }
{
    fields.pad()?;
    let volume = VolumeId(fields.u16()?);
    let dir = NodeId(fields.u32()?);
    let path = fields.path(alloc)?;
    fields.alone()?;
    Ok(Call::CreateID { volume, dir, path })
}

/// Writes FPCreateID: 39 and these fields, the pad as 0.
pub(crate) fn write_create_id(
    alloc: Global,
    out: &mut Bytes,
    volume: VolumeId,
    dir: NodeId,
    path: &Path,
) -> Result<(), OutOfMemory>
    ensures put { OnOk result (PutsAll (create_id volume dir path.now).fields out.old out.new) }
    ensures err { OnErr result (Keeps out.old out.new) }
{
    put_command(out, CREATE_ID)?;
    put_pad(out)?;
    put_u16(out, volume.0)?;
    put_u32(out, dir.0)?;
    put_path(alloc, out, path)
}

/// Reads 40 FPDeleteID: pad, volume ID (2), file ID (4).
pub(crate) fn read_delete_id<'a>(fields: &mut Fields<'a>) -> Result<Call<'a>, ReadFault>
    ensures { Gives delete_id_reader fields.old result }
{
    fields.pad()?;
    let volume = VolumeId(fields.u16()?);
    let id = NodeId(fields.u32()?);
    fields.alone()?;
    Ok(Call::DeleteID { volume, id })
}

/// Writes FPDeleteID: 40 and these fields, the pad as 0.
pub(crate) fn write_delete_id(
    out: &mut Bytes,
    volume: VolumeId,
    id: NodeId,
) -> Result<(), OutOfMemory>
    ensures put { OnOk result (PutsAll (delete_id volume id).fields out.old out.new) }
    ensures err { OnErr result (Keeps out.old out.new) }
{
    put_command(out, DELETE_ID)?;
    put_pad(out)?;
    put_u16(out, volume.0)?;
    put_u32(out, id.0)
}

/// Reads 41 FPResolveID: pad, volume ID (2), file ID (4), bitmap (2).
pub(crate) fn read_resolve_id<'a>(fields: &mut Fields<'a>) -> Result<Call<'a>, ReadFault>
    ensures { Gives resolve_id_reader fields.old result }
{
    fields.pad()?;
    let volume = VolumeId(fields.u16()?);
    let id = NodeId(fields.u32()?);
    let bits = fields.u16()?;
    fields.alone()?;
    Ok(Call::ResolveID { volume, id, bits })
}

/// Writes FPResolveID: 41 and these fields, the pad as 0.
pub(crate) fn write_resolve_id(
    out: &mut Bytes,
    volume: VolumeId,
    id: NodeId,
    bits: u16,
) -> Result<(), OutOfMemory>
    ensures put { OnOk result (PutsAll (resolve_id volume id bits).fields out.old out.new) }
    ensures err { OnErr result (Keeps out.old out.new) }
{
    put_command(out, RESOLVE_ID)?;
    put_pad(out)?;
    put_u16(out, volume.0)?;
    put_u32(out, id.0)?;
    put_u16(out, bits)
}
