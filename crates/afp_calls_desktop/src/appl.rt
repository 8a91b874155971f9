//! The requests about APPL mappings (AFP Reference, "Desktop Database Commands").

ghost use Rattle.std.specs.Prelude.{OnOk, OnErr};
ghost use Rattle.afp_calls_grammar.specs.grammar.Appl.{add_appl, add_appl_reader, remove_appl, remove_appl_reader, get_appl, get_appl_reader};
ghost use Rattle.afp_calls_grammar.specs.fields.lemma.Taking.{Gives};
ghost use Rattle.afp_base.specs.Appended.{Keeps};
ghost use Rattle.afp_calls_grammar.specs.fields.Putting.{PutsAll};

use afp_base::{Bytes, NodeId, OutOfMemory};
use afp_calls_grammar::grammar::commands::{ADD_APPL, GET_APPL, REMOVE_APPL};
use afp_calls_grammar::{
    Call, Fields, ReadFault, put_bytes, put_command, put_pad, put_path, put_u16, put_u32,
};
use afp_names::Path;
use std::alloc::Global;

/// Reads 53 FPAddAPPL: pad, desktop database reference number (2), directory ID (4), file creator
/// (4), APPL tag (4), pathname.
pub(crate) fn read_add_appl<'a>(
    alloc: Global,
    fields: &mut Fields<'a>,
) -> Result<Call<'a>, ReadFault>
    ensures { Gives add_appl_reader fields.old result }
{
    fields.pad()?;
    let dt = fields.u16()?;
    let dir = NodeId(fields.u32()?);
    let creator = fields.four()?;
    let tag = fields.u32()?;
    let path = fields.path(alloc)?;
    fields.alone()?;
    Ok(Call::AddAPPL {
        dt,
        dir,
        creator,
        tag,
        path,
    })
}

/// Writes FPAddAPPL: 53 and these fields, the pad as 0.
pub(crate) fn write_add_appl(
    alloc: Global,
    out: &mut Bytes,
    dt: u16,
    dir: NodeId,
    creator: &[u8; 4],
    tag: u32,
    path: &Path,
) -> Result<(), OutOfMemory>
    ensures put { OnOk result
        (PutsAll (add_appl dt dir creator.now tag path.now).fields out.old out.new) }
    ensures err { OnErr result (Keeps out.old out.new) }
{
    put_command(out, ADD_APPL)?;
    put_pad(out)?;
    put_u16(out, dt)?;
    put_u32(out, dir.0)?;
    put_bytes(out, creator)?;
    put_u32(out, tag)?;
    put_path(alloc, out, path)
}

/// Reads 54 FPRemoveAPPL: pad, desktop database reference number (2), directory ID (4), file
/// creator (4), pathname.
pub(crate) fn read_remove_appl<'a>(
    alloc: Global,
    fields: &mut Fields<'a>,
) -> Result<Call<'a>, ReadFault>
    ensures { Gives remove_appl_reader fields.old result }
{
    fields.pad()?;
    let dt = fields.u16()?;
    let dir = NodeId(fields.u32()?);
    let creator = fields.four()?;
    let path = fields.path(alloc)?;
    fields.alone()?;
    Ok(Call::RemoveAPPL {
        dt,
        dir,
        creator,
        path,
    })
}

/// Writes FPRemoveAPPL: 54 and these fields, the pad as 0.
pub(crate) fn write_remove_appl(
    alloc: Global,
    out: &mut Bytes,
    dt: u16,
    dir: NodeId,
    creator: &[u8; 4],
    path: &Path,
) -> Result<(), OutOfMemory>
    ensures put { OnOk result
        (PutsAll (remove_appl dt dir creator.now path.now).fields out.old out.new) }
    ensures err { OnErr result (Keeps out.old out.new) }
{
    put_command(out, REMOVE_APPL)?;
    put_pad(out)?;
    put_u16(out, dt)?;
    put_u32(out, dir.0)?;
    put_bytes(out, creator)?;
    put_path(alloc, out, path)
}

/// Reads 55 FPGetAPPL: pad, desktop database reference number (2), file creator (4), APPL index
/// (2), bitmap (2).
pub(crate) fn read_get_appl<'a>(fields: &mut Fields<'a>) -> Result<Call<'a>, ReadFault>
    ensures { Gives get_appl_reader fields.old result }
{
    fields.pad()?;
    let dt = fields.u16()?;
    let creator = fields.four()?;
    let index = fields.u16()?;
    let bits = fields.u16()?;
    fields.alone()?;
    Ok(Call::GetAPPL {
        dt,
        creator,
        index,
        bits,
    })
}

/// Writes FPGetAPPL: 55 and these fields, the pad as 0.
pub(crate) fn write_get_appl(
    out: &mut Bytes,
    dt: u16,
    creator: &[u8; 4],
    index: u16,
    bits: u16,
) -> Result<(), OutOfMemory>
    ensures put { OnOk result (PutsAll (get_appl dt creator.now index bits).fields out.old out.new) }
    ensures err { OnErr result (Keeps out.old out.new) }
{
    put_command(out, GET_APPL)?;
    put_pad(out)?;
    put_u16(out, dt)?;
    put_bytes(out, creator)?;
    put_u16(out, index)?;
    put_u16(out, bits)
}
