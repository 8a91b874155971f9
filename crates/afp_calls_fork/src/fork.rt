//! The requests about open forks (AFP Reference, "Fork Commands").

ghost use Rattle.std.specs.Prelude.{OnOk, OnErr};
ghost use Rattle.afp_calls_grammar.specs.grammar.Fork.{open_fork, open_fork_reader, close_fork, close_fork_reader, flush_fork, flush_fork_reader, get_fork_parms, get_fork_parms_reader, set_fork_parms, set_fork_parms_reader};
ghost use Rattle.afp_calls_grammar.specs.fields.lemma.Taking.{Gives};
ghost use Rattle.afp_base.specs.Appended.{Keeps};
ghost use Rattle.afp_calls_grammar.specs.fields.Putting.{PutsAll};

use afp_base::{Bytes, ForkRef, NodeId, OutOfMemory, VolumeId};
use afp_calls_grammar::grammar::commands::{
    CLOSE_FORK, FLUSH_FORK, GET_FORK_PARMS, OPEN_FORK, SET_FORK_PARMS,
};
use afp_calls_grammar::{
    Call, Fields, ReadFault, put_bytes, put_command, put_pad, put_path, put_u8, put_u16, put_u32,
};
use afp_names::Path;
use std::alloc::Global;

/// Reads 26 FPOpenFork: flag (1; 0x80 resource fork), volume ID (2), directory ID (4), bitmap (2),
/// access mode (2), pathname.
pub(crate) fn read_open_fork<'a>(
    alloc: Global,
    fields: &mut Fields<'a>,
) -> Result<Call<'a>, ReadFault>
    ensures { Gives open_fork_reader fields.old result }
{
    let flag = fields.u8()?;
    let volume = VolumeId(fields.u16()?);
    let dir = NodeId(fields.u32()?);
    let bits = fields.u16()?;
    let mode = fields.u16()?;
    let path = fields.path(alloc)?;
    fields.alone()?;
    Ok(Call::OpenFork {
        flag,
        volume,
        dir,
        bits,
        mode,
        path,
    })
}

/// Writes FPOpenFork: 26 and these fields.
pub(crate) fn write_open_fork(
    alloc: Global,
    out: &mut Bytes,
    flag: u8,
    volume: VolumeId,
    dir: NodeId,
    bits: u16,
    mode: u16,
    path: &Path,
) -> Result<(), OutOfMemory>
    ensures put { OnOk result
        (PutsAll (open_fork flag volume dir bits mode path.now).fields out.old out.new) }
    ensures err { OnErr result (Keeps out.old out.new) }
{
    put_command(out, OPEN_FORK)?;
    put_u8(out, flag)?;
    put_u16(out, volume.0)?;
    put_u32(out, dir.0)?;
    put_u16(out, bits)?;
    put_u16(out, mode)?;
    put_path(alloc, out, path)
}

/// Reads 4 FPCloseFork: pad, open fork reference number (2).
pub(crate) fn read_close_fork<'a>(fields: &mut Fields<'a>) -> Result<Call<'a>, ReadFault>
    ensures { Gives close_fork_reader fields.old result }
{
    fields.pad()?;
    let reference = ForkRef(fields.u16()?);
    fields.alone()?;
    Ok(Call::CloseFork { reference })
}

/// Writes FPCloseFork: 4 and these fields, the pad as 0.
pub(crate) fn write_close_fork(out: &mut Bytes, reference: ForkRef) -> Result<(), OutOfMemory>
    ensures put { OnOk result (PutsAll (close_fork reference).fields out.old out.new) }
    ensures err { OnErr result (Keeps out.old out.new) }
{
    put_command(out, CLOSE_FORK)?;
    put_pad(out)?;
    put_u16(out, reference.0)
}

/// Reads 11 FPFlushFork: pad, open fork reference number (2).
pub(crate) fn read_flush_fork<'a>(fields: &mut Fields<'a>) -> Result<Call<'a>, ReadFault>
    ensures { Gives flush_fork_reader fields.old result }
{
    fields.pad()?;
    let reference = ForkRef(fields.u16()?);
    fields.alone()?;
    Ok(Call::FlushFork { reference })
}

/// Writes FPFlushFork: 11 and these fields, the pad as 0.
pub(crate) fn write_flush_fork(out: &mut Bytes, reference: ForkRef) -> Result<(), OutOfMemory>
    ensures put { OnOk result (PutsAll (flush_fork reference).fields out.old out.new) }
    ensures err { OnErr result (Keeps out.old out.new) }
{
    put_command(out, FLUSH_FORK)?;
    put_pad(out)?;
    put_u16(out, reference.0)
}

/// Reads 14 FPGetForkParms: pad, open fork reference number (2), bitmap (2).
pub(crate) fn read_get_fork_parms<'a>(fields: &mut Fields<'a>) -> Result<Call<'a>, ReadFault>
    ensures { Gives get_fork_parms_reader fields.old result }
{
    fields.pad()?;
    let reference = ForkRef(fields.u16()?);
    let bits = fields.u16()?;
    fields.alone()?;
    Ok(Call::GetForkParms { reference, bits })
}

/// Writes FPGetForkParms: 14 and these fields, the pad as 0.
pub(crate) fn write_get_fork_parms(
    out: &mut Bytes,
    reference: ForkRef,
    bits: u16,
) -> Result<(), OutOfMemory>
    ensures put { OnOk result (PutsAll (get_fork_parms reference bits).fields out.old out.new) }
    ensures err { OnErr result (Keeps out.old out.new) }
{
    put_command(out, GET_FORK_PARMS)?;
    put_pad(out)?;
    put_u16(out, reference.0)?;
    put_u16(out, bits)
}

/// Reads 31 FPSetForkParms: pad, open fork reference number (2), bitmap (2), fork length (all that
/// remains).
pub(crate) fn read_set_fork_parms<'a>(
    alloc: Global,
    fields: &mut Fields<'a>,
) -> Result<Call<'a>, ReadFault>
    ensures { Gives set_fork_parms_reader fields.old result }
{
    fields.pad()?;
    let reference = ForkRef(fields.u16()?);
    let bits = fields.u16()?;
    let tail = fields.tail(alloc)?;
    fields.alone()?;
    Ok(Call::SetForkParms {
        reference,
        bits,
        tail,
    })
}

/// Writes FPSetForkParms: 31 and these fields, the pad as 0.
pub(crate) fn write_set_fork_parms(
    out: &mut Bytes,
    reference: ForkRef,
    bits: u16,
    tail: &Bytes,
) -> Result<(), OutOfMemory>
    ensures put { OnOk result
        (PutsAll (set_fork_parms reference bits tail.now).fields out.old out.new) }
    ensures err { OnErr result (Keeps out.old out.new) }
{
    put_command(out, SET_FORK_PARMS)?;
    put_pad(out)?;
    put_u16(out, reference.0)?;
    put_u16(out, bits)?;
    put_bytes(out, tail.as_slice())
}
