//! The requests about volumes (AFP Reference, "Volume Commands").

ghost use Rattle.std.specs.Prelude.{◌<◌, length, OnOk, OnErr};
ghost use Rattle.afp_calls_grammar.specs.grammar.Volume.{open_vol, open_vol_reader, close_vol, close_vol_reader, get_vol_parms, get_vol_parms_reader, set_vol_parms, set_vol_parms_reader, flush, flush_reader};
ghost use Rattle.afp_calls_grammar.specs.fields.lemma.Taking.{Gives};
ghost use Rattle.afp_base.specs.Appended.{Keeps};
ghost use Rattle.afp_calls_grammar.specs.fields.Putting.{PutsAll};

use afp_base::{Bytes, OutOfMemory, VolumeId};
use afp_calls_grammar::grammar::commands::{
    CLOSE_VOL, FLUSH, GET_VOL_PARMS, OPEN_VOL, SET_VOL_PARMS,
};
use afp_calls_grammar::{
    Call, Fields, ReadFault, put_bytes, put_command, put_pad, put_str, put_u16,
};
use std::alloc::Global;

/// Reads 24 FPOpenVol: pad, bitmap (2), volume name (Pascal string).
pub(crate) fn read_open_vol<'a>(
    alloc: Global,
    fields: &mut Fields<'a>,
) -> Result<Call<'a>, ReadFault>
    ensures { Gives open_vol_reader fields.old result }
{
    fields.pad()?;
    let bits = fields.u16()?;
    let name = fields.str(alloc)?;
    fields.alone()?;
    Ok(Call::OpenVol { bits, name })
}

/// Writes FPOpenVol: 24 and these fields, the pad as 0. The name has at most 255 bytes.
pub(crate) fn write_open_vol(out: &mut Bytes, bits: u16, name: &Bytes) -> Result<(), OutOfMemory>
    requires { length name.now < 256 }
    ensures put { OnOk result (PutsAll (open_vol bits name.now).fields out.old out.new) }
    ensures err { OnErr result (Keeps out.old out.new) }
{
    put_command(out, OPEN_VOL)?;
    put_pad(out)?;
    put_u16(out, bits)?;
    put_str(out, name.as_slice())
}

/// Reads 2 FPCloseVol: pad, volume ID (2).
pub(crate) fn read_close_vol<'a>(fields: &mut Fields<'a>) -> Result<Call<'a>, ReadFault>
    ensures { Gives close_vol_reader fields.old result }
{
    fields.pad()?;
    let volume = VolumeId(fields.u16()?);
    fields.alone()?;
    Ok(Call::CloseVol { volume })
}

/// Writes FPCloseVol: 2 and these fields, the pad as 0.
pub(crate) fn write_close_vol(out: &mut Bytes, volume: VolumeId) -> Result<(), OutOfMemory>
    ensures put { OnOk result (PutsAll (close_vol volume).fields out.old out.new) }
    ensures err { OnErr result (Keeps out.old out.new) }
{
    put_command(out, CLOSE_VOL)?;
    put_pad(out)?;
    put_u16(out, volume.0)
}

/// Reads 17 FPGetVolParms: pad, volume ID (2), bitmap (2).
pub(crate) fn read_get_vol_parms<'a>(fields: &mut Fields<'a>) -> Result<Call<'a>, ReadFault>
    ensures { Gives get_vol_parms_reader fields.old result }
{
    fields.pad()?;
    let volume = VolumeId(fields.u16()?);
    let bits = fields.u16()?;
    fields.alone()?;
    Ok(Call::GetVolParms { volume, bits })
}

/// Writes FPGetVolParms: 17 and these fields, the pad as 0.
pub(crate) fn write_get_vol_parms(
    out: &mut Bytes,
    volume: VolumeId,
    bits: u16,
) -> Result<(), OutOfMemory>
    ensures put { OnOk result (PutsAll (get_vol_parms volume bits).fields out.old out.new) }
    ensures err { OnErr result (Keeps out.old out.new) }
{
    put_command(out, GET_VOL_PARMS)?;
    put_pad(out)?;
    put_u16(out, volume.0)?;
    put_u16(out, bits)
}

/// Reads 32 FPSetVolParms: pad, volume ID (2), bitmap (2), backup date (all that remains).
pub(crate) fn read_set_vol_parms<'a>(
    alloc: Global,
    fields: &mut Fields<'a>,
) -> Result<Call<'a>, ReadFault>
    ensures { Gives set_vol_parms_reader fields.old result }
{
    fields.pad()?;
    let volume = VolumeId(fields.u16()?);
    let bits = fields.u16()?;
    let tail = fields.tail(alloc)?;
    fields.alone()?;
    Ok(Call::SetVolParms { volume, bits, tail })
}

/// Writes FPSetVolParms: 32 and these fields, the pad as 0.
pub(crate) fn write_set_vol_parms(
    out: &mut Bytes,
    volume: VolumeId,
    bits: u16,
    tail: &Bytes,
) -> Result<(), OutOfMemory>
    ensures put { OnOk result (PutsAll (set_vol_parms volume bits tail.now).fields out.old out.new) }
    ensures err { OnErr result (Keeps out.old out.new) }
{
    put_command(out, SET_VOL_PARMS)?;
    put_pad(out)?;
    put_u16(out, volume.0)?;
    put_u16(out, bits)?;
    put_bytes(out, tail.as_slice())
}

/// Reads 10 FPFlush: pad, volume ID (2).
pub(crate) fn read_flush<'a>(fields: &mut Fields<'a>) -> Result<Call<'a>, ReadFault>
    ensures { Gives flush_reader fields.old result }
{
    fields.pad()?;
    let volume = VolumeId(fields.u16()?);
    fields.alone()?;
    Ok(Call::Flush { volume })
}

/// Writes FPFlush: 10 and these fields, the pad as 0.
pub(crate) fn write_flush(out: &mut Bytes, volume: VolumeId) -> Result<(), OutOfMemory>
    ensures put { OnOk result (PutsAll (flush volume).fields out.old out.new) }
    ensures err { OnErr result (Keeps out.old out.new) }
{
    put_command(out, FLUSH)?;
    put_pad(out)?;
    put_u16(out, volume.0)
}
