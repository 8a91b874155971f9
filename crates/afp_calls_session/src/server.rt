//! The requests about the server (AFP Reference, "Server Commands").

ghost use Rattle.std.specs.Prelude.{OnOk, OnErr};
ghost use Rattle.afp_calls_grammar.specs.grammar.Server.{get_srvr_info, get_srvr_info_reader, get_srvr_parms, get_srvr_parms_reader, get_srvr_msg, get_srvr_msg_reader};
ghost use Rattle.afp_calls_grammar.specs.fields.lemma.Taking.{Gives};
ghost use Rattle.afp_base.specs.Appended.{Keeps};
ghost use Rattle.afp_calls_grammar.specs.fields.Putting.{PutsAll};

use afp_base::{Bytes, OutOfMemory};
use afp_calls_grammar::grammar::commands::{GET_SRVR_INFO, GET_SRVR_MSG, GET_SRVR_PARMS};
use afp_calls_grammar::{Call, Fields, ReadFault, put_command, put_pad, put_u16};

/// Reads 15 FPGetSrvrInfo: pad, which may be missing.
pub(crate) fn read_get_srvr_info<'a>(fields: &mut Fields<'a>) -> Result<Call<'a>, ReadFault>
    ensures { Gives get_srvr_info_reader fields.old result }
{
    fields.last_pad();
    fields.alone()?;
    Ok(Call::GetSrvrInfo)
}

/// Writes FPGetSrvrInfo: 15 and the pad, as 0.
pub(crate) fn write_get_srvr_info(out: &mut Bytes) -> Result<(), OutOfMemory>
    ensures put { OnOk result (PutsAll get_srvr_info.fields out.old out.new) }
    ensures err { OnErr result (Keeps out.old out.new) }
{
    put_command(out, GET_SRVR_INFO)?;
    put_pad(out)
}

/// Reads 16 FPGetSrvrParms: pad, which may be missing.
pub(crate) fn read_get_srvr_parms<'a>(fields: &mut Fields<'a>) -> Result<Call<'a>, ReadFault>
    ensures { Gives get_srvr_parms_reader fields.old result }
{
    fields.last_pad();
    fields.alone()?;
    Ok(Call::GetSrvrParms)
}

/// Writes FPGetSrvrParms: 16 and the pad, as 0.
pub(crate) fn write_get_srvr_parms(out: &mut Bytes) -> Result<(), OutOfMemory>
    ensures put { OnOk result (PutsAll get_srvr_parms.fields out.old out.new) }
    ensures err { OnErr result (Keeps out.old out.new) }
{
    put_command(out, GET_SRVR_PARMS)?;
    put_pad(out)
}

/// Reads 38 FPGetSrvrMsg: pad, message type (2), message bitmap (2).
pub(crate) fn read_get_srvr_msg<'a>(fields: &mut Fields<'a>) -> Result<Call<'a>, ReadFault>
    ensures { Gives get_srvr_msg_reader fields.old result }
{
    fields.pad()?;
    let kind = fields.u16()?;
    let bits = fields.u16()?;
    fields.alone()?;
    Ok(Call::GetSrvrMsg { kind, bits })
}

/// Writes FPGetSrvrMsg: 38 and these fields, the pad as 0.
pub(crate) fn write_get_srvr_msg(out: &mut Bytes, kind: u16, bits: u16) -> Result<(), OutOfMemory>
    ensures put { OnOk result (PutsAll (get_srvr_msg kind bits).fields out.old out.new) }
    ensures err { OnErr result (Keeps out.old out.new) }
{
    put_command(out, GET_SRVR_MSG)?;
    put_pad(out)?;
    put_u16(out, kind)?;
    put_u16(out, bits)
}
