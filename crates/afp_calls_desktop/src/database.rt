//! The requests about the desktop database (AFP Reference, "Desktop Database Commands").

ghost use Rattle.std.specs.Prelude.{OnOk, OnErr};
ghost use Rattle.afp_calls_grammar.specs.grammar.Database.{open_dt, open_dt_reader, close_dt, close_dt_reader};
ghost use Rattle.afp_calls_grammar.specs.fields.lemma.Taking.{Gives};
ghost use Rattle.afp_base.specs.Appended.{Keeps};
ghost use Rattle.afp_calls_grammar.specs.fields.Putting.{PutsAll};

use afp_base::{Bytes, OutOfMemory, VolumeId};
use afp_calls_grammar::grammar::commands::{CLOSE_DT, OPEN_DT};
use afp_calls_grammar::{Call, Fields, ReadFault, put_command, put_pad, put_u16};

/// Reads 48 FPOpenDT: pad, volume ID (2).
pub(crate) fn read_open_dt<'a>(fields: &mut Fields<'a>) -> Result<Call<'a>, ReadFault>
    ensures { Gives open_dt_reader fields.old result }
{
    fields.pad()?;
    let volume = VolumeId(fields.u16()?);
    fields.alone()?;
    Ok(Call::OpenDT { volume })
}

/// Writes FPOpenDT: 48 and these fields, the pad as 0.
pub(crate) fn write_open_dt(out: &mut Bytes, volume: VolumeId) -> Result<(), OutOfMemory>
    ensures put { OnOk result (PutsAll (open_dt volume).fields out.old out.new) }
    ensures err { OnErr result (Keeps out.old out.new) }
{
    put_command(out, OPEN_DT)?;
    put_pad(out)?;
    put_u16(out, volume.0)
}

/// Reads 49 FPCloseDT: pad, desktop database reference number (2).
pub(crate) fn read_close_dt<'a>(fields: &mut Fields<'a>) -> Result<Call<'a>, ReadFault>
    ensures { Gives close_dt_reader fields.old result }
{
    fields.pad()?;
    let dt = fields.u16()?;
    fields.alone()?;
    Ok(Call::CloseDT { dt })
}

/// Writes FPCloseDT: 49 and these fields, the pad as 0.
pub(crate) fn write_close_dt(out: &mut Bytes, dt: u16) -> Result<(), OutOfMemory>
    ensures put { OnOk result (PutsAll (close_dt dt).fields out.old out.new) }
    ensures err { OnErr result (Keeps out.old out.new) }
{
    put_command(out, CLOSE_DT)?;
    put_pad(out)?;
    put_u16(out, dt)
}
