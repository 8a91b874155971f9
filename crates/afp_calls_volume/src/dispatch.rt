//! The requests about volumes, by their numbers and by their names.
ghost use Rattle.afp_calls_grammar.specs.grammar.Call.{IsSpellable};
ghost use Rattle.afp_calls_grammar.specs.grammar.Group.{Volume};
ghost use Rattle.afp_calls_grammar.specs.grammar.Readers.{volume_readers};
ghost use Rattle.afp_calls_grammar.specs.fields.Taking.{GivesBy};
ghost use Rattle.afp_calls_grammar.specs.fields.Putting.{WritesCall};

use crate::volume::{
    read_close_vol, read_flush, read_get_vol_parms, read_open_vol, read_set_vol_parms,
    write_close_vol, write_flush, write_get_vol_parms, write_open_vol, write_set_vol_parms,
};
use afp_base::{Bytes, OutOfMemory};
use afp_calls_grammar::grammar::commands::{
    CLOSE_VOL, FLUSH, GET_VOL_PARMS, OPEN_VOL, SET_VOL_PARMS,
};
use afp_calls_grammar::{Call, Fields, ReadFault};
use std::alloc::Global;

/// Reads the request of that number, whose fields stand behind it; `Param` where no spelling of it
/// fits, or where none of these requests has the number.
pub fn read_volume_call<'a>(
    alloc: Global,
    command: u8,
    fields: &mut Fields<'a>,
) -> Result<Call<'a>, ReadFault>
    ensures { GivesBy volume_readers command fields.old result }
{
    match command {
        OPEN_VOL => read_open_vol(alloc, fields),
        CLOSE_VOL => read_close_vol(fields),
        GET_VOL_PARMS => read_get_vol_parms(fields),
        SET_VOL_PARMS => read_set_vol_parms(alloc, fields),
        FLUSH => read_flush(fields),
        _ => Err(ReadFault::Param),
    }
}

/// Appends the canonical block of a request; `None` where it is none of these. An error keeps what
/// stood there, and may leave some of the block behind it.
pub fn write_volume_call(out: &mut Bytes, call: &Call) -> Option<Result<(), OutOfMemory>>
    requires { IsSpellable call.now }
    ensures { WritesCall Volume call.now result out.old out.new }
{
    match call {
        Call::OpenVol { bits, name } => Some(write_open_vol(out, *bits, name)),
        Call::CloseVol { volume } => Some(write_close_vol(out, *volume)),
        Call::GetVolParms { volume, bits } => Some(write_get_vol_parms(out, *volume, *bits)),
        Call::SetVolParms { volume, bits, tail } => Some(write_set_vol_parms(
            out, *volume, *bits, tail,
        )),
        Call::Flush { volume } => Some(write_flush(out, *volume)),
        _ => None,
    }
}
