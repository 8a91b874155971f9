//! The requests about users (AFP Reference, "User Commands").

ghost use Rattle.std.specs.Prelude.{◌≡◌, ◌<◌, ◌^◌, length, OnOk, OnErr};
ghost use Rattle.afp_calls_grammar.specs.grammar.Words.{Counted, counted_field};
ghost use Rattle.afp_calls_grammar.specs.grammar.User.{get_user_info, get_user_info_reader, map_id, map_id_reader, map_name, map_name_reader, name_count};
ghost use Rattle.afp_calls_grammar.specs.fields.Taking.{Takes};
ghost use Rattle.afp_calls_grammar.specs.fields.lemma.Taking.{Gives};
ghost use Rattle.afp_base.specs.Appended.{Keeps};
ghost use Rattle.afp_calls_grammar.specs.fields.Putting.{PutsAll, Puts};

use afp_base::{Bytes, OutOfMemory};
use afp_calls_grammar::grammar::commands::{GET_USER_INFO, MAP_ID, MAP_NAME};
use afp_calls_grammar::grammar::kinds::{FIRST_FUNCTION, LAST_FUNCTION, LAST_UTF8_FUNCTION};
use afp_calls_grammar::{
    Call, Fields, ReadFault, put_command, put_str, put_text, put_u8, put_u16, put_u32,
};
use std::alloc::Global;

/// Reads 37 FPGetUserInfo: flags (1; bit 0 means this user), user ID (4), bitmap (2).
pub(crate) fn read_get_user_info<'a>(fields: &mut Fields<'a>) -> Result<Call<'a>, ReadFault>
    ensures { Gives get_user_info_reader fields.old result }
{
    let flag = fields.u8()?;
    let id = fields.u32()?;
    let bits = fields.u16()?;
    fields.alone()?;
    Ok(Call::GetUserInfo { flag, id, bits })
}

/// Writes FPGetUserInfo: 37 and these fields.
pub(crate) fn write_get_user_info(
    out: &mut Bytes,
    flag: u8,
    id: u32,
    bits: u16,
) -> Result<(), OutOfMemory>
    ensures put { OnOk result (PutsAll (get_user_info flag id bits).fields out.old out.new) }
    ensures err { OnErr result (Keeps out.old out.new) }
{
    put_command(out, GET_USER_INFO)?;
    put_u8(out, flag)?;
    put_u32(out, id)?;
    put_u16(out, bits)
}

/// Reads 21 FPMapID: subfunction (1; 1 to 4), ID (4).
pub(crate) fn read_map_id<'a>(fields: &mut Fields<'a>) -> Result<Call<'a>, ReadFault>
    ensures { Gives map_id_reader fields.old result }
{
    let function = fields.u8_within(FIRST_FUNCTION, LAST_FUNCTION)?;
    let id = fields.u32()?;
    fields.alone()?;
    Ok(Call::MapID { function, id })
}

/// Writes FPMapID: 21 and these fields.
pub(crate) fn write_map_id(out: &mut Bytes, function: u8, id: u32) -> Result<(), OutOfMemory>
    ensures put { OnOk result (PutsAll (map_id function id).fields out.old out.new) }
    ensures err { OnErr result (Keeps out.old out.new) }
{
    put_command(out, MAP_ID)?;
    put_u8(out, function)?;
    put_u32(out, id)
}

/// Reads 22 FPMapName: subfunction (1; 1 to 4), name (count 2 with subfunctions 1 and 2, count 1
/// with 3 and 4; bytes).
pub(crate) fn read_map_name<'a>(
    alloc: Global,
    fields: &mut Fields<'a>,
) -> Result<Call<'a>, ReadFault>
    ensures { Gives map_name_reader fields.old result }
{
    let function = fields.u8_within(FIRST_FUNCTION, LAST_FUNCTION)?;
    let name = name_text(alloc, fields, function)?;
    fields.alone()?;
    Ok(Call::MapName { function, name })
}

/// Writes FPMapName: 22 and these fields. The name is short enough for the count of its
/// subfunction.
pub(crate) fn write_map_name(out: &mut Bytes, function: u8, name: &Bytes) -> Result<(), OutOfMemory>
    requires { length name.now < 256 ^ (name_count function) }
    ensures put { OnOk result (PutsAll (map_name function name.now).fields out.old out.new) }
    ensures err { OnErr result (Keeps out.old out.new) }
{
    put_command(out, MAP_NAME)?;
    put_u8(out, function)?;
    put_name_text(out, function, name.as_slice())
}

/// A name, behind its count, which is wider for the functions that map names in UTF-8.
fn name_text(alloc: Global, fields: &mut Fields<'_>, function: u8) -> Result<Bytes, ReadFault>
    ensures { Takes (Counted (name_count function)) fields.old result fields.new }
{
    if function <= LAST_UTF8_FUNCTION {
        return fields.text(alloc);
    }
    fields.str(alloc)
}

/// A name, behind its count, which is wider for the functions that map names in UTF-8.
fn put_name_text(out: &mut Bytes, function: u8, text: &[u8]) -> Result<(), OutOfMemory>
    requires { length text.now < 256 ^ name_count function }
    ensures put { OnOk result (Puts (counted_field (name_count function) text.now) out.old out.new) }
    ensures err { OnErr result (out.new ≡ out.old) }
{
    if function <= LAST_UTF8_FUNCTION {
        return put_text(out, text);
    }
    put_str(out, text)
}
