//! The requests about the desktop database, by their numbers and by their names.
ghost use Rattle.afp_calls_grammar.specs.grammar.Call.{IsSpellable};
ghost use Rattle.afp_calls_grammar.specs.grammar.Group.{Desktop};
ghost use Rattle.afp_calls_grammar.specs.grammar.Readers.{desktop_readers};
ghost use Rattle.afp_calls_grammar.specs.fields.Taking.{GivesBy};
ghost use Rattle.afp_calls_grammar.specs.fields.Putting.{WritesCall};

use crate::appl::{
    read_add_appl, read_get_appl, read_remove_appl, write_add_appl, write_get_appl,
    write_remove_appl,
};
use crate::comment::{
    read_add_comment, read_get_comment, read_remove_comment, write_add_comment, write_get_comment,
    write_remove_comment,
};
use crate::database::{read_close_dt, read_open_dt, write_close_dt, write_open_dt};
use crate::icon::{
    read_add_icon, read_get_icon, read_get_icon_info, write_add_icon, write_get_icon,
    write_get_icon_info,
};
use afp_base::{Bytes, OutOfMemory};
use afp_calls_grammar::grammar::commands::{
    ADD_APPL, ADD_COMMENT, ADD_ICON, CLOSE_DT, GET_APPL, GET_COMMENT, GET_ICON, GET_ICON_INFO,
    OPEN_DT, REMOVE_APPL, REMOVE_COMMENT,
};
use afp_calls_grammar::{Call, Fields, ReadFault};
use std::alloc::Global;

/// Reads the request of that number, whose fields stand behind it; `Param` where no spelling of it
/// fits, or where none of these requests has the number.
pub fn read_desktop_call<'a>(
    alloc: Global,
    command: u8,
    fields: &mut Fields<'a>,
) -> Result<Call<'a>, ReadFault>
    ensures { GivesBy desktop_readers command fields.old result }
{
    match command {
        OPEN_DT => read_open_dt(fields),
        CLOSE_DT => read_close_dt(fields),
        ADD_ICON => read_add_icon(fields),
        GET_ICON => read_get_icon(fields),
        GET_ICON_INFO => read_get_icon_info(fields),
        ADD_APPL => read_add_appl(alloc, fields),
        REMOVE_APPL => read_remove_appl(alloc, fields),
        GET_APPL => read_get_appl(fields),
        ADD_COMMENT => read_add_comment(alloc, fields),
        REMOVE_COMMENT => read_remove_comment(alloc, fields),
        GET_COMMENT => read_get_comment(alloc, fields),
        _ => Err(ReadFault::Param),
    }
}

/// Appends the canonical block of a request; `None` where it is none of these. An error keeps what
/// stood there, and may leave some of the block behind it.
pub fn write_desktop_call(
    alloc: Global,
    out: &mut Bytes,
    call: &Call,
) -> Option<Result<(), OutOfMemory>>
    requires { IsSpellable call.now }
    ensures { WritesCall Desktop call.now result out.old out.new }
{
    match call {
        Call::OpenDT { volume } => Some(write_open_dt(out, *volume)),
        Call::CloseDT { dt } => Some(write_close_dt(out, *dt)),
        Call::AddIcon {
            dt,
            creator,
            kind,
            icon_kind,
            tag,
            size,
            ..
        } => Some(write_add_icon(out, *dt, creator, kind, *icon_kind, *tag, *size)),
        Call::GetIcon {
            dt,
            creator,
            kind,
            icon_kind,
            length,
        } => Some(write_get_icon(out, *dt, creator, kind, *icon_kind, *length)),
        Call::GetIconInfo { dt, creator, index } => Some(write_get_icon_info(
            out, *dt, creator, *index,
        )),
        Call::AddAPPL {
            dt,
            dir,
            creator,
            tag,
            path,
        } => Some(write_add_appl(alloc, out, *dt, *dir, creator, *tag, path)),
        Call::RemoveAPPL {
            dt,
            dir,
            creator,
            path,
        } => Some(write_remove_appl(alloc, out, *dt, *dir, creator, path)),
        Call::GetAPPL {
            dt,
            creator,
            index,
            bits,
        } => Some(write_get_appl(out, *dt, creator, *index, *bits)),
        Call::AddComment {
            dt,
            dir,
            path,
            comment,
        } => Some(write_add_comment(alloc, out, *dt, *dir, path, comment)),
        Call::RemoveComment { dt, dir, path } => Some(write_remove_comment(
            alloc, out, *dt, *dir, path,
        )),
        Call::GetComment { dt, dir, path } => Some(write_get_comment(alloc, out, *dt, *dir, path)),
        _ => None,
    }
}
