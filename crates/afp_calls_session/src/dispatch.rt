//! The requests about the session: logging in and out, tokens, and what the server tells of itself and of users, by their numbers and by their names.
ghost use Rattle.afp_calls_grammar.specs.grammar.Call.{IsSpellable};
ghost use Rattle.afp_calls_grammar.specs.grammar.Group.{Session};
ghost use Rattle.afp_calls_grammar.specs.grammar.Readers.{session_readers};
ghost use Rattle.afp_calls_grammar.specs.fields.Taking.{GivesBy};
ghost use Rattle.afp_calls_grammar.specs.fields.Putting.{WritesCall};

use crate::login::{
    read_login, read_login_ext, read_logout, write_login, write_login_ext, write_logout,
};
use crate::server::{
    read_get_srvr_info, read_get_srvr_msg, read_get_srvr_parms, write_get_srvr_info,
    write_get_srvr_msg, write_get_srvr_parms,
};
use crate::token::{
    read_disconnect_old_session, read_get_session_token, write_disconnect_old_session,
    write_get_session_token,
};
use crate::user::{
    read_get_user_info, read_map_id, read_map_name, write_get_user_info, write_map_id,
    write_map_name,
};
use afp_base::{Bytes, OutOfMemory};
use afp_calls_grammar::grammar::commands::{
    DISCONNECT_OLD_SESSION, GET_SESSION_TOKEN, GET_SRVR_INFO, GET_SRVR_MSG, GET_SRVR_PARMS,
    GET_USER_INFO, LOGIN, LOGIN_EXT, LOGOUT, MAP_ID, MAP_NAME,
};
use afp_calls_grammar::{Call, Fields, ReadFault};
use std::alloc::Global;

/// Reads the request of that number, whose fields stand behind it; `Param` where no spelling of it
/// fits, or where none of these requests has the number.
pub fn read_session_call<'a>(
    alloc: Global,
    command: u8,
    fields: &mut Fields<'a>,
) -> Result<Call<'a>, ReadFault>
    ensures { GivesBy session_readers command fields.old result }
{
    match command {
        LOGIN => read_login(alloc, fields),
        LOGIN_EXT => read_login_ext(alloc, fields),
        LOGOUT => read_logout(fields),
        GET_SESSION_TOKEN => read_get_session_token(alloc, fields),
        DISCONNECT_OLD_SESSION => read_disconnect_old_session(alloc, fields),
        GET_SRVR_INFO => read_get_srvr_info(fields),
        GET_SRVR_PARMS => read_get_srvr_parms(fields),
        GET_SRVR_MSG => read_get_srvr_msg(fields),
        GET_USER_INFO => read_get_user_info(fields),
        MAP_ID => read_map_id(fields),
        MAP_NAME => read_map_name(alloc, fields),
        _ => Err(ReadFault::Param),
    }
}

/// Appends the canonical block of a request; `None` where it is none of these. An error keeps what
/// stood there, and may leave some of the block behind it.
pub fn write_session_call(out: &mut Bytes, call: &Call) -> Option<Result<(), OutOfMemory>>
    requires { IsSpellable call.now }
    ensures { WritesCall Session call.now result out.old out.new }
{
    match call {
        Call::Login { version, uam, tail } => Some(write_login(out, version, uam, tail)),
        Call::LoginExt {
            flags,
            version,
            uam,
            name,
            path_kind,
            path,
            tail,
        } => Some(write_login_ext(out, *flags, version, uam, name, *path_kind, path, tail)),
        Call::Logout => Some(write_logout(out)),
        Call::GetSessionToken { kind, stamp, id } => Some(write_get_session_token(
            out, *kind, *stamp, id,
        )),
        Call::DisconnectOldSession { kind, token } => Some(write_disconnect_old_session(
            out, *kind, token,
        )),
        Call::GetSrvrInfo => Some(write_get_srvr_info(out)),
        Call::GetSrvrParms => Some(write_get_srvr_parms(out)),
        Call::GetSrvrMsg { kind, bits } => Some(write_get_srvr_msg(out, *kind, *bits)),
        Call::GetUserInfo { flag, id, bits } => Some(write_get_user_info(out, *flag, *id, *bits)),
        Call::MapID { function, id } => Some(write_map_id(out, *function, *id)),
        Call::MapName { function, name } => Some(write_map_name(out, *function, name)),
        _ => None,
    }
}
