//! The requests about tokens of sessions (AFP Reference, "Reconnecting").

ghost use Rattle.std.specs.Prelude.{◌≡◌, ◌<◌, ◌^◌, length, OnOk, OnErr};
ghost use Rattle.afp_calls_grammar.specs.grammar.Token.{get_session_token, get_session_token_reader, disconnect_old_session, disconnect_old_session_reader, has_stamp};
ghost use Rattle.afp_calls_grammar.specs.fields.lemma.Taking.{Gives};
ghost use Rattle.afp_base.specs.Appended.{Keeps};
ghost use Rattle.afp_calls_grammar.specs.fields.Putting.{PutsAll};

use afp_base::{Bytes, OutOfMemory};
use afp_calls_grammar::grammar::commands::{DISCONNECT_OLD_SESSION, GET_SESSION_TOKEN};
use afp_calls_grammar::grammar::kinds::{
    LOGIN_WITH_TIME_AND_ID, LOGIN_WITHOUT_ID, RECONN_WITH_TIME_AND_ID,
};
use afp_calls_grammar::{
    Call, Fields, ReadFault, put_bytes, put_command, put_count, put_long_text, put_optional,
    put_pad, put_u16,
};
use std::alloc::Global;

/// Reads 64 FPGetSessionToken: pad, type (2; 0 to 4), ID length (4), time stamp (4; with types 3
/// and 4 only), ID.
pub(crate) fn read_get_session_token<'a>(
    alloc: Global,
    fields: &mut Fields<'a>,
) -> Result<Call<'a>, ReadFault>
    ensures { Gives get_session_token_reader fields.old result }
{
    fields.pad()?;
    let kind = fields.u16_within(LOGIN_WITHOUT_ID, RECONN_WITH_TIME_AND_ID)?;
    let size = fields.count()?;
    let stamp = fields.optional(has_stamp(kind))?;
    let id = fields.plain(alloc, size)?;
    fields.alone()?;
    Ok(Call::GetSessionToken { kind, stamp, id })
}

/// Writes FPGetSessionToken: 64 and these fields, the pad as 0, the length counted from the ID. The
/// stamp is there or not as the caller hands it in.
pub(crate) fn write_get_session_token(
    out: &mut Bytes,
    kind: u16,
    stamp: Option<u32>,
    id: &Bytes,
) -> Result<(), OutOfMemory>
    requires { length id.now < 256 ^ 4 }
    ensures put { OnOk result (PutsAll (get_session_token kind stamp id.now).fields out.old out.new) }
    ensures err { OnErr result (Keeps out.old out.new) }
{
    put_command(out, GET_SESSION_TOKEN)?;
    put_pad(out)?;
    put_u16(out, kind)?;
    put_count(out, id.as_slice().len())?;
    put_optional(out, stamp)?;
    put_bytes(out, id.as_slice())
}

/// Reads 65 FPDisconnectOldSession: pad, type (2), token length (4), token.
pub(crate) fn read_disconnect_old_session<'a>(
    alloc: Global,
    fields: &mut Fields<'a>,
) -> Result<Call<'a>, ReadFault>
    ensures { Gives disconnect_old_session_reader fields.old result }
{
    fields.pad()?;
    let kind = fields.u16()?;
    let token = fields.long_text(alloc)?;
    fields.alone()?;
    Ok(Call::DisconnectOldSession { kind, token })
}

/// Writes FPDisconnectOldSession: 65 and these fields, the pad as 0, the length counted from the
/// token.
pub(crate) fn write_disconnect_old_session(
    out: &mut Bytes,
    kind: u16,
    token: &Bytes,
) -> Result<(), OutOfMemory>
    requires { length token.now < 256 ^ 4 }
    ensures put { OnOk result (PutsAll (disconnect_old_session kind token.now).fields out.old out.new) }
    ensures err { OnErr result (Keeps out.old out.new) }
{
    put_command(out, DISCONNECT_OLD_SESSION)?;
    put_pad(out)?;
    put_u16(out, kind)?;
    put_long_text(out, token.as_slice())
}

/// Whether a token of that type comes with a time stamp.
fn has_stamp(kind: u16) -> bool
    ensures { result ≡ has_stamp kind }
{
    kind == LOGIN_WITH_TIME_AND_ID || kind == RECONN_WITH_TIME_AND_ID
}
