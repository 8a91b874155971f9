//! The steps by which a request is decided before its call's row.
ghost use Rattle.std.specs.Prelude.{◌≡◌, if◌then◌else◌};
ghost use Rattle.std.specs.Option.{option_copied};
ghost use Rattle.afp_base.specs.declared.code.Code.TheVariants.{CallNotSupported, UserNotAuth};
ghost use Rattle.afp_calls_grammar.specs.grammar.Spelt.{is_command};
ghost use Rattle.afp_serial.specs.Answer.{needs_user};
ghost use Rattle.afp_core_dispatch.specs.lemma.Requests.{as_request};
ghost use Rattle.afp_core_dispatch.specs.lemma.Spelling.{IsJudged, IsSpelled};

use crate::request::Request;
use afp_base::Code;
use afp_calls::commands::{GET_SRVR_INFO, LOGIN, LOGIN_EXT, LOGOUT};
use afp_calls::{Call, ReadFault, is_command, read_call};
use std::alloc::Global;

/// The commands that ask for no user.
const COMMANDS_WITHOUT_USER: [u8; 4] = [GET_SRVR_INFO, LOGIN, LOGOUT, LOGIN_EXT];

/// Why a request comes to no call: it is refused, or there is no memory.
#[derive(Clone, Copy, Debug, PartialEq, Eq)]
pub enum Stop {
    Refused(Code),
    Memory,
}

/// The call that a request of a session spells; `has_user`: somebody has logged in to the session.
pub fn spelled_call<'a>(
    alloc: Global,
    has_user: bool,
    request: &'a Request,
) -> Result<Call<'a>, Stop>
    ensures { IsSpelled has_user (as_request request.now) result }
{
    let payload = request.payload.as_slice();
    if request.write {
        let (block, data) = payload.split_at((request.offset as usize).min(payload.len()));
        judged_call(alloc, has_user, block, Some(data))
    } else {
        judged_call(alloc, has_user, payload, None)
    }
}

/// The same of a block, and the bytes that are enclosed in a Write. The command is found once: by the reader of its fields, or, where a user is missing,
/// for the code.
fn judged_call<'a>(
    alloc: Global,
    has_user: bool,
    block: &'a [u8],
    enclosed: Option<&'a [u8]>,
) -> Result<Call<'a>, Stop>
    ensures { IsJudged has_user block.now (option_copied enclosed.entry) result }
{
    let Some(command) = block.first() else {
        return Err(Stop::Refused(Code::ParamErr));
    };
    if !has_user && needs_user(*command) {
        return Err(Stop::Refused(code_without_user(*command)));
    }
    match read_call(alloc, block, enclosed) {
        Ok(call) => Ok(call),
        Err(ReadFault::NotSupported) => Err(Stop::Refused(Code::CallNotSupported)),
        Err(ReadFault::Param) => Err(Stop::Refused(Code::ParamErr)),
        Err(ReadFault::Memory) => Err(Stop::Memory),
    }
}

/// Why a command that asks for a user is refused where there is none: a command that is none is told first.
fn code_without_user(command: u8) -> Code
    ensures { result ≡ (if is_command command then UserNotAuth else CallNotSupported) }
{
    if is_command(command) {
        Code::UserNotAuth
    } else {
        Code::CallNotSupported
    }
}

/// Whether a command asks for a user.
fn needs_user(command: u8) -> bool
    ensures { result ≡ needs_user command }
{
    !COMMANDS_WITHOUT_USER.iter().any(|other| *other == command)
}
