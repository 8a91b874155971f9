//! What a call is told is kept, so that it is told again.
ghost use Rattle.std.specs.Prelude.{◌≡◌, ◌≤◌, false, length};
ghost use Rattle.afp_serial.specs.Answered.{told_of};
ghost use Rattle.afp_serial.specs.declared.ask.Told.{Told};
ghost use Rattle.afp_serial.specs.KeptAnswers.{block_of, is_kept_code, is_kept_command, kept_answer};
ghost use Rattle.afp_core_state.specs.lemma.KeptWorld.{table_in};
ghost use Rattle.session_table.specs.Sessions.{HasNone};
ghost use Rattle.afp_core_dispatch.specs.lemma.Keeping.{keeps};
ghost use Rattle.afp_core_dispatch.specs.lemma.Requests.{as_request};

use crate::request::Request;
use afp_base::{Code, SessionNumber};
use afp_calls::commands::{DISCONNECT_OLD_SESSION, GET_SESSION_TOKEN, LOGIN, LOGIN_EXT, LOGOUT};
use afp_core_state::State;
use afp_serial::{Answered, Told};
use record_keeper::Keeper;
use replay_cache::{Answer, Request as KeptRequest};

/// The commands whose answers are not kept.
const COMMANDS_NOT_KEPT: [u8; 5] = [
    LOGIN,
    LOGOUT,
    LOGIN_EXT,
    GET_SESSION_TOKEN,
    DISCONNECT_OLD_SESSION,
];

/// Puts an answer that is kept at the front of a buffer, to be told again. It takes no memory.
pub fn put_kept(answer: &Answer, out: &mut [u8]) -> Answered
    requires room { length answer.now.block ≤ length out.old }
    ensures told { told_of result out.new ≡ Told.Reply answer.now.code answer.now.block false }
    ensures length { length out.new ≡ length out.old }
{
    let block = answer.block.as_slice();
    out[..block.len()].copy_from_slice(block);
    Answered::Reply {
        code: answer.code,
        size: block.len(),
        ends: false,
    }
}

/// Keeps what a request was told, where it is to be kept: the block itself, and no copy.
pub fn keep<K: Keeper>(state: &mut State<K>, session: SessionNumber, request: Request, told: Told)
    requires { HasNone (table_in state.old.world) session.0 (as_request request) }
    ensures { state.new ≡ keeps state.old session.0 (kept_answer (as_request request) told) (as_request request) }
{
    let Told::Reply { code, block, .. } = told else {
        return;
    };
    if !is_kept_code(code) {
        return;
    }
    if !is_kept_command(&request) {
        return;
    }
    let Request {
        id,
        write,
        offset,
        payload,
    } = request;
    let kept = KeptRequest {
        id,
        write,
        offset,
        payload,
    };
    state.sessions.keep(session, kept, Answer { code, block });
}

/// Whether a reply with this code is kept.
fn is_kept_code(code: Code) -> bool
    ensures { result ≡ is_kept_code code }
{
    match code {
        Code::MiscErr | Code::NoMemory => false,
        _ => true,
    }
}

/// Whether the answer to a request is kept, by the first byte of its block.
fn is_kept_command(request: &Request) -> bool
    ensures { result ≡ is_kept_command (block_of (as_request request.now)) }
{
    let payload = request.payload.as_slice();
    if request.write {
        is_kept(&payload[..(request.offset as usize).min(payload.len())])
    } else {
        is_kept(payload)
    }
}

/// The same, by the block.
fn is_kept(block: &[u8]) -> bool
    ensures { result ≡ is_kept_command block.now }
{
    match block.first() {
        Some(command) => !COMMANDS_NOT_KEPT.iter().any(|other| *other == *command),
        None => true,
    }
}
