//! FPGetUserInfo, FPMapID and FPMapName (AFP Reference, under these names).
ghost use Rattle.std.specs.Prelude.{◌≡◌, ◌++◌, ◌<◌, ◌&&◌, ◌||◌, ◌==◌, ℕ, IfOk, OnOk, length, not};
ghost use Rattle.afp_bitmap.specs.Bits.{is_outside};
ghost use Rattle.afp_replies.specs.Numbers.{user_info_mask};
ghost use Rattle.afp_replies.specs.Replies.{canonical_reply};
ghost use Rattle.afp_replies.specs.declared.reply.Reply.{Reply};
ghost use Rattle.afp_calls_grammar.specs.declared.grammar.call.Call.{Call};
ghost use Rattle.afp_serial.specs.GetUserInfo.{asks_own, id_of, user_info};
ghost use Rattle.afp_serial.specs.MapID.{is_utf8_function, name_of_id};
ghost use Rattle.afp_serial.specs.MapName.{id_of_name};
ghost use Rattle.afp_core_state.specs.Running.{RunsRow};

use crate::session::users::{EVERYONE_ID, group_id, group_name, user_id, user_name};
use afp_base::{Bytes, Code, OutOfMemory, SessionNumber};
use afp_bitmap::{is_asked, is_outside};
use afp_core_state::{State, done, refused};
use afp_serial::{Outcome, Told, User};
use record_keeper::Keeper;
use std::alloc::Global;

/// The bits that may be asked of a user.
const USER_INFO_MASK: u16 = 0x0003;

/// The bit that asks for the user's id.
const USER_ID_BIT: u32 = 0;

/// The bit that asks for the id of the user's group.
const GROUP_ID_BIT: u32 = 1;

/// The function that maps the id of a user to its name, or the name to the id.
const USER: u8 = 1;

/// The same of a group.
const GROUP: u8 = 2;

/// The second function about users: FPMapID tells the name in UTF-8.
const UTF8_USER: u8 = 3;

/// The same of a group.
const UTF8_GROUP: u8 = 4;

/// The id of an empty name.
const NO_ID: u32 = 0;

/// Tells the ids of the session's user and of its group.
pub fn get_user_info<K: Keeper>(
    state: &State<K>,
    session: SessionNumber,
    flag: u8,
    id: u32,
    bits: u16,
) -> Result<(Told, Outcome), OutOfMemory>
    ensures { RunsRow state.now session.0 (Call.GetUserInfo flag id bits) result state.now }
{
    let own = id_of(state.sessions.user(session));
    if are_refused(bits) {
        return Ok((refused(state.alloc, Code::BitmapErr), Outcome::Done));
    }
    if is_another(flag, id, own) {
        return Ok((refused(state.alloc, Code::ItemNotFound), Outcome::Done));
    }
    let mut block = Bytes::new(state.alloc);
    put_user_info(&mut block, bits, own)?;
    Ok((done(block), Outcome::Done))
}

/// The id of a session's user.
fn id_of(user: Option<u32>) -> u32
    ensures { result ≡ id_of user }
{
    user.unwrap_or(NO_ID)
}

/// Whether no bit is asked, or one that a user has not.
fn are_refused(bits: u16) -> bool
    ensures { result ≡ (is_outside user_info_mask bits || (bits == 0)) }
{
    is_outside(USER_INFO_MASK, bits) || bits == 0
}

/// Whether another user is asked about than the session's own.
fn is_another(flag: u8, id: u32, own: u32) -> bool
    ensures { result ≡ (not (asks_own flag) && not (id == own)) }
{
    !asks_own(flag) && id != own
}

/// Whether the flag asks of the session's own user.
fn asks_own(flag: u8) -> bool
    ensures { result ≡ asks_own flag }
{
    flag & 0x01 != 0
}

/// Appends the bits, and the ids for which they ask.
fn put_user_info(block: &mut Bytes, bits: u16, id: u32) -> Result<(), OutOfMemory>
    ensures { OnOk result (block.new ≡ block.old ++ canonical_reply (user_info bits id)) }
{
    block.push_u16(bits)?;
    if is_asked(bits, USER_ID_BIT) {
        block.push_u32(id)?;
    }
    if is_asked(bits, GROUP_ID_BIT) {
        block.push_u32(EVERYONE_ID)?;
    }
    Ok(())
}

/// Tells the name of a user or a group.
pub fn map_id<K: Keeper>(
    state: &State<K>,
    function: u8,
    id: u32,
) -> Result<(Told, Outcome), OutOfMemory>
    ensures { (number : ℕ) → RunsRow state.now number (Call.MapID function id) result state.now }
{
    let Some(name) = name_of_id(state.alloc, state.house.users(), function, id)? else {
        return Ok((refused(state.alloc, Code::ItemNotFound), Outcome::Done));
    };
    let mut block = Bytes::new(state.alloc);
    put_name(&mut block, is_utf8_function(function), name.as_slice())?;
    Ok((done(block), Outcome::Done))
}

/// A copy of the name of an id, where one has it: a user's or a group's, by the function. The one error is want of memory.
fn name_of_id(
    alloc: Global,
    users: &[User],
    function: u8,
    id: u32,
) -> Result<Option<Bytes>, OutOfMemory>
    ensures { IfOk result (λ name. name ≡ name_of_id users.now function id) }
{
    match function {
        USER | UTF8_USER => user_name(alloc, users, id),
        GROUP | UTF8_GROUP => group_name(alloc, id),
        _ => Ok(None),
    }
}

/// Whether the function tells names behind a count of 2 bytes.
fn is_utf8_function(function: u8) -> bool
    ensures { result ≡ is_utf8_function function }
{
    function == UTF8_USER || function == UTF8_GROUP
}

/// Appends a name behind a count of 2 bytes, or of 1.
fn put_name(block: &mut Bytes, wide: bool, name: &[u8]) -> Result<(), OutOfMemory>
    requires { length name.now < 256 }
    ensures { OnOk result (block.new ≡ block.old ++ canonical_reply (Reply.MappedName wide name.now)) }
{
    if wide {
        block.push_u16(name.len() as u16)?;
    } else {
        block.push_u8(name.len() as u8)?;
    }
    block.extend(name)
}

/// Tells the id of the user or the group of a name.
pub fn map_name<K: Keeper>(
    state: &State<K>,
    function: u8,
    name: &[u8],
) -> Result<(Told, Outcome), OutOfMemory>
    ensures { (number : ℕ) → RunsRow state.now number (Call.MapName function name.now) result state.now }
{
    let Some(id) = id_of_name(state.house.users(), function, name) else {
        return Ok((refused(state.alloc, Code::ItemNotFound), Outcome::Done));
    };
    let mut block = Bytes::new(state.alloc);
    block.push_u32(id)?;
    Ok((done(block), Outcome::Done))
}

/// The id of a name, where one has it: a user's or a group's, by the function, and 0 of an empty name.
fn id_of_name(users: &[User], function: u8, name: &[u8]) -> Option<u32>
    ensures { result ≡ id_of_name users.now function name.now }
{
    if name.is_empty() {
        return Some(NO_ID);
    }
    if function == USER || function == UTF8_USER {
        user_id(users, name)
    } else {
        group_id(name)
    }
}
