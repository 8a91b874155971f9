//! FPGetSrvrInfo, FPGetSrvrParms and FPGetSrvrMsg (AFP Reference, under these names).
ghost use Rattle.std.specs.Prelude.{◌≡◌, ◌++◌, ◌<◌, ◌≤◌, ℕ, All, IfOk, List, None, OnOk, Some, if◌then◌else◌, flat_map, length, map, pos};
ghost use Rattle.afp_bitmap.specs.Bits.{is_asked};
ghost use Rattle.afp_replies.specs.Numbers.{message_bit};
ghost use Rattle.afp_replies.specs.Replies.{canonical_reply, volume_bytes};
ghost use Rattle.afp_replies.specs.declared.reply.Reply.{Reply};
ghost use Rattle.afp_calls_grammar.specs.declared.grammar.call.Call.{Call};
ghost use Rattle.afp_serial.specs.GetSrvrMsg.{message_since};
ghost use Rattle.afp_serial.specs.GetSrvrParms.{volume_entry};
ghost use Rattle.afp_core_state.specs.Running.{RunsRow};

use afp_base::{Bytes, Code, Moment, OutOfMemory};
use afp_bitmap::{is_asked, is_outside};
use afp_core_state::{State, done, refused};
use afp_serial::{Outcome, Told};
use record_keeper::Keeper;
use std::alloc::Global;

/// The flags of a volume that has neither a password nor configuration information.
const NO_VOLUME_FLAGS: u8 = 0;

/// The type of the message at login.
const LOGIN_MESSAGE: u16 = 0;

/// The type of the server's message, which is the last one.
const SERVER_MESSAGE: u16 = 1;

/// What the server says once it is about to stop.
const CLOSING_MESSAGE: &str = "The server is closing.";

/// The bits that may be asked of a message.
const MESSAGE_MASK: u16 = 0x0003;

/// The bit that asks for the message.
const MESSAGE_BIT: u32 = 0;

/// The bit that asks for a count of 2 bytes before it.
const UTF8_BIT: u32 = 1;

/// Tells the status block.
pub fn get_srvr_info<K: Keeper>(state: &State<K>) -> Result<(Told, Outcome), OutOfMemory>
    ensures { (number : ℕ) → RunsRow state.now number Call.GetSrvrInfo result state.now }
{
    let block = state.house.status(state.alloc)?;
    Ok((done(block), Outcome::Done))
}

/// Tells the server's time and its volumes.
pub fn get_srvr_parms<K: Keeper>(state: &State<K>) -> Result<(Told, Outcome), OutOfMemory>
    ensures { (number : ℕ) → RunsRow state.now number Call.GetSrvrParms result state.now }
{
    let mut block = Bytes::new(state.alloc);
    put_server_parms(&mut block, state.latest, state.house.volumes())?;
    Ok((done(block), Outcome::Done))
}

/// Appends the time, and the volumes with their number.
fn put_server_parms(block: &mut Bytes, now: Moment, volumes: &[Bytes]) -> Result<(), OutOfMemory>
    requires few { length volumes.now < 256 }
    requires short { All (λ name. length name < 256) volumes.now }
    ensures { OnOk result (block.new ≡ block.old ++ canonical_reply (Reply.ServerParams (pos now) (map volume_entry volumes.now))) }
{
    block.push_u32(now.seconds())?;
    block.push_u8(volumes.len() as u8)?;
    put_volumes(block, volumes)
}

/// Appends the volumes.
fn put_volumes(block: &mut Bytes, volumes: &[Bytes]) -> Result<(), OutOfMemory>
    requires { All (λ name. length name < 256) volumes.now }
    ensures { OnOk result (block.new ≡ block.old ++ flat_map (λ name. volume_bytes (volume_entry name)) volumes.now) }
{
    for volume in volumes {
        put_volume(block, volume.as_slice())?;
    }
    Ok(())
}

/// Appends a volume: its flags, and its name behind a count of 1 byte.
fn put_volume(block: &mut Bytes, name: &[u8]) -> Result<(), OutOfMemory>
    requires { length name.now < 256 }
    ensures { OnOk result (block.new ≡ block.old ++ volume_bytes (volume_entry name.now)) }
{
    block.push_u8(NO_VOLUME_FLAGS)?;
    block.push_u8(name.len() as u8)?;
    block.extend(name)
}

/// Tells the message at login, or the server's.
pub fn get_srvr_msg<K: Keeper>(
    state: &State<K>,
    kind: u16,
    bits: u16,
) -> Result<(Told, Outcome), OutOfMemory>
    ensures { (number : ℕ) → RunsRow state.now number (Call.GetSrvrMsg kind bits) result state.now }
{
    if kind > SERVER_MESSAGE {
        return Ok((refused(state.alloc, Code::ParamErr), Outcome::Done));
    }
    if is_outside(MESSAGE_MASK, bits) {
        return Ok((refused(state.alloc, Code::BitmapErr), Outcome::Done));
    }
    let text = if kind == LOGIN_MESSAGE {
        state.house.message()
    } else {
        message_since(state.drain)
    };
    let mut block = Bytes::new(state.alloc);
    put_message(&mut block, kind, bits, text)?;
    Ok((done(block), Outcome::Done))
}

/// What the server says since it is about to stop, and before that nothing.
fn message_since(drain: Option<Moment>) -> &'static [u8]
    ensures { result.now ≡ message_since drain }
{
    match drain {
        Some(_) => CLOSING_MESSAGE.as_bytes(),
        None => &[],
    }
}

/// Appends a message with its type and the bits that ask for it, where they do.
fn put_message(block: &mut Bytes, kind: u16, bits: u16, text: &[u8]) -> Result<(), OutOfMemory>
    requires { length text.now < 256 }
    ensures { OnOk result (block.new ≡ block.old ++ canonical_reply (Reply.Message kind bits (if is_asked bits message_bit then Some text.now else None))) }
{
    block.push_u16(kind)?;
    block.push_u16(bits)?;
    if !is_asked(bits, MESSAGE_BIT) {
        return Ok(());
    }
    if is_asked(bits, UTF8_BIT) {
        block.push_u16(text.len() as u16)?;
    } else {
        block.push_u8(text.len() as u8)?;
    }
    block.extend(text)
}
