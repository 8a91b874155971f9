//! Which calls a client can be asked.
ghost use Rattle.std.specs.Prelude.{◌≡◌, ◌↔◌, ◌+◌, ◌^◌, ◌≤◌, true, false, length, IsTrue, IfOk};
ghost use Rattle.afp_base.specs.Limits.{payload_limit};
ghost use Rattle.afp_calls_grammar.specs.grammar.Call.{IsSpellable};
ghost use Rattle.afp_calls_grammar.specs.grammar.ForkBytes.{piece_size};
ghost use Rattle.afp_calls_grammar.specs.grammar.User.{name_count};
ghost use Rattle.afp_client.specs.session.State.{is_of_opening};
ghost use Rattle.once_across_breaks_live.specs.Skips.{CanBeAsked};

use afp_base::{Bytes, MAX_PAYLOAD, OutOfMemory};
use afp_calls::write_call;
use afp_calls_grammar::Call;
use afp_calls_grammar::grammar::kinds::{FIRST_FUNCTION, LAST_FUNCTION, LAST_UTF8_FUNCTION};
use std::alloc::Global;
use volume_spec::bytes_in_range;

/// The most bytes that a count of 1 byte tells, and of 2 bytes.
const SHORT_TEXT: usize = 255;

const LONG_TEXT: usize = 65_535;

/// Whether a call belongs to the opening of a link.
fn is_of_opening(call: &Call) -> bool
    ensures { result ≡ is_of_opening call.now }
{
    match call {
        Call::Login { .. } => true,
        Call::LoginExt { .. } => true,
        Call::GetSessionToken { .. } => true,
        Call::DisconnectOldSession { .. } => true,
        _ => false,
    }
}

/// Four bytes are four. The call does nothing.
fn four_bytes(bytes: &[u8; 4])
    ensures { length bytes.now ≡ 4 }
{}

/// How many bytes a signed count asks for: none where it is negative.
fn piece_size(count: i64) -> u64
    ensures { result ≡ piece_size count }
{
    if count < 0 { 0 } else { count as u64 }
}

/// How long a name of FPMapName may be, by its function.
fn longest_name(function: u8) -> usize
    ensures { result + 1 ≡ 256 ^ name_count function }
{
    if function <= LAST_UTF8_FUNCTION {
        LONG_TEXT
    } else {
        SHORT_TEXT
    }
}

/// Whether some bytes spell a call that belongs to no opening.
fn is_spelt(call: &Call) -> bool
    requires { is_of_opening call.now ≡ false }
    ensures sound { result ≡ true → IsSpellable call.now }
    ensures whole { IsSpellable call.now → result ≡ true }
{
    match call {
        Call::MapID { function, .. } => FIRST_FUNCTION <= *function && *function <= LAST_FUNCTION,
        Call::MapName { function, name } => {
            FIRST_FUNCTION <= *function
                && *function <= LAST_FUNCTION
                && name.as_slice().len() <= longest_name(*function)
        }
        Call::OpenVol { name, .. } => name.as_slice().len() <= SHORT_TEXT,
        Call::AddComment { comment, .. } => comment.as_slice().len() <= SHORT_TEXT,
        Call::Write { count, piece, .. } => piece.as_slice().len() == *count as usize,
        Call::WriteExt { count, piece, .. } => {
            piece.as_slice().len() as u64 == piece_size(*count)
        }
        Call::AddIcon {
            creator,
            kind,
            size,
            piece,
            ..
        } => {
            four_bytes(creator);
            four_bytes(kind);
            piece.as_slice().len() == *size as usize
        }
        Call::GetIcon { creator, kind, .. } => {
            four_bytes(creator);
            four_bytes(kind);
            true
        }
        Call::GetIconInfo { creator, .. } => {
            four_bytes(creator);
            true
        }
        Call::AddAPPL { creator, .. } => {
            four_bytes(creator);
            true
        }
        Call::RemoveAPPL { creator, .. } => {
            four_bytes(creator);
            true
        }
        Call::GetAPPL { creator, .. } => {
            four_bytes(creator);
            true
        }
        _ => true,
    }
}

/// Whether a client that is ready can be asked this call: it belongs to no opening, some bytes spell it, and a frame can carry them. The one
/// error is want of memory.
pub fn is_askable(alloc: Global, call: &Call) -> Result<bool, OutOfMemory>
    ensures { IfOk result (λ is. IsTrue is ↔ CanBeAsked call.now) }
{
    if is_of_opening(call) {
        return Ok(false);
    }
    if !is_spelt(call) {
        return Ok(false);
    }
    let mut block = Bytes::new(alloc);
    let mut piece = Bytes::new(alloc);
    write_call(alloc, call, &mut block, &mut piece)?;
    bytes_in_range(block.as_slice());
    bytes_in_range(piece.as_slice());
    Ok(fits_frame(block.as_slice().len(), piece.as_slice().len()))
}

/// Whether a frame can carry so many bytes of a block and of a piece.
fn fits_frame(block: usize, piece: usize) -> bool
    ensures { IsTrue result ↔ (block + piece ≤ payload_limit) }
{
    let most = MAX_PAYLOAD as usize;
    block <= most && piece <= most - block
}
