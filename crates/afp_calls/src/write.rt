//! Writes requests.
ghost use Rattle.std.specs.Prelude.{◌≡◌, ◌++◌, OnOk, OnErr};
ghost use Rattle.afp_calls_grammar.specs.grammar.Call.{Spells, IsSpellable, IsTypedCall, layout_of, canonical_call, canonical_data, canonical_piece};
ghost use Rattle.afp_base.specs.Appended.{Keeps};
ghost use Rattle.afp_calls_grammar.specs.fields.Putting.{PutsAll};

use afp_base::{Bytes, OutOfMemory};
use afp_calls_desktop::write_desktop_call;
use afp_calls_directory::write_directory_call;
use afp_calls_file::write_file_call;
use afp_calls_fork::write_fork_call;
use afp_calls_grammar::Call;
use afp_calls_grammar::fields::laws::fields_are_put_together;
use afp_calls_grammar::grammar::laws::what_is_written_is_read_again;
use afp_calls_session::write_session_call;
use afp_calls_volume::write_volume_call;
use std::alloc::Global;

/// Appends the canonical spelling of a request: its block, and the bytes that come with it in a
/// Write frame. An error changes nothing.
pub fn write_call(
    alloc: Global,
    call: &Call,
    block: &mut Bytes,
    enclosed: &mut Bytes,
) -> Result<(), OutOfMemory>
    requires { IsSpellable call.now }
    ensures block { OnOk result (block.new ≡ block.old ++ canonical_call call.now) }
    ensures enclosed { OnOk result (enclosed.new ≡ enclosed.old ++ canonical_piece call.now) }
    ensures block_stays { OnErr result (block.new ≡ block.old) }
    ensures enclosed_stays { OnErr result (enclosed.new ≡ enclosed.old) }
    ensures spelt { OnOk result (Spells call.now (canonical_call call.now) (canonical_data call.now)) }
{
    what_is_written_is_read_again();
    let before = block.as_slice().len();
    put_block(alloc, call, block)?;
    match enclosed.extend(piece_of(call)) {
        Ok(()) => Ok(()),
        Err(error) => {
            block.truncate(before);
            Err(error)
        }
    }
}

/// Appends the canonical block of a request. An error changes nothing.
fn put_block(alloc: Global, call: &Call, block: &mut Bytes) -> Result<(), OutOfMemory>
    requires { IsSpellable call.now }
    ensures typed { OnOk result (IsTypedCall call.now) }
    ensures put { OnOk result (block.new ≡ block.old ++ canonical_call call.now) }
    ensures err { OnErr result (block.new ≡ block.old) }
{
    fields_are_put_together();
    let start = block.as_slice().len();
    match put_call(alloc, block, call) {
        Ok(()) => Ok(()),
        Err(error) => {
            block.truncate(start);
            Err(error)
        }
    }
}

/// Appends the canonical block of a request. An error may leave some of it.
fn put_call(alloc: Global, out: &mut Bytes, call: &Call) -> Result<(), OutOfMemory>
    requires { IsSpellable call.now }
    ensures put { OnOk result (PutsAll (layout_of call.now).fields out.old out.new) }
    ensures err { OnErr result (Keeps out.old out.new) }
{
    match write_session_call(out, call) {
        Some(written) => return written,
        None => {}
    }
    match write_volume_call(out, call) {
        Some(written) => return written,
        None => {}
    }
    match write_directory_call(alloc, out, call) {
        Some(written) => return written,
        None => {}
    }
    match write_file_call(alloc, out, call) {
        Some(written) => return written,
        None => {}
    }
    match write_fork_call(alloc, out, call) {
        Some(written) => return written,
        None => {}
    }
    match write_desktop_call(alloc, out, call) {
        Some(written) => written,
        None => Ok(()),
    }
}

/// The piece that comes with a request, or nothing.
#[tactic(auto, unfolding(afp_calls_grammar::specs::grammar::Call::canonical_piece))]
fn piece_of<'a>(call: &'a Call) -> &'a [u8]
    ensures { result.now ≡ canonical_piece call.now }
{
    match call {
        Call::Write { piece, .. } => piece.as_slice(),
        Call::WriteExt { piece, .. } => piece.as_slice(),
        Call::AddIcon { piece, .. } => piece.as_slice(),
        _ => &[],
    }
}
