//! FPWrite and FPWriteExt (AFP Reference, under these names).
ghost use Rattle.std.specs.Int.{is_negative};
ghost use Rattle.std.specs.Prelude.{◌≡◌, ◌+◌, ℕ, ℤ, true, false, length, IfOk};
ghost use Rattle.afp_base.specs.Choice.{first_holding};
ghost use Rattle.afp_replies.specs.Replies.{canonical_reply};
ghost use Rattle.afp_calls_grammar.specs.declared.grammar.call.Call.{Call};
ghost use Rattle.afp_serial.specs.ForkBytes.{is_from_end, writes};
ghost use Rattle.afp_serial.specs.Rows.{ends_session, row};
ghost use Rattle.afp_serial.specs.World.{is_open, OpenFork};
ghost use Rattle.afp_core_calls.specs.fork.lemma.OnForkBytes.{HasRoom, IsOffset, end_reply, write_asked, write_checks};
ghost use Rattle.afp_core_state.specs.Running.{IsReady, RunsRow};

use crate::fork::on_bytes::{is_from_end, is_locked, number_block, start_on};
use afp_base::laws::splice_puts_between;
use afp_base::{Bytes, Code, ForkRef, OutOfMemory, SessionNumber};
use afp_core_state::{OwnFork, State, latest, refused, run_plan, whole_at};
use afp_serial::{Outcome, Told};
use record_keeper::Keeper;
use std::alloc::Global;
use volume_keeper::plan_fork_write;
use volume_spec::laws::forks_are_given_bytes;

/// The place behind a piece, as a reply tells it.
fn end_block(alloc: Global, wide: bool, start: u64, piece: &[u8]) -> Result<Bytes, OutOfMemory>
    ensures { IfOk result (λ block. HasRoom wide (start + length piece.now) → block ≡ canonical_reply (end_reply wide (start + length piece.now))) }
{
    number_block(alloc, wide, start.saturating_add(piece.len() as u64))
}

/// Writes a piece into a fork that the session has open. An error is want of memory, and nothing has changed.
pub fn write<K: Keeper>(
    state: &mut State<K>,
    session: SessionNumber,
    flag: u8,
    reference: ForkRef,
    offset: i32,
    piece: &[u8],
) -> Result<(Told, Outcome), OutOfMemory>
    requires { IsReady state.old.world }
    ensures { (count : ℕ) → RunsRow state.old session.0 (Call.Write flag reference offset count piece.now) result state.new }
{
    write_piece(
        state,
        session,
        flag,
        reference,
        i64::from(offset),
        false,
        piece,
    )
}

/// Writes a piece into a fork that the session has open. Its count is a number with a sign.
/// An error is want of memory, and nothing has changed.
pub fn write_ext<K: Keeper>(
    state: &mut State<K>,
    session: SessionNumber,
    flag: u8,
    reference: ForkRef,
    offset: i64,
    count: i64,
    piece: &[u8],
) -> Result<(Told, Outcome), OutOfMemory>
    requires { IsReady state.old.world }
    ensures { RunsRow state.old session.0 (Call.WriteExt flag reference offset count piece.now) result state.new }
{
    if count < 0 {
        return Ok((refused(state.alloc, Code::ParamErr), Outcome::Done));
    }
    write_piece(state, session, flag, reference, offset, true, piece)
}

/// What the two share: a call whose row is this write.
fn write_piece<K: Keeper>(
    state: &mut State<K>,
    session: SessionNumber,
    flag: u8,
    reference: ForkRef,
    offset: i64,
    wide: bool,
    piece: &[u8],
) -> Result<(Told, Outcome), OutOfMemory>
    requires { IsReady state.old.world }
    ensures { (call : Call) (count : ℤ) → row call ≡ writes reference.0 (write_asked flag offset count piece.now) (end_reply wide) → ends_session call ≡ false
        → is_negative count ≡ false → IsOffset wide offset → RunsRow state.old session.0 call result state.new }
{
    splice_puts_between();
    forks_are_given_bytes();
    let Some(own) = state.fork_at(session, reference) else {
        return Ok((refused(state.alloc, Code::ParamErr), Outcome::Done));
    };
    let kept = state.kept_at(own.index);
    let Some(start) = start_on(kept, &own.fork, is_from_end(flag), offset) else {
        return Ok((refused(state.alloc, Code::ParamErr), Outcome::Done));
    };
    if let Some(code) = write_refused(state, reference, &own, start, piece) {
        return Ok((refused(state.alloc, code), Outcome::Done));
    }
    let Ok(block) = end_block(state.alloc, wide, start, piece) else {
        return Err(OutOfMemory);
    };
    let whole = whole_at(state, own.index);
    let answer = plan_fork_write(state.alloc, whole, latest(state), &own.fork, start, piece);
    run_plan(state, own.index, answer, block)
}

/// Why a piece may not be written into an open fork: its access mode, or a lock of another reference.
fn write_refused<K: Keeper>(
    state: &State<K>,
    reference: ForkRef,
    own: &OwnFork,
    start: u64,
    piece: &[u8],
) -> Option<Code>
    requires { is_open state.now.world.opens reference.0 ≡ true }
    ensures { (o : OpenFork) → o.reference ≡ reference.0 → o.access ≡ own.now.mode → result ≡ first_holding (write_checks state.now.world o start (length piece.now)) }
{
    if !own.mode.write {
        return Some(Code::AccessDenied);
    }
    if is_locked(state, reference, start, piece.len() as u64) {
        return Some(Code::LockErr);
    }
    None
}
