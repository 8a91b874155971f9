//! FPByteRangeLock and FPByteRangeLockExt (AFP Reference, under these names).
ghost use Rattle.std.specs.Prelude.{◌≡◌, ◌&&◌, ℤ, Some, not, true, false};
ghost use Rattle.afp_serial.specs.ForkBytes.{is_from_end};
ghost use Rattle.afp_calls_grammar.specs.declared.grammar.call.Call.{Call};
ghost use Rattle.afp_serial.specs.Lock.{lock_asked, locks, range_asked, range_of, range_to};
ghost use Rattle.afp_serial.specs.OnFork.{OpenFile};
ghost use Rattle.afp_serial.specs.Rows.{ends_session, row};
ghost use Rattle.afp_serial.specs.World.{is_open, OpenFork};
ghost use Rattle.volume_spec.specs.ForkEffect.{fork_of};
ghost use Rattle.volume_spec.specs.SoundVolume.{has_file};
ghost use Rattle.volume_spec.specs.VolumeState.{Row};
ghost use Rattle.volume_spec.specs.Walk.{row_at};
ghost use Rattle.afp_core_calls.specs.fork.lemma.OnForkBytes.{BecomesForks, IsFew, IsOffset, IsPlace, TellsLocked, TellsUnlocked, start_reply};
ghost use Rattle.afp_core_state.specs.lemma.KeptWorld.{forks_in};
ghost use Rattle.afp_core_state.specs.Running.{IsReady, RunsRow};
ghost use Rattle.afp_core_state.specs.Forks.{LocksRange, UnlocksRange};

use crate::fork::on_bytes::{is_from_end, number_block, start_on};
use afp_base::{Bytes, Code, ForkRef, LAST_BYTE, OutOfMemory, SessionNumber};
use afp_core_state::{State, done, refused};
use afp_serial::{Outcome, Told};
use deny_modes::ForkKey;
use range_locks::{LockFault, NotLocked, Range};
use record_keeper::Keeper;
use std::alloc::Global;
use volume_keeper::KeptVolume;

/// The flag that unlocks (AFP Reference, "FPByteRangeLock").
const UNLOCK: u8 = 0x01;

/// A length of which all bits are set: up to the last byte.
const TO_LAST_BYTE: i64 = -1;

/// Whether a range is to be unlocked.
fn unlocks(flags: u8) -> bool
    ensures { (offset length : ℤ) → result ≡ (lock_asked flags offset length).unlocks }
{
    flags & UNLOCK != 0
}

/// Whether a start counts from the end of the fork, which does not matter in unlocking.
fn counts_from_end(flags: u8) -> bool
    ensures { (offset length : ℤ) → result ≡ (is_from_end flags && not (lock_asked flags offset length).unlocks) }
{
    is_from_end(flags) && !unlocks(flags)
}

/// The bytes between two places, both included: `None` where one of them is behind the last byte.
fn range_to(from: u64, to: u64) -> Option<Range>
    ensures { result ≡ range_to from to }
{
    if from <= to && to <= LAST_BYTE {
        Some(Range { from, to })
    } else {
        None
    }
}

/// The range of a start and a length.
fn range_of(start: Option<u64>, length: i64) -> Option<Range>
    ensures { (z : ℤ) → IsPlace z start → result ≡ range_of z length }
{
    let Some(from) = start else {
        return None;
    };
    if length == TO_LAST_BYTE {
        return range_to(from, LAST_BYTE);
    }
    if length <= 0 || from > LAST_BYTE {
        return None;
    }
    range_to(from, from + (length as u64 - 1))
}

/// The range that is to be locked or unlocked in a fork of a file.
fn range_asked<K: Keeper>(
    kept: &KeptVolume<K>,
    fork: &ForkKey,
    flags: u8,
    offset: i64,
    length: i64,
) -> Option<Range>
    requires file { has_file kept.now.state.rows fork.now.node ≡ true }
    ensures range { (f : OpenFile) → row_at kept.now.state.rows fork.now.node ≡ Some f.file → f.fork.fork ≡ fork.now → result ≡ range_asked f (lock_asked flags offset length) }
    ensures few { (file : Row) → row_at kept.now.state.rows fork.now.node ≡ Some file → IsFew (fork_of fork.now.resource file) }
{
    range_of(start_on(kept, fork, counts_from_end(flags), offset), length)
}

/// What is told of a lock: `block`, where it is set.
fn told_locked(
    alloc: Global,
    answer: Result<(), LockFault>,
    block: Bytes,
) -> Result<(Told, Outcome), OutOfMemory>
    ensures { TellsLocked answer block result }
{
    match answer {
        Ok(()) => Ok((done(block), Outcome::Done)),
        Err(LockFault::Locked) => Ok((refused(alloc, Code::LockErr), Outcome::Done)),
        Err(LockFault::Overlap) => Ok((refused(alloc, Code::RangeOverlap), Outcome::Done)),
        Err(LockFault::Full) => Ok((refused(alloc, Code::NoMoreLocks), Outcome::Done)),
        Err(LockFault::Memory) => Err(OutOfMemory),
    }
}

/// What is told of a lock that is taken away: `block`, where there was one.
fn told_unlocked(alloc: Global, answer: Result<(), NotLocked>, block: Bytes) -> Told
    ensures { TellsUnlocked answer block result }
{
    match answer {
        Ok(()) => done(block),
        Err(NotLocked) => refused(alloc, Code::RangeNotLocked),
    }
}

/// Locks or unlocks a range of a fork that the session has open. An error is want of memory, and nothing has changed.
pub fn byte_range_lock<K: Keeper>(
    state: &mut State<K>,
    session: SessionNumber,
    flags: u8,
    reference: ForkRef,
    offset: i32,
    length: i32,
) -> Result<(Told, Outcome), OutOfMemory>
    requires { IsReady state.old.world }
    ensures { RunsRow state.old session.0 (Call.ByteRangeLock flags reference offset length) result state.new }
{
    let offset = i64::from(offset);
    let length = i64::from(length);
    lock_asked(state, session, flags, reference, offset, length, false)
}

/// The same by offsets and lengths of 8 bytes. An error is want of memory, and nothing has changed.
pub fn byte_range_lock_ext<K: Keeper>(
    state: &mut State<K>,
    session: SessionNumber,
    flags: u8,
    reference: ForkRef,
    offset: i64,
    length: i64,
) -> Result<(Told, Outcome), OutOfMemory>
    requires { IsReady state.old.world }
    ensures { RunsRow state.old session.0 (Call.ByteRangeLockExt flags reference offset length) result state.new }
{
    lock_asked(state, session, flags, reference, offset, length, true)
}

/// What the two share: a call whose row is this lock.
fn lock_asked<K: Keeper>(
    state: &mut State<K>,
    session: SessionNumber,
    flags: u8,
    reference: ForkRef,
    offset: i64,
    length: i64,
    wide: bool,
) -> Result<(Told, Outcome), OutOfMemory>
    requires { IsReady state.old.world }
    ensures { (call : Call) → row call ≡ locks reference.0 (lock_asked flags offset length) (start_reply wide) → ends_session call ≡ false → IsOffset wide offset
        → RunsRow state.old session.0 call result state.new }
{
    let Some(own) = state.fork_at(session, reference) else {
        return Ok((refused(state.alloc, Code::ParamErr), Outcome::Done));
    };
    let kept = state.kept_at(own.index);
    let Some(range) = range_asked(kept, &own.fork, flags, offset, length) else {
        return Ok((refused(state.alloc, Code::ParamErr), Outcome::Done));
    };
    let Ok(block) = number_block(state.alloc, wide, range.from) else {
        return Err(OutOfMemory);
    };
    if unlocks(flags) {
        let answer = unlock(state, reference, range);
        return Ok((told_unlocked(state.alloc, answer, block), Outcome::Done));
    }
    let answer = lock(state, reference, range);
    told_locked(state.alloc, answer, block)
}

/// Locks a range of an open fork.
fn lock<K: Keeper>(state: &mut State<K>, reference: ForkRef, range: Range) -> Result<(), LockFault>
    requires { is_open state.old.world.opens reference.0 ≡ true }
    ensures { (o : OpenFork) → o.reference ≡ reference.0 → BecomesForks state.old (λ forks. LocksRange state.old.world (forks_in state.old.world) o range result forks) state.new }
{
    state.forks.lock(reference, range)
}

/// Unlocks a range of an open fork.
fn unlock<K: Keeper>(
    state: &mut State<K>,
    reference: ForkRef,
    range: Range,
) -> Result<(), NotLocked>
    requires { is_open state.old.world.opens reference.0 ≡ true }
    ensures { (o : OpenFork) → o.reference ≡ reference.0 → BecomesForks state.old (λ forks. UnlocksRange state.old.world (forks_in state.old.world) o range result forks) state.new }
{
    state.forks.unlock(reference, range)
}
