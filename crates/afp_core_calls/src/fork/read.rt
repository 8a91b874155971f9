//! FPRead and FPReadExt (AFP Reference, under these names).
ghost use Rattle.std.specs.Prelude.{◌≡◌, ◌&&◌, min, nat_lt, not, [], Some, true, false, length, IfOk, OnOk};
ghost use Rattle.afp_base.specs.Limits.{payload_limit};
ghost use Rattle.afp_base.specs.Choice.{first_holding};
ghost use Rattle.afp_base.specs.ForkBytes.{taken};
ghost use Rattle.afp_calls_grammar.specs.declared.grammar.call.Call.{Call};
ghost use Rattle.afp_serial.specs.ForkBytes.{ReadAsked, reads};
ghost use Rattle.afp_serial.specs.OnFork.{is_locked};
ghost use Rattle.afp_serial.specs.Rows.{ends_session, row};
ghost use Rattle.afp_serial.specs.World.{is_open, OpenFork};
ghost use Rattle.volume_spec.specs.ForkEffect.{fork_of};
ghost use Rattle.volume_spec.specs.SoundVolume.{has_file};
ghost use Rattle.volume_spec.specs.VolumeState.{Row};
ghost use Rattle.volume_spec.specs.Walk.{row_at};
ghost use Rattle.afp_core_calls.specs.fork.lemma.OnForkBytes.{IsReadOf, IsSpan, IsSpanOf, TellsRead, line_in, read_checks};
ghost use Rattle.afp_core_state.specs.Running.{IsReady, RunsRow};

use crate::fork::on_bytes::is_locked;
use afp_base::{Bytes, Code, ForkRef, MAX_PAYLOAD, OutOfMemory, SessionNumber};
use afp_core_state::{OwnFork, State, done, refused};
use afp_serial::{Outcome, Told};
use deny_modes::ForkKey;
use record_keeper::Keeper;
use std::alloc::Global;
use volume_keeper::KeptVolume;
use volume_keeper::kept::laws::lines_stop_at_characters;

/// What is read of a fork: at most `count` bytes from `from` on, up to the first whose value under the mask is the character. A mask of 0 stops
/// at none.
#[derive(Clone, Copy)]
pub struct ReadSpan {
    pub from: u64,
    pub count: u32,
    pub mask: u8,
    pub character: u8,
}

/// What is read where that is asked for: `None` where the offset or the count is negative.
fn span_of(offset: i64, count: i64, mask: u8, character: u8) -> Option<ReadSpan>
    ensures { IsSpanOf (record { offset = offset; count = count; mask = mask; character = character }) result }
{
    if offset < 0 || count < 0 {
        return None;
    }
    Some(ReadSpan {
        from: offset as u64,
        count: most_read(count as u64),
        mask,
        character,
    })
}

/// How many of so many bytes are read at most.
fn most_read(count: u64) -> u32
    ensures { result ≡ min count payload_limit }
{
    count.min(u64::from(MAX_PAYLOAD)) as u32
}

/// Reads the bytes of a fork into a block that has none. Whether there were fewer.
fn read_all<K: Keeper>(
    alloc: Global,
    kept: &KeptVolume<K>,
    fork: &ForkKey,
    from: u64,
    count: u32,
    out: &mut Bytes,
) -> Result<bool, OutOfMemory>
    requires file { has_file kept.now.state.rows fork.now.node ≡ true }
    requires none { out.old ≡ [] }
    ensures fewer { IfOk result (λ fewer. fewer ≡ nat_lt (length out.new) count) }
    ensures bytes { OnOk result ((file : Row) → row_at kept.now.state.rows fork.now.node ≡ Some file → out.new ≡ taken (fork_of fork.now.resource file) from count) }
{
    *out = kept.read_fork(alloc, fork.node, fork.resource, from, count)?;
    Ok(is_shorter(out, count))
}

/// Whether there are fewer bytes.
fn is_shorter(bytes: &Bytes, count: u32) -> bool
    ensures { result ≡ nat_lt (length bytes.now) count }
{
    bytes.as_slice().len() < count as usize
}

/// The same up to the first byte whose value under the mask is the character. Whether there were fewer, and none such.
fn read_line<K: Keeper>(
    kept: &KeptVolume<K>,
    fork: &ForkKey,
    span: &ReadSpan,
    out: &mut Bytes,
) -> Result<bool, OutOfMemory>
    requires file { has_file kept.now.state.rows fork.now.node ≡ true }
    requires none { out.old ≡ [] }
    ensures fewer { IfOk result (λ fewer. (file : Row) → row_at kept.now.state.rows fork.now.node ≡ Some file
        → fewer ≡ (not (line_in fork.now.resource file span.now).stopped && nat_lt (length out.new) span.now.count)) }
    ensures bytes { OnOk result ((file : Row) → row_at kept.now.state.rows fork.now.node ≡ Some file → out.new ≡ (line_in fork.now.resource file span.now).bytes) }
{
    let Ok(stopped) = kept.read_fork_line(
        fork.node,
        fork.resource,
        span.from,
        span.count,
        span.mask,
        span.character,
        out,
    ) else {
        return Err(OutOfMemory);
    };
    Ok(!stopped && is_shorter(out, span.count))
}

/// Reads what is asked of a fork into a block that has no bytes. Whether the end of the fork was met.
fn read_bytes<K: Keeper>(
    alloc: Global,
    kept: &KeptVolume<K>,
    fork: &ForkKey,
    span: &ReadSpan,
    out: &mut Bytes,
) -> Result<bool, OutOfMemory>
    requires file { has_file kept.now.state.rows fork.now.node ≡ true }
    requires none { out.old ≡ [] }
    ensures { IfOk result (λ met. (file : Row) (asked : ReadAsked) → row_at kept.now.state.rows fork.now.node ≡ Some file → IsSpan asked span.now
        → IsReadOf (fork_of fork.now.resource file) asked out.new met) }
{
    lines_stop_at_characters();
    if span.mask == 0 {
        return read_all(alloc, kept, fork, span.from, span.count, out);
    }
    read_line(kept, fork, span, out)
}

/// What is told of bytes that were read: EOFErr beside them where the end of the fork was met.
fn told_read(
    met_end: Result<bool, OutOfMemory>,
    block: Bytes,
) -> Result<(Told, Outcome), OutOfMemory>
    ensures { TellsRead met_end block result }
{
    match met_end {
        Ok(true) => {
            let told = Told::Reply {
                code: Code::EOFErr,
                block,
                ends: false,
            };
            Ok((told, Outcome::Done))
        }
        Ok(false) => Ok((done(block), Outcome::Done)),
        Err(OutOfMemory) => Err(OutOfMemory),
    }
}

/// Reads bytes of a fork that the session has open, up to a character where the mask is not 0.
/// The one error is want of memory.
pub fn read<K: Keeper>(
    state: &State<K>,
    session: SessionNumber,
    reference: ForkRef,
    offset: i32,
    count: u32,
    mask: u8,
    character: u8,
) -> Result<(Told, Outcome), OutOfMemory>
    requires { IsReady state.now.world }
    ensures { RunsRow state.now session.0 (Call.Read reference offset count mask character) result state.now }
{
    let span = span_of(i64::from(offset), i64::from(count), mask, character);
    read_span(state, session, reference, span)
}

/// Reads bytes of a fork that the session has open. The one error is want of memory.
pub fn read_ext<K: Keeper>(
    state: &State<K>,
    session: SessionNumber,
    reference: ForkRef,
    offset: i64,
    count: i64,
) -> Result<(Told, Outcome), OutOfMemory>
    requires { IsReady state.now.world }
    ensures { RunsRow state.now session.0 (Call.ReadExt reference offset count) result state.now }
{
    let span = span_of(offset, count, 0, 0);
    read_span(state, session, reference, span)
}

/// What the two share: a call whose row is this read.
fn read_span<K: Keeper>(
    state: &State<K>,
    session: SessionNumber,
    reference: ForkRef,
    span: Option<ReadSpan>,
) -> Result<(Told, Outcome), OutOfMemory>
    requires { IsReady state.now.world }
    ensures { (call : Call) (asked : ReadAsked) → row call ≡ reads reference.0 asked → ends_session call ≡ false → IsSpanOf asked span
        → RunsRow state.now session.0 call result state.now }
{
    let Some(own) = state.fork_at(session, reference) else {
        return Ok((refused(state.alloc, Code::ParamErr), Outcome::Done));
    };
    let Some(span) = span else {
        return Ok((refused(state.alloc, Code::ParamErr), Outcome::Done));
    };
    if let Some(code) = read_refused(state, reference, &own, &span) {
        return Ok((refused(state.alloc, code), Outcome::Done));
    }
    let kept = state.kept_at(own.index);
    let mut block = Bytes::new(state.alloc);
    let met_end = read_bytes(state.alloc, kept, &own.fork, &span, &mut block);
    told_read(met_end, block)
}

/// Why the bytes of an open fork may not be read: its access mode, or a lock of another reference.
fn read_refused<K: Keeper>(
    state: &State<K>,
    reference: ForkRef,
    own: &OwnFork,
    span: &ReadSpan,
) -> Option<Code>
    requires { is_open state.now.world.opens reference.0 ≡ true }
    ensures { (o : OpenFork) → o.reference ≡ reference.0 → o.access ≡ own.now.mode → result ≡ first_holding (read_checks state.now.world o span.now) }
{
    if !own.mode.read {
        return Some(Code::AccessDenied);
    }
    if is_locked(state, reference, span.from, u64::from(span.count)) {
        return Some(Code::LockErr);
    }
    None
}
