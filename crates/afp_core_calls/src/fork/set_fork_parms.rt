//! FPSetForkParms (AFP Reference, "FPSetForkParms"): the fork has another length.
ghost use Rattle.std.specs.Prelude.{◌≡◌, ◌<◌, None, Some, true, false, length, nat_lt, slice_get, IfErr, IfOk, MatchOption};
ghost use Rattle.byteorder.specs.Endian.{big_number};
ghost use Rattle.afp_calls_grammar.specs.declared.grammar.call.Call.{Call};
ghost use Rattle.afp_serial.specs.Fork.{is_locked_between};
ghost use Rattle.afp_serial.specs.World.{is_open, OpenFork as Opened};
ghost use Rattle.volume_spec.specs.ForkEffect.{fork_of};
ghost use Rattle.volume_spec.specs.SetForkParms.{ext_length_bits, length_bits, length_in};
ghost use Rattle.volume_spec.specs.SoundVolume.{has_file};
ghost use Rattle.volume_spec.specs.VolumeState.{Row, VolumeState};
ghost use Rattle.volume_spec.specs.Walk.{row_at};
ghost use Rattle.afp_core_calls.specs.fork.lemma.SettingLength.{is_no_ext_length, length_refusal};
ghost use Rattle.afp_core_state.specs.Running.{IsReady, RunsRow};

use afp_base::laws::resizing_keeps_the_front;
use afp_base::{Bytes, Code, ForkRef, NodeId, OutOfMemory, Scan, SessionNumber};
use afp_core_state::{State, latest, refused, run_plan, whole_at};
use afp_serial::{Outcome, Told};
use record_keeper::Keeper;
use volume_keeper::plan_fork_length;

/// The bits of a fork's length in 4 bytes and in 8 (AFP Reference, "File Bitmap").
const DATA_LENGTH: u16 = 0x0200;

const RESOURCE_LENGTH: u16 = 0x0400;

const EXT_DATA_LENGTH: u16 = 0x0800;

const EXT_RESOURCE_LENGTH: u16 = 0x4000;

/// The first number of 8 bytes that is negative with a sign.
const NEGATIVE: u64 = 0x8000_0000_0000_0000;

/// Gives an open fork of the session the length that the tail begins with.
/// An error is want of memory, and nothing has changed.
pub fn set_fork_parms<K: Keeper>(
    state: &mut State<K>,
    session: SessionNumber,
    reference: ForkRef,
    bits: u16,
    tail: &[u8],
) -> Result<(Told, Outcome), OutOfMemory>
    requires { IsReady state.old.world }
    ensures { RunsRow state.old session.0 (Call.SetForkParms reference bits tail.now) result state.new }
{
    resizing_keeps_the_front();
    let Some(own) = state.fork_at(session, reference) else {
        return Ok((refused(state.alloc, Code::ParamErr), Outcome::Done));
    };
    let node = own.fork.node;
    let resource = own.fork.resource;
    let len = match length_of(resource, bits, tail) {
        Ok(len) => len,
        Err(code) => return Ok((refused(state.alloc, code), Outcome::Done)),
    };
    if !own.mode.write {
        return Ok((refused(state.alloc, Code::AccessDenied), Outcome::Done));
    }
    if is_locked_between(state, own.index, node, resource, reference, len) {
        return Ok((refused(state.alloc, Code::LockErr), Outcome::Done));
    }
    let whole = whole_at(state, own.index);
    let answer = plan_fork_length(state.alloc, whole, latest(state), &own.fork, len);
    let nothing = Bytes::new(state.alloc);
    run_plan(state, own.index, answer, nothing)
}

/// Whether another reference's lock covers a byte between the length of the fork of a reference that is open and another one.
fn is_locked_between<K: Keeper>(
    state: &State<K>,
    index: usize,
    node: NodeId,
    resource: bool,
    reference: ForkRef,
    len: u64,
) -> bool
    requires within { index < length state.now.world.volumes }
    requires file { (v : VolumeState) → slice_get state.now.world.volumes index ≡ Some v → has_file v.rows node.0 ≡ true }
    requires open { is_open state.now.world.opens reference.0 ≡ true }
    ensures { (v : VolumeState) (file : Row) (o : Opened) → slice_get state.now.world.volumes index ≡ Some v → row_at v.rows node.0 ≡ Some file → o.reference ≡ reference.0
        → result ≡ is_locked_between state.now.world o (length (fork_of resource file)) len }
{
    let old = length_at(state, index, node, resource);
    state
        .forks
        .is_locked(reference, old.min(len), old.max(len) - old.min(len))
}

/// How many bytes a fork of a file of the volume at an index has.
fn length_at<K: Keeper>(state: &State<K>, index: usize, node: NodeId, resource: bool) -> u64
    requires within { index < length state.now.world.volumes }
    requires file { (v : VolumeState) → slice_get state.now.world.volumes index ≡ Some v → has_file v.rows node.0 ≡ true }
    ensures { (v : VolumeState) (file : Row) → slice_get state.now.world.volumes index ≡ Some v → row_at v.rows node.0 ≡ Some file → result ≡ length (fork_of resource file) }
{
    let volume = state.kept_at(index);
    volume.fork_size(node, resource)
}

/// The bits that ask for a fork's length in 4 bytes.
fn length_bits(resource: bool) -> u16
    ensures { result ≡ length_bits resource }
{
    if resource {
        RESOURCE_LENGTH
    } else {
        DATA_LENGTH
    }
}

/// The bits that ask for it in 8 bytes.
fn ext_length_bits(resource: bool) -> u16
    ensures { result ≡ ext_length_bits resource }
{
    if resource {
        EXT_RESOURCE_LENGTH
    } else {
        EXT_DATA_LENGTH
    }
}

/// The length in the first 4 bytes.
#[tactic(auto, using(afp_base::proofs::Numbers::number_front))]
fn short_length(tail: &[u8]) -> Option<u64>
    ensures { MatchOption result (nat_lt (length tail.now) 4 ≡ true) (λ len. (nat_lt (length tail.now) 4 ≡ false) × (len ≡ big_number 4 tail.now)) }
{
    match Scan::new(tail).u32() {
        Ok(len) => Some(u64::from(len)),
        Err(_) => None,
    }
}

/// The length in the first 8 bytes, which is not negative.
#[tactic(auto, using(afp_base::proofs::Numbers::number_front))]
fn ext_length(tail: &[u8]) -> Option<u64>
    ensures { MatchOption result (is_no_ext_length tail.now ≡ true) (λ len. (is_no_ext_length tail.now ≡ false) × (len ≡ big_number 8 tail.now)) }
{
    let Ok(len) = Scan::new(tail).u64() else {
        return None;
    };
    if len >= NEGATIVE {
        return None;
    }
    Some(len)
}

/// The length that a tail begins with, or why bits and tail ask for none.
#[tactic(auto, unfolding(volume_spec::specs::SetForkParms::has_no_length, volume_spec::specs::SetForkParms::length_in))]
fn length_of(resource: bool, bits: u16, tail: &[u8]) -> Result<u64, Code>
    ensures refused { IfErr result (λ code. length_refusal resource bits tail.now ≡ Some code) }
    ensures ok { IfOk result (λ len. (length_refusal resource bits tail.now ≡ None) × (len ≡ length_in resource bits tail.now)) }
{
    if bits == length_bits(resource) {
        return match short_length(tail) {
            Some(len) => Ok(len),
            None => Err(Code::ParamErr),
        };
    }
    if bits != ext_length_bits(resource) {
        return Err(Code::BitmapErr);
    }
    match ext_length(tail) {
        Some(len) => Ok(len),
        None => Err(Code::ParamErr),
    }
}
