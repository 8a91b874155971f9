//! FPGetForkParms (AFP Reference, "FPGetForkParms").
ghost use Rattle.std.specs.Prelude.{◌≡◌, ◌++◌, ◌<◌, Some, true, length, slice_get, IfOk, OnOk, OnErr};
ghost use Rattle.afp_bitmap.specs.Bits.{IsWithin, file_mask};
ghost use Rattle.afp_bitmap.specs.Params.{params};
ghost use Rattle.afp_replies.specs.Replies.{canonical_reply};
ghost use Rattle.afp_replies.specs.declared.reply.Reply.TheVariants.{Params};
ghost use Rattle.afp_calls_grammar.specs.declared.grammar.call.Call.{Call};
ghost use Rattle.afp_serial.specs.OnVolume.{opened_on};
ghost use Rattle.volume_spec.specs.OpenFork.{fork_values};
ghost use Rattle.volume_spec.specs.SoundVolume.{has_file};
ghost use Rattle.volume_spec.specs.VolumeState.{Row, VolumeState};
ghost use Rattle.volume_spec.specs.Walk.{row_at};
ghost use Rattle.afp_core_state.specs.Running.{IsReady, RunsRow};

use afp_base::{Bytes, Code, ForkRef, OutOfMemory, SessionNumber};
use afp_bitmap::{FileBits, is_outside};
use afp_core_state::{State, done, parms_room, refused};
use afp_serial::{Outcome, Told};
use deny_modes::ForkKey;
use record_keeper::Keeper;

/// Tells what the bits ask of the file of an open fork of the session. The one error is want of memory.
pub fn get_fork_parms<K: Keeper>(
    state: &State<K>,
    session: SessionNumber,
    reference: ForkRef,
    bits: u16,
) -> Result<(Told, Outcome), OutOfMemory>
    requires { IsReady state.now.world }
    ensures { RunsRow state.now session.0 (Call.GetForkParms reference bits) result state.now }
{
    let Some(own) = state.fork_at(session, reference) else {
        return Ok((refused(state.alloc, Code::ParamErr), Outcome::Done));
    };
    if is_outside(FileBits::MASK, bits) {
        return Ok((refused(state.alloc, Code::BitmapErr), Outcome::Done));
    }
    let block = parms_block(state, own.index, own.fork, bits)?;
    Ok((done(block), Outcome::Done))
}

/// The bytes that tell of a file of the volume at an index: the bits, and the parameters.
fn parms_block<K: Keeper>(
    state: &State<K>,
    index: usize,
    fork: ForkKey,
    bits: u16,
) -> Result<Bytes, OutOfMemory>
    requires within { index < length state.now.world.volumes }
    requires file { (v : VolumeState) → slice_get state.now.world.volumes index ≡ Some v → has_file v.rows fork.node ≡ true }
    requires bits { IsWithin file_mask bits }
    ensures { IfOk result (λ block. (v : VolumeState) (file : Row) → slice_get state.now.world.volumes index ≡ Some v → row_at v.rows fork.node ≡ Some file
        → block ≡ canonical_reply (Params bits (fork_values (opened_on state.now.world fork.volume) bits file))) }
{
    let mut block = parms_room(state.alloc)?;
    block.push_u16(bits)?;
    put_file_params(state, index, fork, bits, &mut block)?;
    Ok(block)
}

/// Appends the parameters of a file of the volume at an index, with the forks that are open. An error changes nothing.
pub(crate) fn put_file_params<K: Keeper>(
    state: &State<K>,
    index: usize,
    fork: ForkKey,
    bits: u16,
    out: &mut Bytes,
) -> Result<(), OutOfMemory>
    requires within { index < length state.now.world.volumes }
    requires file { (v : VolumeState) → slice_get state.now.world.volumes index ≡ Some v → has_file v.rows fork.node ≡ true }
    requires bits { IsWithin file_mask bits }
    ensures ok { OnOk result ((v : VolumeState) (file : Row) → slice_get state.now.world.volumes index ≡ Some v → row_at v.rows fork.node ≡ Some file
        → out.new ≡ out.old ++ params bits (fork_values (opened_on state.now.world fork.volume) bits file)) }
    ensures err { OnErr result (out.new ≡ out.old) }
{
    let opens = state.forks.on(fork.volume);
    let volume = state.kept_at(index);
    volume.file_params(state.alloc, fork.node, &opens, bits, out)
}
