//! FPOpenFork (AFP Reference, "FPOpenFork").
ghost use Rattle.std.specs.Prelude.{◌≡◌, ◌<◌, Some, false, true, length, slice_get, IfOk};
ghost use Rattle.afp_base.specs.declared.code.Code.{Code as CodeOf};
ghost use Rattle.afp_bitmap.specs.Bits.{IsWithin, file_mask};
ghost use Rattle.afp_replies.specs.Replies.{canonical_reply};
ghost use Rattle.afp_replies.specs.declared.reply.Reply.TheVariants.{Opened};
ghost use Rattle.afp_calls_grammar.specs.declared.grammar.call.Call.{Call};
ghost use Rattle.afp_serial.specs.Fork.{OpenAsked, access_of, fork_ref};
ghost use Rattle.afp_serial.specs.OnVolume.{opened_on};
ghost use Rattle.afp_serial.specs.declared.ask.Told.TheVariants.{Reply};
ghost use Rattle.volume_spec.specs.OpenFork.{fork_values, is_resource};
ghost use Rattle.volume_spec.specs.SoundVolume.{has_file};
ghost use Rattle.volume_spec.specs.VolumeState.{Row, VolumeState};
ghost use Rattle.volume_spec.specs.Walk.{row_at};
ghost use Rattle.afp_core_calls.specs.fork.lemma.Opening.{FindsFile};
ghost use Rattle.afp_core_state.specs.Running.{IsReady, done as with_done, RunsRow};

use crate::fork::get_fork_parms::put_file_params;
use afp_base::{Bytes, Code, ForkRef, NodeId, OutOfMemory, SessionNumber, VolumeId};
use afp_core_state::laws::closing_undoes_an_open;
use afp_core_state::{State, done, parms_room, refused};
use afp_names::Path;
use afp_serial::fork_laws::references_are_lowest;
use afp_serial::{Outcome, Told};
use deny_modes::{ForkKey, Mode};
use fork_table::OpenFault;
use record_keeper::Keeper;
use volume_tree::PlanFault;

/// The flag's bit for the resource fork (AFP Reference, "FPOpenFork").
const RESOURCE_FORK: u8 = 0x80;

/// The bits of an access mode (AFP Reference, "FPOpenFork").
const READ: u16 = 0x0001;

const WRITE: u16 = 0x0002;

const DENY_READ: u16 = 0x0010;

const DENY_WRITE: u16 = 0x0020;

/// Opens a fork of a file in a volume that the session has open, and tells what the bits ask of the file.
/// An error is want of memory, and nothing has changed.
pub fn open_fork<K: Keeper>(
    state: &mut State<K>,
    session: SessionNumber,
    flag: u8,
    volume: VolumeId,
    dir: NodeId,
    bits: u16,
    mode: u16,
    path: &Path,
) -> Result<(Told, Outcome), OutOfMemory>
    requires { IsReady state.old.world }
    ensures { RunsRow state.old session.0 (Call.OpenFork flag volume dir bits mode path.now) result state.new }
{
    let Some(index) = state.opened(session, volume) else {
        return Ok((refused(state.alloc, Code::ParamErr), Outcome::Done));
    };
    let resource = is_resource(flag);
    let mode = access_of(mode);
    let found = state.kept_at(index).open_fork(
        state.alloc,
        state.user(session),
        bits,
        mode.read,
        mode.write,
        dir,
        path,
    );
    match found {
        Ok(node) => {
            let fork = ForkKey {
                volume,
                node,
                resource,
            };
            open_found(state, session, index, fork, mode, bits)
        }
        Err(PlanFault::Code(code)) => Ok((refused(state.alloc, code), Outcome::Done)),
        Err(PlanFault::Memory) => Err(OutOfMemory),
    }
}

/// Opens a fork of a file of the volume at an index. Without memory for what is told, it is closed again.
fn open_found<K: Keeper>(
    state: &mut State<K>,
    session: SessionNumber,
    index: usize,
    fork: ForkKey,
    mode: Mode,
    bits: u16,
) -> Result<(Told, Outcome), OutOfMemory>
    requires ready { IsReady state.old.world }
    requires within { index < length state.old.world.volumes }
    requires file { (v : VolumeState) → slice_get state.old.world.volumes index ≡ Some v → has_file v.rows fork.node ≡ true }
    requires bits { IsWithin file_mask bits }
    ensures { (call : Call) (asked : OpenAsked) → FindsFile state.old session.0 call asked index fork mode bits → RunsRow state.old session.0 call result state.new }
{
    references_are_lowest();
    closing_undoes_an_open();
    state.forks.keeps_sound();
    match state.forks.open(session, fork, mode) {
        Ok(reference) => match opened_block(state, index, fork, reference, bits) {
            Ok(block) => Ok((done(block), Outcome::Done)),
            Err(OutOfMemory) => {
                state.forks.close(reference);
                Err(OutOfMemory)
            }
        },
        Err(OpenFault::Deny) => told_denied(state, index, fork, bits),
        Err(OpenFault::TooMany) => Ok((
            refused(state.alloc, Code::TooManyFilesOpen),
            Outcome::Done,
        )),
        Err(OpenFault::Memory) => Err(OutOfMemory),
    }
}

/// What is told of a fork that another open denies: its file as it stands, with no reference.
fn told_denied<K: Keeper>(
    state: &State<K>,
    index: usize,
    fork: ForkKey,
    bits: u16,
) -> Result<(Told, Outcome), OutOfMemory>
    requires within { index < length state.now.world.volumes }
    requires file { (v : VolumeState) → slice_get state.now.world.volumes index ≡ Some v → has_file v.rows fork.node ≡ true }
    requires bits { IsWithin file_mask bits }
    ensures { IfOk result (λ r. (v : VolumeState) (file : Row) → slice_get state.now.world.volumes index ≡ Some v → row_at v.rows fork.node ≡ Some file
        → r ≡ with_done (Reply CodeOf.DenyConflict (canonical_reply (Opened bits (fork_ref 0) (fork_values (opened_on state.now.world fork.volume) bits file))) false)) }
{
    let block = opened_block(state, index, fork, ForkRef(0), bits)?;
    let told = Told::Reply {
        code: Code::DenyConflict,
        block,
        ends: false,
    };
    Ok((told, Outcome::Done))
}

/// The bytes that tell of a file of the volume at an index: the bits, a reference, and the parameters.
fn opened_block<K: Keeper>(
    state: &State<K>,
    index: usize,
    fork: ForkKey,
    reference: ForkRef,
    bits: u16,
) -> Result<Bytes, OutOfMemory>
    requires within { index < length state.now.world.volumes }
    requires file { (v : VolumeState) → slice_get state.now.world.volumes index ≡ Some v → has_file v.rows fork.node ≡ true }
    requires bits { IsWithin file_mask bits }
    ensures { IfOk result (λ block. (v : VolumeState) (file : Row) → slice_get state.now.world.volumes index ≡ Some v → row_at v.rows fork.node ≡ Some file
        → block ≡ canonical_reply (Opened bits reference (fork_values (opened_on state.now.world fork.volume) bits file))) }
{
    let mut block = parms_room(state.alloc)?;
    block.push_u16(bits)?;
    block.push_u16(reference.0)?;
    put_file_params(state, index, fork, bits, &mut block)?;
    Ok(block)
}

/// Whether a flag asks for the resource fork.
fn is_resource(flag: u8) -> bool
    ensures { result ≡ is_resource flag }
{
    flag & RESOURCE_FORK != 0
}

/// What the bits of an access mode say.
fn access_of(mode: u16) -> Mode
    ensures { result ≡ access_of mode }
{
    Mode {
        read: mode & READ != 0,
        write: mode & WRITE != 0,
        deny_read: mode & DENY_READ != 0,
        deny_write: mode & DENY_WRITE != 0,
    }
}
