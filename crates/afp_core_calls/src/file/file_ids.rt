//! FPCreateID, FPDeleteID and FPResolveID (AFP Reference, under these names).
ghost use Rattle.std.specs.Prelude.{◌≡◌, ◌++◌, None, Some, true, IfOk, OnOk, OnErr, length, take};
ghost use Rattle.afp_bitmap.specs.Bits.{IsWithin, file_mask};
ghost use Rattle.afp_replies.specs.Replies.{canonical_reply};
ghost use Rattle.afp_replies.specs.declared.reply.Reply.TheVariants.{Params};
ghost use Rattle.afp_calls_grammar.specs.declared.grammar.call.Call.{Call};
ghost use Rattle.afp_serial.specs.FileIds.{resolve_id_reply};
ghost use Rattle.afp_serial.specs.OpenDir.{open_dir_reply};
ghost use Rattle.volume_spec.specs.FileIds.{create_id_refusal, created_id, resolve_id_refusal, resolve_id_values};
ghost use Rattle.volume_spec.specs.OpenFork.{fork_values};
ghost use Rattle.volume_spec.specs.SoundVolume.{has_file, has_node};
ghost use Rattle.volume_spec.specs.VolumeState.{Row};
ghost use Rattle.volume_spec.specs.Walk.{row_at};
ghost use Rattle.volume_tree.specs.Answered.{Refuses};
ghost use Rattle.volume_tree.specs.Shown.{opened};
ghost use Rattle.afp_core_state.specs.Running.{RunsRow};

use crate::file::rights::lacks_read;
use crate::node_reply::node_block;
use afp_base::{Bytes, Code, NodeId, OutOfMemory, SessionNumber, VolumeId};
use afp_bitmap::{FileBits, is_outside};
use afp_core_state::{State, latest, refused, run_plan, told_of, whole_at};
use afp_names::Path;
use afp_serial::{Outcome, Told};
use deny_modes::VolumeOpens;
use record_keeper::Keeper;
use std::alloc::Global;
use volume_edits::{WholeVolume, plan_create_id, plan_delete_id};
use volume_keeper::KeptVolume;
use volume_spec::limits::FIRST_ID;
use volume_tree::PlanFault;

/// Files a file of a volume that the session has open, and tells its id.
pub fn create_id<K: Keeper>(
    state: &mut State<K>,
    session: SessionNumber,
    volume: VolumeId,
    dir: NodeId,
    path: &Path,
) -> Result<(Told, Outcome), OutOfMemory>
    ensures { RunsRow state.old session.0 (Call.CreateID volume dir path.now) result state.new }
{
    let Some(index) = state.opened(session, volume) else {
        return Ok((refused(state.alloc, Code::ParamErr), Outcome::Done));
    };
    let whole = whole_at(state, index);
    let user = state.user(session);
    let block = id_block(state.alloc, whole, user, dir, path)?;
    let answer = plan_create_id(state.alloc, whole, user, latest(state), dir, path);
    run_plan(state, index, answer, block)
}

/// The bytes of the id of the file to which a path leads a user.
fn id_block(
    alloc: Global,
    volume: &WholeVolume,
    user: u32,
    dir: NodeId,
    path: &Path,
) -> Result<Bytes, OutOfMemory>
    ensures { IfOk result (λ block. create_id_refusal volume.now.state user dir.0 path.now ≡ None → block ≡ canonical_reply (open_dir_reply (created_id volume.now.state user dir.0 path.now))) }
{
    match volume.resolve(alloc, user, dir, path) {
        Ok(id) => node_block(alloc, id),
        Err(PlanFault::Code(_code)) => Ok(Bytes::new(alloc)),
        Err(PlanFault::Memory) => Err(OutOfMemory),
    }
}

/// Takes the mark that a file of a volume that the session has open is filed.
pub fn delete_id<K: Keeper>(
    state: &mut State<K>,
    session: SessionNumber,
    volume: VolumeId,
    id: NodeId,
) -> Result<(Told, Outcome), OutOfMemory>
    ensures { RunsRow state.old session.0 (Call.DeleteID volume id) result state.new }
{
    let Some(index) = state.opened(session, volume) else {
        return Ok((refused(state.alloc, Code::ParamErr), Outcome::Done));
    };
    let whole = whole_at(state, index);
    let answer = plan_delete_id(state.alloc, whole, state.user(session), latest(state), id);
    let nothing = Bytes::new(state.alloc);
    run_plan(state, index, answer, nothing)
}

/// Tells what the bits ask of the file of an id of a volume that the session has open.
pub fn resolve_id<K: Keeper>(
    state: &State<K>,
    session: SessionNumber,
    volume: VolumeId,
    id: NodeId,
    bits: u16,
) -> Result<(Told, Outcome), OutOfMemory>
    ensures { RunsRow state.now session.0 (Call.ResolveID volume id bits) result state.now }
{
    let Some(index) = state.opened(session, volume) else {
        return Ok((refused(state.alloc, Code::ParamErr), Outcome::Done));
    };
    let mut block = Bytes::new(state.alloc);
    let opens = state.forks.on(volume);
    let kept = state.kept_at(index);
    let user = state.user(session);
    let answer = put_resolved(state.alloc, kept, user, &opens, id, bits, &mut block);
    told_of(state.alloc, answer, block)
}

/// Whether an id is a node's.
fn has_node<K: Keeper>(kept: &KeptVolume<K>, id: NodeId) -> bool
    ensures { result ≡ has_node kept.now.state.rows id.0 }
{
    let volume = kept.whole();
    match volume.node_before(id) {
        Some(_node) => true,
        None => false,
    }
}

/// Appends the bits and the parameters of a file. After an error, any part of them may stand there.
fn put_params<K: Keeper>(
    alloc: Global,
    kept: &KeptVolume<K>,
    opens: &VolumeOpens<'_>,
    file: NodeId,
    bits: u16,
    out: &mut Bytes,
) -> Result<(), OutOfMemory>
    requires file { has_file kept.now.state.rows file.0 ≡ true }
    requires bits { IsWithin file_mask bits }
    ensures ok { OnOk result ((row : Row) → row_at kept.now.state.rows file.0 ≡ Some row → out.new ≡ out.old ++ canonical_reply (Params bits (fork_values (opened opens.now) bits row))) }
    ensures err { OnErr result (take (length out.old) out.new ≡ out.old) }
{
    out.push_u16(bits)?;
    kept.file_params(alloc, file, opens, bits, out)
}

/// Appends what a user is told of the file of an id, or tells why nothing is. An error changes nothing.
#[tactic(auto, unfolding(volume_spec::specs::FileIds::resolve_id_refusal))]
fn put_resolved<K: Keeper>(
    alloc: Global,
    kept: &KeptVolume<K>,
    user: u32,
    opens: &VolumeOpens<'_>,
    id: NodeId,
    bits: u16,
    out: &mut Bytes,
) -> Result<(), PlanFault>
    ensures refused { Refuses result (resolve_id_refusal kept.now.state user id.0 bits) }
    ensures ok { OnOk result (out.new ≡ out.old ++ canonical_reply (resolve_id_reply bits (resolve_id_values kept.now.state (opened opens.now) id.0 bits))) }
    ensures err { OnErr result (out.new ≡ out.old) }
{
    let volume = kept.whole();
    volume.keeps_sound();
    if is_outside(FileBits::MASK, bits) {
        return Err(PlanFault::Code(Code::BitmapErr));
    }
    if id.0 < FIRST_ID {
        return Err(PlanFault::Code(Code::BadIDErr));
    }
    if !has_node(kept, id) {
        return Err(PlanFault::Code(Code::IDNotFound));
    }
    if !kept.has_file(id) {
        return Err(PlanFault::Code(Code::ObjectTypeErr));
    }
    if lacks_read(volume, user, id) {
        return Err(PlanFault::Code(Code::AccessDenied));
    }
    let before = out.as_slice().len();
    match put_params(alloc, kept, opens, id, bits, out) {
        Ok(()) => Ok(()),
        Err(_) => {
            out.truncate(before);
            Err(PlanFault::Memory)
        }
    }
}
