//! FPCreateDir (AFP Reference, "FPCreateDir").
ghost use Rattle.std.specs.Prelude.{◌≡◌, ◌<◌, IfOk, Some};
ghost use Rattle.afp_replies.specs.Replies.{canonical_reply};
ghost use Rattle.afp_replies.specs.declared.reply.Reply.TheVariants.{Node};
ghost use Rattle.afp_serial.specs.CreateDir.{node_id};
ghost use Rattle.afp_serial.specs.World.{volume_at};
ghost use Rattle.volume_spec.specs.SoundVolume.{last_next_id};
ghost use Rattle.volume_spec.specs.VolumeState.{VolumeState};
ghost use Rattle.afp_core_calls.specs.directory.DirectoryCalls.{CreatesDir};
ghost use Rattle.afp_core_state.specs.Running.{RunsRow};

use crate::node_reply::node_block;
use crate::tree_changes::change_tree;
use afp_base::{Bytes, NodeId, OutOfMemory, SessionNumber, VolumeId};
use afp_calls::Call;
use afp_core_state::State;
use afp_serial::{Outcome, Told};
use record_keeper::Keeper;
use std::alloc::Global;

/// Makes a directory in a volume that the session has open, and tells its id, which is the next one.
pub fn create_dir<K: Keeper>(
    state: &mut State<K>,
    session: SessionNumber,
    volume: VolumeId,
    call: &Call,
) -> Result<(Told, Outcome), OutOfMemory>
    requires { CreatesDir call.now volume }
    ensures { RunsRow state.old session.0 call.now result state.new }
{
    let block = next_id_block(state, volume)?;
    change_tree(state, session, volume, None, call, block)
}

/// The bytes of the next id of a volume, where its ids have not ended.
fn next_id_block<K: Keeper>(state: &State<K>, volume: VolumeId) -> Result<Bytes, OutOfMemory>
    ensures { IfOk result (λ block. (v : VolumeState) → volume_at state.now.world.volumes volume.0 ≡ Some v → v.next_id < last_next_id → block ≡ canonical_reply (Node (node_id v.next_id))) }
{
    match state.index(volume) {
        Some(index) => id_block(state.alloc, state.kept_at(index).next_id()),
        None => Ok(Bytes::new(state.alloc)),
    }
}

/// The bytes of a node's id, where it is one.
fn id_block(alloc: Global, id: u64) -> Result<Bytes, OutOfMemory>
    ensures { IfOk result (λ block. id < last_next_id → block ≡ canonical_reply (Node (node_id id))) }
{
    if id > u64::from(u32::MAX) {
        return Ok(Bytes::new(alloc));
    }
    node_block(alloc, NodeId(id as u32))
}
