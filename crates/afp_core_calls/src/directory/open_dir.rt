//! FPOpenDir and FPCloseDir (AFP Reference, under these names). Directory ids are fixed: nothing is opened or closed.
ghost use Rattle.afp_calls_grammar.specs.declared.grammar.call.Call.{Call};
ghost use Rattle.afp_core_calls.specs.directory.lemma.FoundNode.{TellsNode};
ghost use Rattle.afp_core_state.specs.Running.{RunsRow};

use crate::node_reply::node_block;
use afp_base::{Bytes, Code, NodeId, OutOfMemory, SessionNumber, VolumeId};
use afp_core_state::{State, done, refused};
use afp_names::Path;
use afp_serial::{Outcome, Told};
use record_keeper::Keeper;
use std::alloc::Global;
use volume_tree::PlanFault;

/// Tells the id of the directory that is found in a volume that the session has open.
pub fn open_dir<K: Keeper>(
    state: &State<K>,
    session: SessionNumber,
    volume: VolumeId,
    dir: NodeId,
    path: &Path,
) -> Result<(Told, Outcome), OutOfMemory>
    ensures { RunsRow state.now session.0 (Call.OpenDir volume dir path.now) result state.now }
{
    let Some(index) = state.opened(session, volume) else {
        return Ok((refused(state.alloc, Code::ParamErr), Outcome::Done));
    };
    let answer = state
        .kept_at(index)
        .open_dir(state.alloc, state.user(session), dir, path);
    told_node(state.alloc, answer)
}

/// Nothing, where the session has the volume open.
pub fn close_dir<K: Keeper>(
    state: &State<K>,
    session: SessionNumber,
    volume: VolumeId,
    _dir: NodeId,
) -> Result<(Told, Outcome), OutOfMemory>
    ensures { RunsRow state.now session.0 (Call.CloseDir volume _dir) result state.now }
{
    if !state.sessions.has_volume(session, volume) {
        return Ok((refused(state.alloc, Code::ParamErr), Outcome::Done));
    }
    Ok((done(Bytes::new(state.alloc)), Outcome::Done))
}

/// What is told of a node that was found, or of why none was.
fn told_node(
    alloc: Global,
    answer: Result<NodeId, PlanFault>,
) -> Result<(Told, Outcome), OutOfMemory>
    ensures { TellsNode answer result }
{
    match answer {
        Ok(id) => Ok((done(node_block(alloc, id)?), Outcome::Done)),
        Err(PlanFault::Code(code)) => Ok((refused(alloc, code), Outcome::Done)),
        Err(PlanFault::Memory) => Err(OutOfMemory),
    }
}
