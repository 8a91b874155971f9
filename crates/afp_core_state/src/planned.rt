//! Calls that were planned of a volume.
ghost use Rattle.std.specs.Prelude.{◌≡◌, ◌<◌, Some, length, slice_get, IfOk};
ghost use Rattle.afp_core_state.specs.Planned.{MayCommitAt, RunsCommit, RunsPlan};

use crate::replies::{done, refused};
use crate::state::State;
use afp_base::{Bytes, Code, Moment, OutOfMemory};
use afp_serial::{Outcome, Told};
use record_keeper::{Keeper, KeeperFault};
use volume_edits::{Plan, WholeVolume};
use volume_tree::PlanFault;

/// The volume at an index, of which plans are made.
pub fn whole_at<K: Keeper>(state: &State<K>, index: usize) -> &WholeVolume
    requires { index < length state.now.world.volumes }
    ensures { slice_get state.now.world.volumes index ≡ Some result.now.state }
{
    state.kept_at(index).whole()
}

/// The latest moment.
pub fn latest<K: Keeper>(state: &State<K>) -> Moment
    ensures { result ≡ state.now.world.latest }
{
    state.latest
}

/// Commits a plan to the keeper of the volume at an index, carries it out, and tells of that: `block`, where it went well. A plan of no edits commits
/// nothing.
pub fn commit_plan<K: Keeper>(
    state: &mut State<K>,
    index: usize,
    plan: Plan,
    block: Bytes,
) -> Result<(Told, Outcome), OutOfMemory>
    requires within { index < length state.old.world.volumes }
    requires may { MayCommitAt state.old index plan }
    ensures { RunsCommit state.old index plan block result state.new }
{
    let alloc = state.alloc;
    match state.kept[index].commit(alloc, plan) {
        Ok(()) => Ok((done(block), Outcome::Done)),
        Err(KeeperFault::Failed) => Ok((refused(alloc, Code::MiscErr), Outcome::Fault)),
        Err(KeeperFault::Memory) => Err(OutOfMemory),
    }
}

/// Carries out what was planned of the volume at an index, and tells of it; `block` is what is told where it is done.
pub fn run_plan<K: Keeper>(
    state: &mut State<K>,
    index: usize,
    answer: Result<Plan, PlanFault>,
    block: Bytes,
) -> Result<(Told, Outcome), OutOfMemory>
    requires within { index < length state.old.world.volumes }
    requires may { IfOk answer (λ plan. MayCommitAt state.old index plan) }
    ensures { RunsPlan state.old index answer block result state.new }
{
    match answer {
        Ok(plan) => commit_plan(state, index, plan, block),
        Err(PlanFault::Code(code)) => Ok((refused(state.alloc, code), Outcome::Done)),
        Err(PlanFault::Memory) => Err(OutOfMemory),
    }
}
