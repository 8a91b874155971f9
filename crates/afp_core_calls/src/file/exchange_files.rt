//! FPExchangeFiles (AFP Reference, "FPExchangeFiles"): the open forks, and so their locks, go with the bytes.
ghost use Rattle.std.specs.Prelude.{◌≡◌, ◌<◌, None, Some, length, IfOk};
ghost use Rattle.afp_calls_grammar.specs.declared.grammar.call.Call.{Call};
ghost use Rattle.afp_core_calls.specs.file.lemma.Exchanging.{RunsExchange, with_exchanged};
ghost use Rattle.volume_spec.specs.ExchangeFiles.{exchange_files_refusal, exchanged_files};
ghost use Rattle.afp_core_state.specs.Planned.{MayCommitAt};
ghost use Rattle.afp_core_state.specs.Running.{RunsRow};

use afp_base::{Bytes, Code, NodeId, OutOfMemory, SessionNumber, VolumeId};
use afp_core_state::{State, commit_plan, latest, refused, told_of, whole_at};
use afp_names::Path;
use afp_serial::{Outcome, Told};
use record_keeper::Keeper;
use std::alloc::Global;
use volume_edits::{Plan, WholeVolume, plan_exchange_files};
use volume_tree::PlanFault;

/// Exchanges the forks and the modified dates of two files of a volume that the session has open.
pub fn exchange_files<K: Keeper>(
    state: &mut State<K>,
    session: SessionNumber,
    volume: VolumeId,
    dir: NodeId,
    second_dir: NodeId,
    path: &Path,
    second_path: &Path,
) -> Result<(Told, Outcome), OutOfMemory>
    ensures { RunsRow state.old session.0 (Call.ExchangeFiles volume dir second_dir path.now second_path.now) result state.new }
{
    let Some(index) = state.opened(session, volume) else {
        return Ok((refused(state.alloc, Code::ParamErr), Outcome::Done));
    };
    let whole = whole_at(state, index);
    let user = state.user(session);
    let answer = plan_exchange_files(
        state.alloc,
        whole,
        user,
        latest(state),
        dir,
        path,
        second_dir,
        second_path,
    );
    match answer {
        Ok(plan) => {
            let pair = pair_of(state.alloc, whole, user, dir, path, second_dir, second_path)?;
            exchange(state, index, volume, plan, pair.0, pair.1)
        }
        Err(fault) => told_of(state.alloc, Err(fault), Bytes::new(state.alloc)),
    }
}

/// The two files to which paths lead a user, where FPExchangeFiles is not refused.
fn pair_of(
    alloc: Global,
    volume: &WholeVolume,
    user: u32,
    dir: NodeId,
    path: &Path,
    second_dir: NodeId,
    second_path: &Path,
) -> Result<(NodeId, NodeId), OutOfMemory>
    requires { exchange_files_refusal volume.now.state user dir.0 path.now second_dir.0 second_path.now ≡ None }
    ensures { IfOk result (λ pair. exchanged_files volume.now.state user dir.0 path.now second_dir.0 second_path.now ≡ Some (record { first = pair.0.0; second = pair.1.0 })) }
{
    let first = match volume.resolve(alloc, user, dir, path) {
        Ok(first) => first,
        Err(PlanFault::Code(_code)) => unreachable!(),
        Err(PlanFault::Memory) => return Err(OutOfMemory),
    };
    match volume.resolve(alloc, user, second_dir, second_path) {
        Ok(second) => Ok((first, second)),
        Err(PlanFault::Code(_code)) => unreachable!(),
        Err(PlanFault::Memory) => Err(OutOfMemory),
    }
}

/// The open forks of two files of a volume change places, with their locks.
fn exchange_forks<K: Keeper>(state: &mut State<K>, volume: VolumeId, a: NodeId, b: NodeId)
    ensures { state.new ≡ with_exchanged volume.0 (record { first = a.0; second = b.0 }) state.old }
{
    state.forks.exchange(volume, a, b);
}

/// Commits the plan of an exchange; then the open forks go with the bytes.
fn exchange<K: Keeper>(
    state: &mut State<K>,
    index: usize,
    volume: VolumeId,
    plan: Plan,
    a: NodeId,
    b: NodeId,
) -> Result<(Told, Outcome), OutOfMemory>
    requires within { index < length state.old.world.volumes }
    requires may { MayCommitAt state.old index plan }
    ensures { RunsExchange state.old index volume.0 (record { first = a.0; second = b.0 }) plan result state.new }
{
    let nothing = Bytes::new(state.alloc);
    let (told, outcome) = commit_plan(state, index, plan, nothing)?;
    match outcome {
        Outcome::Done => {
            exchange_forks(state, volume, a, b);
            Ok((told, Outcome::Done))
        }
        Outcome::Fault => Ok((told, Outcome::Fault)),
    }
}
