//! Plans of other bytes of a fork.
ghost use Rattle.std.specs.Prelude.{◌≡◌, ◌==◌, nat_lt, not, pos, Some, true, length, IfOk};
ghost use Rattle.afp_base.specs.ForkBytes.{resized, splice};
ghost use Rattle.volume_spec.specs.ForkEffect.{fork_of};
ghost use Rattle.volume_spec.specs.SoundVolume.{has_file};
ghost use Rattle.volume_spec.specs.TypedVolume.{is_date};
ghost use Rattle.volume_spec.specs.VolumeState.{Row};
ghost use Rattle.volume_spec.specs.Walk.{row_at};
ghost use Rattle.volume_keeper.specs.kept.Commits.{MayCommit};
ghost use Rattle.volume_keeper.specs.kept.ForkChanging.{PlansBytes};
ghost use Rattle.volume_keeper.specs.kept.lemma.PlannedWrites.{IsPlannedWrite};

use crate::kept::forks::fork_in;
use afp_base::laws::splice_puts_between;
use afp_base::{Code, Moment};
use deny_modes::ForkKey;
use fork_bytes::ForkWrite;
use std::alloc::Global;
use volume_edits::{Edit, Plan, WholeVolume};
use volume_spec::bytes_in_range;
use volume_spec::edit_laws::effects_are_edits;
use volume_spec::laws::forks_are_given_bytes;
use volume_tree::PlanFault;

/// A moment is a date. The call does nothing.
fn date_in_range(now: Moment)
    ensures { is_date (pos now) ≡ true }
{
    let _ = now.seconds();
}

/// The plan of a write of a fork of a file, at a moment. The one error is want of memory.
fn plan_of_write(
    alloc: Global,
    now: Moment,
    fork: &ForkKey,
    write: ForkWrite,
) -> Result<Plan, PlanFault>
    ensures { IsPlannedWrite now fork.now.node fork.now.resource write result }
{
    let mut edits = Vec::new(alloc);
    match edits.push(Edit::writes(now, fork.node, fork.resource, write)) {
        Ok(()) => Ok(Plan::new(now, edits)),
        Err(_) => Err(PlanFault::Memory),
    }
}

/// The plan that gives a file's fork a piece from `start` on, a byte from the fork's start, or why there is none. A gap before the piece is filled with
/// zeros, and a piece of no bytes has a plan of no edits. It is refused as DiskFull where the bytes of all forks would pass the total.
pub fn plan_fork_write(
    alloc: Global,
    whole: &WholeVolume,
    now: Moment,
    fork: &ForkKey,
    start: u64,
    piece: &[u8],
) -> Result<Plan, PlanFault>
    requires { has_file whole.now.state.rows fork.now.node ≡ true }
    ensures may { IfOk result (MayCommit whole.now.state) }
    ensures plan { (file : Row) → row_at whole.now.state.rows fork.now.node ≡ Some file
        → PlansBytes whole.now.state now fork.now.node fork.now.resource (nat_lt 0 (length piece.now)) (fork_of fork.now.resource file) (splice (fork_of fork.now.resource file) start piece.now) result }
{
    forks_are_given_bytes();
    splice_puts_between();
    effects_are_edits();
    date_in_range(now);
    whole.keeps_sound();
    if piece.is_empty() {
        return Ok(Plan::new(now, Vec::new(alloc)));
    }
    let bytes = fork_in(whole, fork.node, fork.resource);
    let end = start.saturating_add(piece.len() as u64);
    if whole.would_pass(bytes.len(), bytes.len().max(end)) {
        return Err(PlanFault::Code(Code::DiskFull));
    }
    let Ok(plan) = bytes.plan_write(alloc, start, piece) else {
        return Err(PlanFault::Memory);
    };
    bytes_in_range(piece);
    let write = ForkWrite::of(bytes, plan);
    plan_of_write(alloc, now, fork, write)
}

/// The plan that gives a file's fork another length, or why there is none. Bytes behind the length go, and new ones are zeros; the same length has a
/// plan of no edits. It is refused as DiskFull where the bytes of all forks would pass the total.
pub fn plan_fork_length(
    alloc: Global,
    whole: &WholeVolume,
    now: Moment,
    fork: &ForkKey,
    len: u64,
) -> Result<Plan, PlanFault>
    requires { has_file whole.now.state.rows fork.now.node ≡ true }
    ensures may { IfOk result (MayCommit whole.now.state) }
    ensures plan { (file : Row) → row_at whole.now.state.rows fork.now.node ≡ Some file
        → PlansBytes whole.now.state now fork.now.node fork.now.resource (not (len == length (fork_of fork.now.resource file))) (fork_of fork.now.resource file) (resized (fork_of fork.now.resource file) len) result }
{
    forks_are_given_bytes();
    effects_are_edits();
    date_in_range(now);
    whole.keeps_sound();
    let bytes = fork_in(whole, fork.node, fork.resource);
    if len == bytes.len() {
        return Ok(Plan::new(now, Vec::new(alloc)));
    }
    if whole.would_pass(bytes.len(), len) {
        return Err(PlanFault::Code(Code::DiskFull));
    }
    let Ok(plan) = bytes.plan_set_length(alloc, len) else {
        return Err(PlanFault::Memory);
    };
    let write = ForkWrite::of(bytes, plan);
    plan_of_write(alloc, now, fork, write)
}
