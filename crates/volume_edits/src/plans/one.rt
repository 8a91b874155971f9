//! Plans of a few edits.
ghost use Rattle.std.specs.Prelude.{◌≡◌, ◌≤◌, ◌∷◌, [], pos, true};
ghost use Rattle.volume_spec.specs.TypedVolume.{is_date, is_long};
ghost use Rattle.volume_edits.specs.edits.Planned.{all_take, writes_alone};
ghost use Rattle.volume_edits.specs.plans.lemma.One.{HasEdits, Holds, IsPlanOf};

use crate::edits::{Edit, Plan, WholeVolume};
use afp_base::Moment;
use std::alloc::Global;
use volume_spec::edit_laws::{calls_may_edit, edits_keep_numbers_in_ranges};
use volume_tree::PlanFault;

/// A moment is a date. The call does nothing.
fn date_in_range(now: Moment)
    ensures { is_date (pos now) ≡ true }
{
    let _ = now.seconds();
}

/// A user is a number of four bytes. The call does nothing.
fn user_in_range(user: u32)
    ensures { is_long user ≡ true }
{}

/// What plans of a user's calls go by. The call does nothing.
pub(crate) fn laws_hold(whole: &WholeVolume, user: u32, now: Moment)
    ensures { Holds whole.now.state user now }
{
    calls_may_edit();
    edits_keep_numbers_in_ranges();
    whole.keeps_sound();
    date_in_range(now);
    user_in_range(user);
}

/// The plan of one edit. The one error is want of memory.
pub(crate) fn plan_one(alloc: Global, now: Moment, edit: Edit) -> Result<Plan, PlanFault>
    ensures { IsPlanOf now (edit ∷ []) result }
{
    let mut edits = Vec::new(alloc);
    match edits.push(edit) {
        Ok(()) => Ok(Plan::new(now, edits)),
        Err(_) => Err(PlanFault::Memory),
    }
}

/// The plan of two edits. The one error is want of memory.
pub(crate) fn plan_two(
    alloc: Global,
    now: Moment,
    first: Edit,
    second: Edit,
) -> Result<Plan, PlanFault>
    requires few { all_take (first ∷ second ∷ []) ≤ 1 }
    requires alone { writes_alone (first ∷ second ∷ []) ≡ true }
    ensures { IsPlanOf now (first ∷ second ∷ []) result }
{
    match vec![in alloc; first, second] {
        Ok(edits) => Ok(Plan::new(now, edits)),
        Err(_) => Err(PlanFault::Memory),
    }
}

/// The plan of three edits. The one error is want of memory.
pub(crate) fn plan_three(
    alloc: Global,
    now: Moment,
    first: Edit,
    second: Edit,
    third: Edit,
) -> Result<Plan, PlanFault>
    requires few { all_take (first ∷ second ∷ third ∷ []) ≤ 1 }
    requires alone { writes_alone (first ∷ second ∷ third ∷ []) ≡ true }
    ensures { IsPlanOf now (first ∷ second ∷ third ∷ []) result }
{
    match vec![in alloc; first, second, third] {
        Ok(edits) => Ok(Plan::new(now, edits)),
        Err(_) => Err(PlanFault::Memory),
    }
}

/// The plan of no edit.
pub(crate) fn plan_none(alloc: Global, now: Moment) -> Plan
    ensures { HasEdits now [] result }
{
    Plan::new(now, Vec::new(alloc))
}
