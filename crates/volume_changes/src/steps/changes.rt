//! The changes of the records of a volume that a plan makes.
ghost use Rattle.std.specs.Prelude.{◌≡◌, IfOk};
ghost use Rattle.volume_spec.specs.Edit.{after_call};
ghost use Rattle.volume_spec.specs.EditLaws.{MayEditAll};
ghost use Rattle.record_keeper.specs.Records.{changed};
ghost use Rattle.volume_keeper_records.specs.Image.{kept_image};
ghost use Rattle.volume_changes.specs.records.Laws.{IsExact};
ghost use Rattle.volume_edits.specs.edits.Planned.{StandOn, edits_of};

use crate::records::changes;
use crate::steps::step::Step;
use crate::steps::touched::touched;
use afp_base::OutOfMemory;
use record_keeper::Change;
use std::alloc::Global;
use volume_edits::{Plan, WholeVolume};
use volume_spec::edit_laws::edits_keep_volumes_sound;

/// What a plan of this volume as it is changes in its records. Made at once, these changes turn the records of the volume into those of the volume
/// behind the plan. They name exactly the keys whose values differ, each once, in the order of its bytes. The one error is want of memory.
pub fn plan_changes(
    alloc: Global,
    whole: &WholeVolume,
    plan: &Plan,
) -> Result<Vec<Change>, OutOfMemory>
    requires may { MayEditAll whole.now.state (edits_of plan.now.edits) }
    requires before { StandOn whole.now.state plan.now.edits }
    ensures image { IfOk result (λ list. changed list.items (kept_image whole.now.state) ≡ kept_image (after_call whole.now.state plan.now.moment (edits_of plan.now.edits))) }
    ensures exact { IfOk result (λ list. IsExact list.items (kept_image whole.now.state) (kept_image (after_call whole.now.state plan.now.moment (edits_of plan.now.edits)))) }
{
    edits_keep_volumes_sound();
    whole.keeps_sound();
    let touched = match touched(alloc, whole, plan) {
        Ok(touched) => touched,
        Err(fault) => return Err(fault),
    };
    let step = Step::new(whole, plan);
    changes(alloc, &step, &touched)
}
