//! Plans carried out. None of these takes memory.
ghost use Rattle.std.specs.Prelude.{◌≡◌, ◌≤◌, pos, true};
ghost use Rattle.std.specs.List.{list_all};
ghost use Rattle.volume_spec.specs.Edit.{after_call, after_edits, edited};
ghost use Rattle.volume_spec.specs.EditLaws.{MayEdit, MayEditAll};
ghost use Rattle.volume_spec.specs.EditRanges.{is_typed_edit};
ghost use Rattle.volume_spec.specs.TypedVolume.{is_date};
ghost use Rattle.volume_edits.specs.edits.Planned.{StandOn, StandsOn, all_take, edits_of, takes};

use crate::edits::carry_out::carry_out;
use crate::edits::edit::Edit;
use crate::edits::plan::Plan;
use crate::edits::whole::WholeVolume;
use afp_base::Moment;
use std::alloc::Global;
use volume_spec::edit_laws::{edits_keep_numbers_in_ranges, edits_keep_volumes_sound};

/// A moment is a date. The call does nothing.
fn date_in_range(now: Moment)
    ensures { is_date (pos now) ≡ true }
{
    let _ = now.seconds();
}

impl WholeVolume {
    /// Carries out one edit. It takes no memory.
    pub fn edit(&mut self, alloc: Global, edit: Edit)
        requires may { MayEdit self.old.state edit.edit }
        requires before { StandsOn self.old.state edit.edit edit.before }
        requires typed { is_typed_edit edit.edit ≡ true }
        requires room { takes edit.edit ≤ self.old.spare }
        ensures state { self.new.state ≡ edited self.old.state edit.edit }
        ensures spare { takes edit.edit ≡ 0 → self.old.spare ≤ self.new.spare }
    {
        edits_keep_volumes_sound();
        edits_keep_numbers_in_ranges();
        carry_out(&mut self.tree, &mut self.desktop, alloc, edit);
    }

    /// Carries out edits, one after the other.
    fn edit_all(&mut self, alloc: Global, edits: Vec<Edit>)
        requires may { MayEditAll self.old.state (edits_of edits.items) }
        requires before { StandOn self.old.state edits.items }
        requires typed { list_all is_typed_edit (edits_of edits.items) ≡ true }
        requires few { all_take edits.items ≤ 1 }
        requires room { 1 ≤ self.old.spare }
        ensures { self.new.state ≡ after_edits self.old.state (edits_of edits.items) }
    {
        let mut rest = edits;
        while !rest.is_empty() {
            let edit = rest.remove(0);
            self.edit(alloc, edit);
        }
    }

    /// Carries out a plan of this volume as it is. It takes no memory. A plan of no edits changes nothing.
    pub fn apply(&mut self, alloc: Global, plan: Plan)
        requires may { MayEditAll self.old.state (edits_of plan.edits) }
        requires before { StandOn self.old.state plan.edits }
        requires typed { list_all is_typed_edit (edits_of plan.edits) ≡ true }
        requires room { 1 ≤ self.old.spare }
        ensures { self.new.state ≡ after_call self.old.state plan.moment (edits_of plan.edits) }
    {
        edits_keep_volumes_sound();
        edits_keep_numbers_in_ranges();
        self.keeps_sound();
        if plan.is_empty() {
            return;
        }
        let Plan { moment, edits } = plan;
        date_in_range(moment);
        self.edit_all(alloc, edits);
        self.tree.touch(moment);
    }
}
