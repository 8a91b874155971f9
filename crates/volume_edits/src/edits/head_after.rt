//! What a plan leaves of a volume's dates and its next id, told before it is carried out. None of these takes memory.
ghost use Rattle.std.specs.Prelude.{◌≡◌, ◌≤◌, length, take};
ghost use Rattle.volume_spec.specs.Edit.{after_call, after_edits};
ghost use Rattle.volume_spec.specs.EditLaws.{MayEditAll};
ghost use Rattle.volume_edits.specs.edits.Planned.{edits_of};
ghost use Rattle.volume_edits.specs.edits.lemma.Steps.{backup_set};

use crate::edits::edit::{Edit, Kind};
use crate::edits::plan::Plan;
use crate::edits::whole::WholeVolume;
use crate::edits::whole_node::date_of;
use volume_tree::VolumeHead;

impl Edit {
    /// The volume's backup date that an edit sets.
    fn backup_set(&self) -> Option<i32>
        ensures { result ≡ backup_set self.now.edit }
    {
        match &self.0 {
            Kind::BacksUp { date } => Some(*date),
            _ => None,
        }
    }
}

impl WholeVolume {
    /// The backup date behind so many edits.
    fn backup_behind(&self, edits: &[Edit], count: usize) -> i32
        requires within { count ≤ length edits.now }
        requires may { MayEditAll self.now.state (edits_of (take count edits.now)) }
        ensures { result ≡ (after_edits self.now.state (edits_of (take count edits.now))).backup }
    {
        if count == 0 {
            return self.tree.head().backup;
        }
        let edit = &edits[count - 1];
        match edit.backup_set() {
            Some(date) => date,
            None => self.backup_behind(edits, count - 1),
        }
    }

    /// The volume's dates and its next node id, as a plan of this volume as it is leaves them.
    pub fn head_after(&self, plan: &Plan) -> VolumeHead
        requires { MayEditAll self.now.state (edits_of plan.now.edits) }
        ensures created { result.created ≡ (after_call self.now.state plan.now.moment (edits_of plan.now.edits)).created }
        ensures modified { result.modified ≡ (after_call self.now.state plan.now.moment (edits_of plan.now.edits)).modified }
        ensures backup { result.backup ≡ (after_call self.now.state plan.now.moment (edits_of plan.now.edits)).backup }
        ensures next_id { result.next_id ≡ (after_call self.now.state plan.now.moment (edits_of plan.now.edits)).next_id }
    {
        let mut head = self.tree.head();
        let edits = plan.edits.as_slice();
        if plan.is_empty() {
            return head;
        }
        head.modified = date_of(plan.moment);
        head.backup = self.backup_behind(edits, edits.len());
        head.next_id = self.next_behind(edits, edits.len());
        head
    }
}
