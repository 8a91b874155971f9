//! What a plan leaves of a mapping, told before it is carried out. None of these takes memory.
ghost use Rattle.std.specs.Prelude.{◌≡◌, ◌≤◌, length, take, option_map, bytes_eq};
ghost use Rattle.volume_spec.specs.Desktop.{appl_at, pair_key};
ghost use Rattle.volume_spec.specs.Edit.{after_call, after_edits};
ghost use Rattle.volume_spec.specs.EditLaws.{MayEditAll};
ghost use Rattle.volume_spec.specs.VolumeState.{Appl};
ghost use Rattle.volume_edits.specs.edits.Planned.{edits_of};
ghost use Rattle.volume_edits.specs.edits.lemma.Steps.{tag_left};

use crate::edits::edit::{Edit, Kind};
use crate::edits::plan::Plan;
use crate::edits::whole::WholeVolume;
use afp_base::NodeId;
use volume_spec::desktop_laws::what_was_put_is_found;

/// Whether one creator and file are another.
fn are_one_pair(creator: &[u8; 4], node: NodeId, other: &[u8; 4], other_node: NodeId) -> bool
    ensures { result ≡ bytes_eq (pair_key creator.now node.0) (pair_key other.now other_node.0) }
{
    creator.as_slice() == other.as_slice() && node.0 == other_node.0
}

impl Edit {
    /// What an edit leaves of the tag of the mapping of a creator and a file.
    fn tag_left(&self, creator: &[u8; 4], node: NodeId, tag: Option<u32>) -> Option<u32>
        ensures { result ≡ tag_left self.now.edit creator.now node.0 tag }
    {
        match &self.0 {
            Kind::Goes { id } => if id.0 == node.0 { None } else { tag },
            Kind::PutsAppl {
                creator: put,
                node: to,
                tag: new,
            } => {
                if are_one_pair(put, *to, creator, node) {
                    Some(*new)
                } else {
                    tag
                }
            }
            Kind::TakesAppl {
                creator: taken,
                node: from,
            } => {
                if are_one_pair(taken, *from, creator, node) {
                    None
                } else {
                    tag
                }
            }
            _ => tag,
        }
    }
}

impl WholeVolume {
    /// The tag of the mapping of a creator and a file behind so many edits.
    fn appl_behind(
        &self,
        edits: &[Edit],
        count: usize,
        creator: &[u8; 4],
        node: NodeId,
    ) -> Option<u32>
        requires within { count ≤ length edits.now }
        requires may { MayEditAll self.now.state (edits_of (take count edits.now)) }
        ensures { result ≡ option_map (λ (appl : Appl). appl.tag) (appl_at creator.now node.0 (after_edits self.now.state (edits_of (take count edits.now))).appls) }
    {
        what_was_put_is_found();
        if count == 0 {
            return self.desktop.appl(creator, node);
        }
        let edit = &edits[count - 1];
        let tag = self.appl_behind(edits, count - 1, creator, node);
        edit.tag_left(creator, node, tag)
    }

    /// The tag of the mapping of a creator and a file, as a plan of this volume as it is leaves it.
    pub fn appl_after(&self, plan: &Plan, creator: &[u8; 4], node: NodeId) -> Option<u32>
        requires { MayEditAll self.now.state (edits_of plan.now.edits) }
        ensures { result ≡ option_map (λ (appl : Appl). appl.tag) (appl_at creator.now node.0 (after_call self.now.state plan.now.moment (edits_of plan.now.edits)).appls) }
    {
        let edits = plan.edits.as_slice();
        self.appl_behind(edits, edits.len(), creator, node)
    }
}
