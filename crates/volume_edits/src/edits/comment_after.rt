//! What a plan leaves of a node's comment, told before it is carried out. None of these takes memory.
ghost use Rattle.std.specs.Prelude.{◌≡◌, ◌≤◌, length, take, option_map};
ghost use Rattle.std.specs.Option.{option_copied};
ghost use Rattle.volume_spec.specs.Desktop.{comment_at};
ghost use Rattle.volume_spec.specs.Edit.{after_call, after_edits};
ghost use Rattle.volume_spec.specs.EditLaws.{MayEditAll};
ghost use Rattle.volume_spec.specs.VolumeState.{Comment};
ghost use Rattle.volume_edits.specs.edits.Planned.{edits_of};
ghost use Rattle.volume_edits.specs.edits.lemma.Steps.{comment_left, text_of};

use crate::edits::edit::{Edit, Kind};
use crate::edits::plan::Plan;
use crate::edits::whole::WholeVolume;
use afp_base::{Bytes, NodeId};

/// The most bytes of a comment that are kept (AFP Reference, "FPAddComment").
const LONGEST: usize = 199;

/// What is kept of a text, where it is not empty.
fn text_of(text: &Bytes) -> Option<&[u8]>
    ensures { option_copied result ≡ text_of text.now }
{
    let bytes = text.as_slice();
    if bytes.is_empty() {
        return None;
    }
    if bytes.len() < LONGEST {
        return Some(bytes);
    }
    Some(&bytes[..LONGEST])
}

impl Edit {
    /// What an edit leaves of the text of a node's comment.
    fn comment_left<'a>(&'a self, node: NodeId, text: Option<&'a [u8]>) -> Option<&'a [u8]>
        ensures { option_copied result ≡ comment_left self.now.edit node.0 (option_copied text.entry) }
    {
        match &self.0 {
            Kind::Goes { id } => if id.0 == node.0 { None } else { text },
            Kind::Comments {
                node: commented,
                text: new,
            } => {
                if commented.0 == node.0 {
                    text_of(new)
                } else {
                    text
                }
            }
            _ => text,
        }
    }
}

impl WholeVolume {
    /// The text of a node's comment behind so many edits.
    fn comment_behind<'a>(
        &'a self,
        edits: &'a [Edit],
        count: usize,
        node: NodeId,
    ) -> Option<&'a [u8]>
        requires within { count ≤ length edits.now }
        requires may { MayEditAll self.now.state (edits_of (take count edits.now)) }
        ensures { option_copied result ≡ option_map (λ (comment : Comment). comment.text) (comment_at node.0 (after_edits self.now.state (edits_of (take count edits.now))).comments) }
    {
        if count == 0 {
            return self.desktop.comment(node);
        }
        let edit = &edits[count - 1];
        let text = self.comment_behind(edits, count - 1, node);
        edit.comment_left(node, text)
    }

    /// The text of a node's comment, as a plan of this volume as it is leaves it.
    pub fn comment_after<'a>(&'a self, plan: &'a Plan, node: NodeId) -> Option<&'a [u8]>
        requires { MayEditAll self.now.state (edits_of plan.now.edits) }
        ensures { option_copied result ≡ option_map (λ (comment : Comment). comment.text) (comment_at node.0 (after_call self.now.state plan.now.moment (edits_of plan.now.edits)).comments) }
    {
        let edits = plan.edits.as_slice();
        self.comment_behind(edits, edits.len(), node)
    }
}
