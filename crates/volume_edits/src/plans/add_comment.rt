//! FPAddComment.
ghost use Rattle.std.specs.Prelude.{◌≡◌, IfOk};
ghost use Rattle.volume_spec.specs.Comments.{add_comment_refusal, does_comment};
ghost use Rattle.volume_spec.specs.VolumeCalls as call;
ghost use Rattle.volume_tree.specs.Answered.{Refuses};
ghost use Rattle.volume_edits.specs.plans.Plans.{Plans};

use crate::edits::{Edit, Plan, WholeVolume};
use crate::plans::asked::has_comment;
use crate::plans::one::{laws_hold, plan_none, plan_one};
use crate::plans::tree_asked::lacks_above;
use afp_base::{Bytes, Code, Moment, NodeId};
use afp_names::Path;
use std::alloc::Global;
use volume_spec::bytes_in_range;
use volume_spec::limits::WRITE_RIGHT;
use volume_tree::PlanFault;

/// Whether a text changes the comment of a node.
fn does_comment(whole: &WholeVolume, id: NodeId, text: &Bytes) -> bool
    ensures { result ≡ does_comment whole.now.state id.0 text.now }
{
    if !text.as_slice().is_empty() {
        return true;
    }
    has_comment(whole, id)
}

/// Why FPAddComment is refused, or the plan of it: the comment of a node is put. An empty text takes it away, and does nothing where there is none. Want of memory comes for no
/// other reason.
#[tactic(auto, unfolding(volume_spec::specs::Comments::add_comment_refusal))]
pub fn plan_add_comment(
    alloc: Global,
    whole: &WholeVolume,
    user: u32,
    now: Moment,
    dir: NodeId,
    path: &Path,
    text: Bytes,
) -> Result<Plan, PlanFault>
    ensures refused { Refuses result (add_comment_refusal whole.now.state user dir.0 path.now) }
    ensures plan { IfOk result (Plans whole.now.state user now (call.AddComment dir.0 path.now text)) }
{
    laws_hold(whole, user, now);
    bytes_in_range(text.as_slice());
    let id = match whole.resolve(alloc, user, dir, path) {
        Ok(id) => id,
        Err(fault) => return Err(fault),
    };
    if lacks_above(whole, user, WRITE_RIGHT, id) {
        return Err(PlanFault::Code(Code::AccessDenied));
    }
    if !does_comment(whole, id, &text) {
        return Ok(plan_none(alloc, now));
    }
    plan_one(alloc, now, Edit::comments(id, text))
}
