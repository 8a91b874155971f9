//! A volume and a plan of it as it is, as a transition of the volume.
ghost use Rattle.std.specs.Prelude.{◌≡◌};
ghost use Rattle.volume_spec.specs.Edit.{after_call};
ghost use Rattle.volume_spec.specs.EditLaws.{MayEditAll};
ghost use Rattle.volume_edits.specs.edits.Planned.{StandOn, edits_of};

use crate::records::{Transition, ValueChange};
use crate::steps::records::{copied_text, head_of, icon_bytes, node_change};
use afp_base::{Bytes, NodeId, OutOfMemory};
use fork_bytes::Block;
use std::alloc::Global;
use std::marker::Model;
use volume_edits::{Plan, WholeVolume};
use volume_keeper_records::Head;

/// A volume, and a plan of it as it is, both lent.
///
/// Contracts see the volume before the plan and behind it.
#[derive(Drop)]
pub struct Step<'a> {
    whole: &'a WholeVolume,
    plan: &'a Plan,
}

impl<'a> Model for Step<'a> {
    ghost use Rattle.volume_spec.specs.Edit.{after_call};
    ghost use Rattle.volume_edits.specs.edits.Planned.{edits_of};
    ghost use Rattle.volume_changes.specs.steps.Step.{StepValue};
    ghost use Rattle.volume_changes.specs.steps.lemma.CanStep.{CanStep};

    ghost Value = { StepValue };

    ghost view = { λ a. record { before = a.whole.now.state; after = after_call a.whole.now.state a.plan.now.moment (edits_of a.plan.now.edits) } };

    ghost invariant = { λ a. CanStep a.whole.now.state a.plan.now.edits };
}

impl<'a> Step<'a> {
    /// A plan of this volume as it is, whose edits may be made.
    pub fn new(whole: &'a WholeVolume, plan: &'a Plan) -> Step<'a>
        requires may { MayEditAll whole.now.state (edits_of plan.now.edits) }
        requires before { StandOn whole.now.state plan.now.edits }
        ensures before { result.before ≡ whole.now.state }
        ensures after { result.after ≡ after_call whole.now.state plan.now.moment (edits_of plan.now.edits) }
    {
        Step { whole, plan }
    }
}

impl<'a> Transition for Step<'a> {
    ghost before = { λ step. step.before };

    ghost after = { λ step. step.after };

    fn head_before(&self) -> Head {
        head_of(self.whole.head())
    }

    fn head_after(&self) -> Head {
        head_of(self.whole.head_after(self.plan))
    }

    fn node_change(&self, alloc: Global, id: u32) -> Result<ValueChange, OutOfMemory> {
        let step = self.whole.node_step(self.plan, NodeId(id));
        node_change(alloc, step.before, step.after)
    }

    fn blocks(&self, alloc: Global, id: u32, resource: bool) -> Result<Vec<Block>, OutOfMemory> {
        self.whole
            .blocks_after(alloc, self.plan, NodeId(id), resource)
    }

    fn comment_before(&self, alloc: Global, node: u32) -> Result<Option<Bytes>, OutOfMemory> {
        copied_text(alloc, self.whole.comment(NodeId(node)))
    }

    fn comment_after(&self, alloc: Global, node: u32) -> Result<Option<Bytes>, OutOfMemory> {
        copied_text(alloc, self.whole.comment_after(self.plan, NodeId(node)))
    }

    fn icon_before(&self, alloc: Global, key: &[u8; 9]) -> Result<Option<Bytes>, OutOfMemory> {
        icon_bytes(alloc, self.whole.icon(key))
    }

    fn icon_after(&self, alloc: Global, key: &[u8; 9]) -> Result<Option<Bytes>, OutOfMemory> {
        icon_bytes(alloc, self.whole.icon_after(self.plan, key))
    }

    fn appl_before(&self, creator: &[u8; 4], node: u32) -> Option<u32> {
        self.whole.appl(creator, NodeId(node))
    }

    fn appl_after(&self, creator: &[u8; 4], node: u32) -> Option<u32> {
        self.whole.appl_after(self.plan, creator, NodeId(node))
    }
}
