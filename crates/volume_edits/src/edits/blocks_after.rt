//! The blocks of a fork that a plan changes, told before it is carried out.
ghost use Rattle.std.specs.Prelude.{◌≡◌, ◌≤◌, ◌==◌, ◌&&◌, [], length, take, true, option_map, unwrap_or, IfOk, if◌then◌else◌};
ghost use Rattle.std.specs.Bool.{beq};
ghost use Rattle.std.specs.Option.{option_copied};
ghost use Rattle.fork_bytes.specs.Plan.{changes_of};
ghost use Rattle.volume_spec.specs.Edit.{after_call, after_edits};
ghost use Rattle.volume_spec.specs.EditLaws.{MayEditAll};
ghost use Rattle.volume_spec.specs.ForkEffect.{fork_of};
ghost use Rattle.volume_spec.specs.Walk.{row_at};
ghost use Rattle.volume_edits.specs.edits.After.{bytes_of};
ghost use Rattle.volume_edits.specs.edits.Planned.{StandOn, edits_of, write_none};
ghost use Rattle.volume_edits.specs.edits.lemma.Steps.{coming_row};

use crate::edits::edit::{DatedWrite, Edit, Kind};
use crate::edits::laws::edits_go_by_node;
use crate::edits::plan::Plan;
use crate::edits::whole::WholeVolume;
use afp_base::{NodeId, OutOfMemory};
use fork_bytes::{Block, Fork};
use std::alloc::Global;
use volume_spec::edit_laws::edits_keep_volumes_sound;

impl Edit {
    /// A fork of the node that comes, where the next id that it draws is this one.
    fn coming_fork(&self, next: u64, id: NodeId, resource: bool) -> Option<&Fork>
        ensures { option_copied result ≡ option_map (fork_of resource) (coming_row self.now.edit next id.0) }
    {
        match &self.0 {
            Kind::Comes { new } => {
                if u64::from(id.0) == next {
                    Some(new.fork(resource))
                } else {
                    None
                }
            }
            _ => None,
        }
    }
}

/// A fork, or one of no bytes where there is none.
fn fork_or<'a>(fork: Option<&'a Fork>, none: &'a Fork) -> &'a Fork
    requires { none.now ≡ [] }
    ensures { result.now ≡ unwrap_or (option_copied fork.entry) [] }
{
    match fork {
        Some(fork) => fork,
        None => none,
    }
}

/// Whether a write is of this fork.
fn is_of(write: &DatedWrite, id: NodeId, resource: bool) -> bool
    ensures { result ≡ (write.now.id.0 == id.0) && beq write.now.resource resource }
{
    write.id.0 == id.0 && write.resource == resource
}

/// The blocks of a fork that a write changes: none where it is of another fork.
fn blocks_written(
    alloc: Global,
    write: &DatedWrite,
    id: NodeId,
    resource: bool,
) -> Result<Vec<Block>, OutOfMemory>
    ensures { IfOk result (λ list. list.items ≡ (if (write.now.id.0 == id.0) && beq write.now.resource resource then changes_of write.now.write.before write.now.write.after else [])) }
{
    if is_of(write, id, resource) {
        write.write.plan().blocks(alloc)
    } else {
        Ok(Vec::new(alloc))
    }
}

impl WholeVolume {
    /// A fork behind so many edits that write none.
    fn fork_behind<'a>(
        &'a self,
        edits: &'a [Edit],
        count: usize,
        id: NodeId,
        resource: bool,
    ) -> Option<&'a Fork>
        requires within { count ≤ length edits.now }
        requires may { MayEditAll self.now.state (edits_of (take count edits.now)) }
        requires none { write_none edits.now ≡ true }
        ensures { unwrap_or (option_copied result) [] ≡ bytes_of resource (row_at (after_edits self.now.state (edits_of (take count edits.now))).rows id.0) }
    {
        edits_go_by_node();
        edits_keep_volumes_sound();
        self.keeps_sound();
        if count == 0 {
            return self.fork_before(id, resource);
        }
        let edit = &edits[count - 1];
        if let Some(other) = edit.partner(id) {
            return self.fork_behind(edits, count - 1, other, resource);
        }
        if edit.does_go(id) {
            return None;
        }
        match edit.coming_fork(self.next_behind(edits, count - 1), id, resource) {
            Some(fork) => Some(fork),
            None => self.fork_behind(edits, count - 1, id, resource),
        }
    }

    /// The blocks of a fork that differ behind edits that write none.
    fn blocks_behind(
        &self,
        alloc: Global,
        edits: &[Edit],
        id: NodeId,
        resource: bool,
    ) -> Result<Vec<Block>, OutOfMemory>
        requires may { MayEditAll self.now.state (edits_of edits.now) }
        requires none { write_none edits.now ≡ true }
        ensures { IfOk result (λ list. list.items ≡ changes_of (bytes_of resource (row_at self.now.state.rows id.0)) (bytes_of resource (row_at (after_edits self.now.state (edits_of edits.now)).rows id.0))) }
    {
        let none = Fork::new(alloc);
        let before = fork_or(self.fork_before(id, resource), &none);
        let after = fork_or(self.fork_behind(edits, edits.len(), id, resource), &none);
        before.differing(alloc, after)
    }

    /// The blocks of a fork that differ behind a plan of this volume as it is, by rising index, as they are then. A node that is not there has forks
    /// of no bytes. A write of a fork names the blocks of its own plan. The one error is want of memory.
    pub fn blocks_after(
        &self,
        alloc: Global,
        plan: &Plan,
        id: NodeId,
        resource: bool,
    ) -> Result<Vec<Block>, OutOfMemory>
        requires may { MayEditAll self.now.state (edits_of plan.now.edits) }
        requires before { StandOn self.now.state plan.now.edits }
        ensures { IfOk result (λ list. list.items ≡ changes_of (bytes_of resource (row_at self.now.state.rows id.0)) (bytes_of resource (row_at (after_call self.now.state plan.now.moment (edits_of plan.now.edits)).rows id.0))) }
    {
        edits_go_by_node();
        self.keeps_sound();
        match plan.write() {
            Some(write) => blocks_written(alloc, write, id, resource),
            None => self.blocks_behind(alloc, plan.edits.as_slice(), id, resource),
        }
    }
}
