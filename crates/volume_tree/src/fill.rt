//! Forks that are filled block by block.
ghost use Rattle.std.specs.Prelude.{◌≡◌, ◌≤◌, ◌+◌, true, length, is_some, IfOk, OnOk, OnErr};
ghost use Rattle.std.specs.Ordering.{nat_cmp};
ghost use Rattle.afp_base.specs.ForkBytes.{splice};
ghost use Rattle.afp_base.specs.Limits.{most_fork_bytes};
ghost use Rattle.fork_bytes.specs.Plan.{IsForkPlan as IsForkPlan};
ghost use Rattle.sorted_map.specs.map.Entries.{at};
ghost use Rattle.volume_tree.specs.Filled.{FitsFork, filled};
ghost use Rattle.volume_tree.specs.lemma.ForkEffect.{kept_fork};

use crate::forks::FileForks;
use crate::kept_forks::change_fork;
use crate::volume::Volume;
use afp_base::laws::splice_puts_between;
use afp_base::{NodeId, OutOfMemory};
use fork_bytes::{BLOCK_SIZE, ForkPlan};
use sorted_map::SortedMap;
use std::alloc::Global;

impl Volume {
    /// Puts the bytes of a block into a fork of a file, from the block with an index on, and changes no date. An error changes
    /// nothing.
    pub fn fill(
        &mut self,
        alloc: Global,
        id: NodeId,
        resource: bool,
        index: u32,
        block: &[u8],
    ) -> Result<(), OutOfMemory>
        requires { FitsFork self.old.state id.0 resource index block.now }
        ensures ok { OnOk result (self.new.state ≡ filled id.0 resource index block.now self.old.state) }
        ensures err { OnErr result (self.new.state ≡ self.old.state) }
    {
        splice_puts_between();
        let from = BLOCK_SIZE as u64 * u64::from(index);
        let plan = plan_fill(&self.forks, alloc, id, resource, from, block)?;
        change_fork(&mut self.forks, alloc, id, resource, plan);
        Ok(())
    }
}

/// The plan of these bytes in a fork that is kept.
fn plan_fill(
    forks: &SortedMap<u64, FileForks>,
    alloc: Global,
    id: NodeId,
    resource: bool,
    from: u64,
    bytes: &[u8],
) -> Result<ForkPlan, OutOfMemory>
    requires there { is_some (at nat_cmp forks.now id.0) ≡ true }
    requires fits { from + length bytes.now ≤ most_fork_bytes }
    ensures { IfOk result (IsForkPlan (kept_fork resource (at nat_cmp forks.now id.0)) (splice (kept_fork resource (at nat_cmp forks.now id.0)) from bytes.now)) }
{
    match forks.get(u64::from(id.0)) {
        Some(kept) => kept.fork(resource).plan_write(alloc, from, bytes),
        None => unreachable!(),
    }
}
