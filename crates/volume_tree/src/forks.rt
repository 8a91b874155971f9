//! The forks of files, by node id.
ghost use Rattle.std.specs.Prelude.{◌≡◌, ◌==◌, ℕ, List, [], true, false, None, if◌then◌else◌, is_some, OnOk};
ghost use Rattle.std.specs.Ordering.{nat_cmp};
ghost use Rattle.fork_bytes.specs.Plan.{IsForkPlan as IsForkPlan};
ghost use Rattle.sorted_map.specs.map.Entries.{at};
ghost use Rattle.volume_tree.specs.lemma.Kept.{IsShownAs};

use afp_base::OutOfMemory;
use fork_bytes::{Fork, ForkPlan, ForkWrite};
use sorted_map::SortedMap;
use std::alloc::Global;

/// The two forks of a file (AFP Reference, "File forks").
#[derive(Drop)]
pub struct FileForks {
    pub data_fork: Fork,
    pub resource_fork: Fork,
}

impl FileForks {
    /// Forks of no bytes. It takes no memory.
    pub(crate) fn new(alloc: Global) -> FileForks
        ensures data_fork { result.data_fork ≡ [] }
        ensures resource_fork { result.resource_fork ≡ [] }
    {
        FileForks {
            data_fork: Fork::new(alloc),
            resource_fork: Fork::new(alloc),
        }
    }
}

impl FileForks {
    /// The one fork or the other.
    pub fn fork(&self, resource: bool) -> &Fork
        ensures { result.now ≡ (if resource then self.now.resource_fork else self.now.data_fork) }
    {
        if resource {
            &self.resource_fork
        } else {
            &self.data_fork
        }
    }
}

impl FileForks {
    /// Carries out a plan of the one fork or the other. It takes no memory.
    pub(crate) fn change(&mut self, resource: bool, plan: ForkPlan)
        requires { (after : List ℕ) × IsForkPlan (if resource then self.old.resource_fork else self.old.data_fork) after plan }
        ensures { (after : List ℕ) → IsForkPlan (if resource then self.old.resource_fork else self.old.data_fork) after plan → self.new ≡ (record self.old { data_fork = (if resource then self.old.data_fork else after); resource_fork = (if resource then after else self.old.resource_fork) }) }
    {
        if resource {
            self.resource_fork.apply(plan);
        } else {
            self.data_fork.apply(plan);
        }
    }
}

impl FileForks {
    /// The one fork or the other gets the bytes of a write of it as it is. It takes no memory.
    pub(crate) fn write(&mut self, resource: bool, write: ForkWrite)
        requires { write.before ≡ (if resource then self.old.resource_fork else self.old.data_fork) }
        ensures { self.new ≡ (record self.old { data_fork = (if resource then self.old.data_fork else write.after); resource_fork = (if resource then write.after else self.old.resource_fork) }) }
    {
        if resource {
            self.resource_fork.apply_write(write);
        } else {
            self.data_fork.apply_write(write);
        }
    }
}

/// Keeps forks of no bytes for an id for which none are kept. An error changes nothing.
pub(crate) fn keep(
    forks: &mut SortedMap<u64, FileForks>,
    alloc: Global,
    id: u64,
) -> Result<(), OutOfMemory>
    ensures kept { OnOk result (is_some (at nat_cmp forks.new id) ≡ true) }
    ensures others { (q : ℕ) → (q == id) ≡ false → at nat_cmp forks.new q ≡ at nat_cmp forks.old q }
    ensures shown { (q : ℕ) → IsShownAs (at nat_cmp forks.old q) (at nat_cmp forks.new q) }
{
    if forks.get(id).is_some() {
        return Ok(());
    }
    let _ = forks.insert(id, FileForks::new(alloc))?;
    Ok(())
}

/// Forgets the forks of an id.
pub(crate) fn forget(forks: &mut SortedMap<u64, FileForks>, id: u64)
    ensures { (q : ℕ) → at nat_cmp forks.new q ≡ (if q == id then None else at nat_cmp forks.old q) }
{
    let _ = forks.remove(id);
}
