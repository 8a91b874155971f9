//! Forks that are kept of a file, and change in place. None of these takes memory.
ghost use Rattle.std.specs.Prelude.{◌≡◌, ◌==◌, ℕ, List, true, false, Some, is_some, if◌then◌else◌};
ghost use Rattle.std.specs.Ordering.{nat_cmp};
ghost use Rattle.fork_bytes.specs.Plan.{IsForkPlan as IsForkPlan};
ghost use Rattle.sorted_map.specs.map.Entries.{at, IsAt};
ghost use Rattle.volume_tree.specs.lemma.ForkEffect.{IsChanged, kept_fork};

use crate::forks::FileForks;
use afp_base::NodeId;
use fork_bytes::ForkPlan;
use sorted_map::SortedMap;
use std::alloc::Global;

/// Carries out a plan of a fork that is kept.
pub(crate) fn change_fork(
    forks: &mut SortedMap<u64, FileForks>,
    alloc: Global,
    id: NodeId,
    resource: bool,
    plan: ForkPlan,
)
    requires there { is_some (at nat_cmp forks.old id.0) ≡ true }
    requires plan { (after : List ℕ) × IsForkPlan (kept_fork resource (at nat_cmp forks.old id.0)) after plan }
    ensures others { (q : ℕ) → (q == id.0) ≡ false → at nat_cmp forks.new q ≡ at nat_cmp forks.old q }
    ensures changed { (after : List ℕ) → IsForkPlan (kept_fork resource (at nat_cmp forks.old id.0)) after plan → IsChanged resource after (at nat_cmp forks.old id.0) (at nat_cmp forks.new id.0) }
{
    let key = u64::from(id.0);
    let place = place_of(forks, key);
    let mut kept = forks.replace(place, key, FileForks::new(alloc));
    kept.change(resource, plan);
    let _ = forks.replace(place, key, kept);
}

/// Where forks are that are kept.
pub(crate) fn place_of(forks: &SortedMap<u64, FileForks>, key: u64) -> usize
    requires { is_some (at nat_cmp forks.now key) ≡ true }
    ensures { IsAt nat_cmp forks.now key result }
{
    match forks.place(key) {
        Some(place) => place,
        None => unreachable!(),
    }
}

/// Puts forks in place of others.
pub(crate) fn put_back(forks: &mut SortedMap<u64, FileForks>, key: u64, kept: FileForks)
    requires { is_some (at nat_cmp forks.old key) ≡ true }
    ensures { (q : ℕ) → at nat_cmp forks.new q ≡ (if q == key then Some kept else at nat_cmp forks.old q) }
{
    match forks.insert(key, kept) {
        Ok(_) => {}
        Err(_) => unreachable!(),
    }
}
