//! The passes of all workers, put together.
ghost use Rattle.std.specs.Prelude.{◌≡◌, ◌≤◌, ◌+◌, ◌++◌, ℕ, ◌<◌, length, slice_index_or, map, vec_len, vec_capacity};
ghost use Rattle.afp_desk.specs.desk.Passes.{IsOf, view};
ghost use Rattle.afp_desk.specs.workers.Gathers.{Gathered, pass_view, done_of};

use crate::desk::{Desk, Pass};
use crate::workers::worker::Worker;
use afp_server::WorkerEnd;
use record_keeper::Keeper;

/// A door as the run left it, and why no more of its links were served.
#[derive(Drop)]
pub struct Done<N> {
    pub door: N,
    pub end: WorkerEnd,
}

/// One pass meets those of all workers.
pub fn gather<K: Keeper, N: Drop>(
    desk: &Desk<K>,
    first: &mut Pass<K>,
    workers: Vec<Worker<K, N>>,
    done: &mut Vec<Done<N>>,
)
    requires first { IsOf desk.now first.old }
    requires desk { (i : ℕ) (d : _) → i < length workers.items → IsOf desk.now (slice_index_or workers.items i d).pass }
    requires room { vec_len done.old + length workers.items ≤ vec_capacity done.old }
    ensures desk { IsOf desk.now first.new }
    ensures met { Gathered (view first.old) (map pass_view workers.items) (view first.new) }
    ensures done { done.new.items ≡ done.old.items ++ map done_of workers.items }
{
    for worker in workers {
        let Worker { pass, door, end } = worker;
        desk.meet(first, pass);
        done.push_reserved(Done { door, end });
    }
}
