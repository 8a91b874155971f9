//! A pass for each door.
ghost use Rattle.std.specs.Prelude.{◌≡◌, ℕ, ◌<◌, ◌≤◌, ◌+◌, [], length, slice_index_or, map, vec_len, vec_capacity};
ghost use Rattle.afp_desk.specs.desk.Passes.{IsOf, share, view};
ghost use Rattle.afp_desk.specs.desk.Rule.{all_shares};
ghost use Rattle.afp_desk.specs.workers.Gathers.{pass_view};
ghost use Rattle.afp_desk.specs.workers.Staffs.{Staffed, door_of};

use crate::desk::{Desk, Pass};
use crate::workers::worker::Worker;
use afp_server::WorkerEnd;
use record_keeper::Keeper;

/// A worker for each door, of which there are 16 at most.
pub fn staff<K: Keeper, N: Drop>(
    desk: &Desk<K>,
    first: &mut Pass<K>,
    doors: Vec<N>,
    workers: &mut Vec<Worker<K, N>>,
)
    requires desk { IsOf desk.now first.old }
    requires whole { share first.old ≡ all_shares }
    requires few { length doors.items ≤ 16 }
    requires none { workers.old.items ≡ [] }
    requires room { vec_len workers.old + length doors.items ≤ vec_capacity workers.old }
    ensures desk { IsOf desk.now first.new }
    ensures each { (i : ℕ) (d : _) → i < length workers.new.items → IsOf desk.now (slice_index_or workers.new.items i d).pass }
    ensures staffed { Staffed (view first.old) (view first.new) (map pass_view workers.new.items) }
    ensures doors { map door_of workers.new.items ≡ doors.items }
{
    for door in doors {
        let pass = desk.split(first);
        workers.push_reserved(Worker {
            pass,
            door,
            end: WorkerEnd::Memory,
        });
    }
}
