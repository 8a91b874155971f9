//! Any number of doors over one history.
ghost use Rattle.std.specs.Prelude.{◌≡◌, ◌<◌, ◌^◌, ◌≤◌, All, length, IfOk, IfErr, false};
ghost use Rattle.afp_desk.specs.workers.Doors.{DoorsServed, account_of};

use crate::desk::{Desk, Trace};
use crate::workers::gather::{Done, gather};
use crate::workers::staff::staff;
use crate::workers::worker::work_all;
use afp_core::Core;
use afp_outside::{Gate, Listener};
use afp_serial::House;
use record_keeper::Keeper;
use std::alloc::Global;
use std::sync::Wait;
use std::thread::Threads;

/// What the doors came to.
#[derive(Drop)]
pub struct Finished<K: Keeper, N> {
    pub core: Core<K>,
    pub trace: Trace,
    pub done: Vec<Done<N>>,
}

/// What there was no memory for, as it was.
#[derive(Drop)]
pub struct Unmade<K: Keeper, N> {
    pub core: Core<K>,
    pub doors: Vec<N>,
}

/// How many threads so many doors want.
fn threads_for(doors: usize) -> usize
    ensures { 0 < result }
{
    if doors == 0 { 1 } else { doors }
}

/// Serves the links of all doors, of which there are 16 at most, each door with a worker and a thread of its own. At want of memory nothing was
/// served.
pub fn serve_doors<
    K: Keeper + Send,
    R: Threads + Wait + Sync,
    N: Listener + Send + Drop,
    G: Gate + Sync,
>(
    rt: &R,
    alloc: Global,
    house: &House,
    core: Core<K>,
    doors: Vec<N>,
    gate: &G,
    turns: u64,
) -> Result<Finished<K, N>, Unmade<K, N>>
where
    N::Link: Send,
    G::Log: Send,
    requires turns { turns < 2 ^ 63 }
    requires few { length doors.items ≤ 16 }
    requires open { All (λ door. (N.door_state door).closed ≡ false) doors.items }
    ensures ok { IfOk result (λ f. DoorsServed N.Link.link_state G.passed N.door_state house.now turns core doors.items (account_of f)) }
    ensures err { IfErr result (λ u. (u.core ≡ core) × (u.doors.items ≡ doors.items)) }
{
    let many = doors.len();
    let Ok(mut done) = Vec::with_capacity(alloc, many) else {
        return Err(Unmade { core, doors });
    };
    let Ok(mut workers) = Vec::with_capacity(alloc, many) else {
        return Err(Unmade { core, doors });
    };
    let (desk, mut first) = match Desk::new(alloc, core) {
        Ok(made) => made,
        Err(core) => return Err(Unmade { core, doors }),
    };
    staff(&desk, &mut first, doors, &mut workers);
    work_all(
        rt,
        alloc,
        &desk,
        house,
        gate,
        turns,
        workers.as_mut_slice(),
        threads_for(many),
    );
    gather(&desk, &mut first, workers, &mut done);
    let (core, trace) = desk.close(first);
    Ok(Finished { core, trace, done })
}
