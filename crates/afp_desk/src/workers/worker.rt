//! A worker, and many at once.
ghost use Rattle.std.specs.Prelude.{◌≡◌, ◌^◌, ℕ, ◌<◌, length, slice_index_or, false};
ghost use Rattle.afp_desk.specs.desk.Passes.{IsOf, view};
ghost use Rattle.afp_desk.specs.workers.Workers.{Works, Worked};

use crate::desk::{Desk, DeskTeller, Pass};
use afp_outside::{Gate, Listener};
use afp_serial::House;
use afp_server::{WorkerEnd, serve_all};
use record_keeper::Keeper;
use std::alloc::Global;
use std::sync::Wait;
use std::thread;
use std::thread::Threads;

/// A door, the pass with which its links are served, and why no more of them are.
#[derive(Drop)]
pub struct Worker<K: Keeper, N> {
    pub pass: Pass<K>,
    pub door: N,
    pub end: WorkerEnd,
}

/// Serves the links of a door with a pass.
fn serve_with<K: Keeper, R: Wait, N: Listener, G: Gate>(
    rt: &R,
    alloc: Global,
    desk: &Desk<K>,
    house: &House,
    door: &mut N,
    pass: &mut Pass<K>,
    gate: &G,
    turns: u64,
) -> WorkerEnd
    requires desk { IsOf desk.now pass.old }
    requires open { (N.door_state door.old).closed ≡ false }
    requires turns { turns < 2 ^ 63 }
    ensures desk { IsOf desk.now pass.new }
    ensures works { Works N.Link.link_state G.passed house.now turns (view pass.old) (N.door_state door.old) (view pass.new) result (N.door_state door.new) }
{
    let mut teller = DeskTeller { rt, desk, pass };
    serve_all(rt, alloc, house, door, &mut teller, gate, turns)
}

/// A worker does its work.
fn work<K: Keeper, R: Wait, N: Listener, G: Gate>(
    rt: &R,
    alloc: Global,
    desk: &Desk<K>,
    house: &House,
    gate: &G,
    turns: u64,
    worker: &mut Worker<K, N>,
)
    requires desk { IsOf desk.now worker.old.pass }
    requires open { (N.door_state worker.old.door).closed ≡ false }
    requires turns { turns < 2 ^ 63 }
    ensures desk { IsOf desk.now worker.new.pass }
    ensures worked { Worked N.Link.link_state G.passed N.door_state house.now turns worker.old worker.new }
{
    worker.end = serve_with(
        rt,
        alloc,
        desk,
        house,
        &mut worker.door,
        &mut worker.pass,
        gate,
        turns,
    );
}

/// All workers do their work, in at most so many threads.
pub fn work_all<K: Keeper + Send, R: Threads + Wait + Sync, N: Listener + Send, G: Gate + Sync>(
    rt: &R,
    alloc: Global,
    desk: &Desk<K>,
    house: &House,
    gate: &G,
    turns: u64,
    workers: &mut [Worker<K, N>],
    threads: usize,
)
where
    N::Link: Send,
    G::Log: Send,
    requires threads { 0 < threads }
    requires turns { turns < 2 ^ 63 }
    requires desk { (i : ℕ) (d : _) → i < length workers.old → IsOf desk.now (slice_index_or workers.old i d).pass }
    requires open { (i : ℕ) (d : _) → i < length workers.old → (N.door_state (slice_index_or workers.old i d).door).closed ≡ false }
    ensures desk { (i : ℕ) (d : _) → i < length workers.old → IsOf desk.now (slice_index_or workers.new i d).pass }
    ensures worked { (i : ℕ) (d : _) → i < length workers.old → Worked N.Link.link_state G.passed N.door_state house.now turns (slice_index_or workers.old i d) (slice_index_or workers.new i d) }
{
    thread::for_each_mut(
        rt,
        workers,
        threads,
        &|i: usize, w: &mut Worker<K, N>|
            requires { IsOf desk.now w.old.pass × ((N.door_state w.old.door).closed ≡ false) × (turns < 2 ^ 63) }
            ensures { IsOf desk.entry.now w.new.pass × Worked N.Link.link_state G.passed N.door_state house.entry.now turns w.old w.new }
        { work(rt, alloc, desk, house, gate, turns, w) },
    );
}
