//! Serving a house whose volumes were loaded from their keepers: its doors are served at once, and the keepers are settled.
ghost use Rattle.std.specs.Prelude.{◌≡◌, ℕ, ◌<◌, ◌≤◌, ◌^◌, List, All, length, IfOk, IfErr, false};
ghost use Rattle.std.specs.List.{list_any};
ghost use Rattle.afp_core.specs.turns.Loads.{IsLoadedServer};
ghost use Rattle.record_keeper.specs.Records.{steadily};
ghost use Rattle.afp_desk.specs.workers.House.{ServesCore, ServesHouse, is_failed, is_memory, run_end};
ghost use Rattle.afp_desk.specs.workers.Keeping.{keeping};

use crate::desk::Trace;
use crate::workers::doors::{Finished, Unmade, serve_doors};
use crate::workers::gather::Done;
use afp_core::{Core, Counts, Retired};
use afp_outside::{Gate, Listener};
use afp_serial::House;
use afp_server::WorkerEnd;
use record_keeper::Keeper;
use std::alloc::Global;
use std::sync::Wait;
use std::thread::Threads;

/// What a run came to: the doors as it left them, in order, and how it ended. The trace is for contracts alone.
#[derive(Drop)]
pub struct Closing<N> {
    pub trace: Trace,
    pub done: Vec<Done<N>>,
    /// `Memory` where a worker found none for a link before it was read, else `Failed` where a door failed, else `Closed`.
    pub end: WorkerEnd,
    /// How many asks became entries, and how many sessions were opened.
    pub counts: Counts,
    /// What the keepers answered when they were asked to settle.
    pub retired: Retired,
}

/// Whether a worker found no memory.
fn is_memory(end: WorkerEnd) -> bool
    ensures { result ≡ is_memory end }
{
    match end {
        WorkerEnd::Closed => false,
        WorkerEnd::Failed => false,
        WorkerEnd::Memory => true,
    }
}

/// Whether a worker's door failed.
fn is_failed(end: WorkerEnd) -> bool
    ensures { result ≡ is_failed end }
{
    match end {
        WorkerEnd::Closed => false,
        WorkerEnd::Failed => true,
        WorkerEnd::Memory => false,
    }
}

/// Whether some worker found no memory.
fn has_memory<N>(done: &[Done<N>]) -> bool
    ensures { result ≡ list_any (λ d. is_memory d.end) done.now }
{
    done.iter().any(|one| is_memory(one.end))
}

/// Whether some worker's door failed.
fn has_failed<N>(done: &[Done<N>]) -> bool
    ensures { result ≡ list_any (λ d. is_failed d.end) done.now }
{
    done.iter().any(|one| is_failed(one.end))
}

/// How a run ended, by the ends of its workers.
fn run_end<N>(done: &[Done<N>]) -> WorkerEnd
    ensures { result ≡ run_end done.now }
{
    if has_memory(done) {
        WorkerEnd::Memory
    } else if has_failed(done) {
        WorkerEnd::Failed
    } else {
        WorkerEnd::Closed
    }
}

/// Serves a house, whose volumes were loaded from their keepers into a core: the links of all doors out of one history, each
/// door with a worker and a thread of its own, until each door is closed, has failed, or has a link that there is no memory for; and then
/// asks each keeper to settle. `turns` limits the bytes and quiets of a link.
///
/// At an error there was no memory. Nothing was served then, and the doors are as they came.
pub fn serve_loaded<
    K: Keeper + Send,
    R: Threads + Wait + Sync,
    N: Listener + Send + Drop,
    G: Gate + Sync,
>(
    rt: &R,
    alloc: Global,
    house: &House,
    core: Core<K>,
    doors: Vec<N>,
    gate: &G,
    turns: u64,
) -> Result<Closing<N>, Vec<N>>
where
    N::Link: Send,
    G::Log: Send,
    requires turns { turns < 2 ^ 63 }
    requires few { length doors.items ≤ 16 }
    requires open { All (λ door. (N.door_state door).closed ≡ false) doors.items }
    ensures core { IfOk result (λ f. ServesCore N.Link.link_state G.passed N.door_state (keeping K.records K.steady K.sure K.faults K.settles) house.now turns core doors.items f) }
    ensures house { IfOk result (λ f. (now : ℕ) (keepers : List K) → IsLoadedServer (steadily K.steady K.records) K.sure K.faults house.now now keepers core
        → ServesHouse N.Link.link_state G.passed N.door_state (keeping K.records K.steady K.sure K.faults K.settles) house.now turns now keepers doors.items f) }
    ensures doors { IfErr result (λ back. back.items ≡ doors.items) }
{
    match serve_doors(rt, alloc, house, core, doors, gate, turns) {
        Ok(finished) => {
            let Finished { core, trace, done } = finished;
            let counts = core.counts();
            core.keepers_hold();
            let end = run_end(done.as_slice());
            let retired = core.retire();
            Ok(Closing {
                trace,
                done,
                end,
                counts,
                retired,
            })
        }
        Err(unmade) => {
            let Unmade { core, doors } = unmade;
            let _retired = core.retire();
            Err(doors)
        }
    }
}
