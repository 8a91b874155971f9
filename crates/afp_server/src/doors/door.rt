//! Serving the links that come through a door, until it is closed.
ghost use Rattle.std.specs.Prelude.{◌≡◌, ◌<◌, ◌^◌, ℕ, List, false};
ghost use Rattle.afp_serial.specs.Shown.{IsSoundShown};
ghost use Rattle.afp_server.specs.doors.Served.{Drains, Grows, ServesDoor};
ghost use Rattle.afp_server.specs.doors.lemma.Next.{Leaves, ServesNext};

use crate::link::LinkRoom;
use afp_base::{LinkNumber, Moment};
use afp_outside::{Accepted, Gate, Listener};
use afp_serial::{Ask, House, Teller};
use std::alloc::Global;
use std::sync::Wait;

/// Why no more links are served.
#[derive(Clone, Copy, Debug, PartialEq, Eq)]
pub enum WorkerEnd {
    /// The door is closed.
    Closed,
    /// The door failed.
    Failed,
    /// There was no memory for a link before it was read.
    Memory,
}

/// Serves the next link that comes through the door, and hands it back. It says why there are no more.
fn serve_next<N: Listener, T: Teller, G: Gate>(
    alloc: Global,
    house: &House,
    door: &mut N,
    teller: &mut T,
    gate: &G,
    turns: u64,
) -> Option<WorkerEnd>
    requires turns { turns < 2 ^ 63 }
    ensures fixed { T.fixed teller.new ≡ T.fixed teller.old }
    ensures serves { ServesNext N.Link.link_state G.passed house.now turns (N.door_state door.old) (T.shown teller.old) result (N.door_state door.new) (T.shown teller.new) }
{
    match door.accept() {
        Accepted::Closed => Some(WorkerEnd::Closed),
        Accepted::Failed => Some(WorkerEnd::Failed),
        Accepted::Link(link) => {
            let mut link = link;
            let Ok(room) = LinkRoom::new(alloc, house) else {
                door.back(link);
                return Some(WorkerEnd::Memory);
            };
            room.serve(&mut link, teller, gate, turns);
            door.back(link);
            None
        }
    }
}

/// Asks to drain, at the first moment.
fn drain<T: Teller>(teller: &mut T)
    ensures fixed { T.fixed teller.new ≡ T.fixed teller.old }
    ensures drains { Drains (T.shown teller.old) (T.shown teller.new) }
{
    let Some(first) = Moment::new(0) else {
        unreachable!()
    };
    teller.ask(first, LinkNumber(0), Ask::Drain, &mut []);
}

/// Asks to drain, where the door is closed.
fn leave<T: Teller>(teller: &mut T, end: WorkerEnd)
    ensures fixed { T.fixed teller.new ≡ T.fixed teller.old }
    ensures leaves { Leaves end (T.shown teller.old) (T.shown teller.new) }
{
    match end {
        WorkerEnd::Closed => drain(teller),
        WorkerEnd::Failed => {}
        WorkerEnd::Memory => {}
    }
}

/// Serves each link that comes through the door, one after the other, and hands it back, until the door is closed; then it asks
/// to drain.
pub fn serve_all<R: Wait, N: Listener, T: Teller, G: Gate>(
    rt: &R,
    alloc: Global,
    house: &House,
    door: &mut N,
    teller: &mut T,
    gate: &G,
    turns: u64,
) -> WorkerEnd
    requires open { (N.door_state door.old).closed ≡ false }
    requires turns { turns < 2 ^ 63 }
    ensures fixed { T.fixed teller.new ≡ T.fixed teller.old }
    ensures serves { (places : List ℕ) × Grows (T.shown teller.old) places (T.shown teller.new)
        × ServesDoor N.Link.link_state G.passed house.now turns (T.shown teller.old).start (T.shown teller.new).history (N.door_state door.old) places result (N.door_state door.new) }
    ensures sound { IsSoundShown (T.shown teller.new) }
{
    for _ in rt.forever() {
        match serve_next(alloc, house, door, teller, gate, turns) {
            None => {}
            Some(end) => {
                leave(teller, end);
                return end;
            }
        }
    }
    unreachable!()
}
