//! Turns of the links of a thread.
ghost use Rattle.std.specs.Prelude.{◌≡◌, ◌<◌, ◌^◌, ℕ, List, None};
ghost use Rattle.afp_serial.specs.Shown.{Shown};
ghost use Rattle.afp_server_table.specs.lemma.Links.{KeepsLinks, TakesOn, end_taken};

use crate::links::{Due, Links, Round};
use afp_outside::{Came, Gate, Readiness};
use afp_serial::Teller;
use afp_server::{Connection, Rest, TurnRoom, WorkerEnd};
use std::alloc::Global;

/// The most links that are taken in one round.
const MOST_NEW: u32 = 64;

/// Gives the link under a key its turn, and hands it back where it has ended. `true`: its frames of this turn were used up.
pub fn serve_one<P: Readiness, T: Teller, G: Gate>(
    key: usize,
    due: Due,
    poll: &mut P,
    links: &mut Links<P::Link, G::Log>,
    room: &mut TurnRoom,
    teller: &mut T,
    gate: &G,
    round: &Round,
) -> bool
    requires turns { round.now.turn.turns < 2 ^ 63 }
    ensures fixed { T.fixed teller.new ≡ T.fixed teller.old }
    ensures room { room.new ≡ room.old }
    ensures keeps { KeepsLinks P.Link.link_state G.passed room.old round.now.turn.turns links.old (P.door_state poll.old) (T.shown teller.old) links.new (P.door_state poll.new) (T.shown teller.new) }
{
    let Some(taken) = links.take(key) else {
        return false;
    };
    let mut seat = taken;
    let rest = seat.go(due, room, teller, gate, round);
    match rest {
        Rest::Over(_) => {
            let link = seat.part(room, teller);
            poll.back(link);
            false
        }
        _ => {
            links.put_back(seat);
            rest == Rest::More
        }
    }
}

/// Gives each of these links its turn, and notes those whose frames were used up.
pub fn serve_keys<P: Readiness, T: Teller, G: Gate>(
    keys: &[usize],
    poll: &mut P,
    links: &mut Links<P::Link, G::Log>,
    room: &mut TurnRoom,
    teller: &mut T,
    gate: &G,
    round: &Round,
    more: &mut Vec<usize>,
)
    requires turns { round.now.turn.turns < 2 ^ 63 }
    ensures fixed { T.fixed teller.new ≡ T.fixed teller.old }
    ensures room { room.new ≡ room.old }
    ensures keeps { KeepsLinks P.Link.link_state G.passed room.old round.now.turn.turns links.old (P.door_state poll.old) (T.shown teller.old) links.new (P.door_state poll.new) (T.shown teller.new) }
{
    for i in 0..keys.len() {
        if serve_one(keys[i], Due::Ready, poll, links, room, teller, gate, round) {
            // (where there is no memory to note it, it is served at the next eighth second)
            let _noted = more.push(keys[i]);
        }
    }
}

/// Gives each link its turn, and notes those whose frames were used up.
pub fn serve_each<P: Readiness, T: Teller, G: Gate>(
    due: Due,
    poll: &mut P,
    links: &mut Links<P::Link, G::Log>,
    room: &mut TurnRoom,
    teller: &mut T,
    gate: &G,
    round: &Round,
    more: &mut Vec<usize>,
)
    requires turns { round.now.turn.turns < 2 ^ 63 }
    ensures fixed { T.fixed teller.new ≡ T.fixed teller.old }
    ensures room { room.new ≡ room.old }
    ensures keeps { KeepsLinks P.Link.link_state G.passed room.old round.now.turn.turns links.old (P.door_state poll.old) (T.shown teller.old) links.new (P.door_state poll.new) (T.shown teller.new) }
{
    for key in 0..links.keys() {
        if serve_one(key, due, poll, links, room, teller, gate, round) {
            let _noted = more.push(key);
        }
    }
}

/// What became of a link that was to be taken.
#[derive(Clone, Copy, Debug, PartialEq, Eq)]
pub enum Taken {
    /// One was taken.
    One,
    /// None is there, or there is no room for one.
    NotYet,
    /// No link comes any more.
    Ended(WorkerEnd),
}

/// Takes the next link that is there.
fn take_next<P: Readiness, G: Gate>(
    alloc: Global,
    poll: &mut P,
    gate: &G,
    links: &mut Links<P::Link, G::Log>,
) -> Taken
    ensures takes { (block : List ℕ) (turns : ℕ) (shown : Shown) → TakesOn P.Link.link_state G.passed block turns links.old (P.door_state poll.old) shown None (end_taken result) links.new (P.door_state poll.new) }
{
    let Some(key) = links.next_key() else {
        return Taken::NotYet;
    };
    match poll.accept(key) {
        Came::Link(link) => {
            links.insert(Connection::new(alloc, link, gate.log()));
            Taken::One
        }
        Came::NotYet => Taken::NotYet,
        Came::Closed => Taken::Ended(WorkerEnd::Closed),
        Came::Failed => Taken::Ended(WorkerEnd::Failed),
    }
}

/// Takes the links that are there, up to so many. `One`: there may be more.
pub fn take_some<P: Readiness, G: Gate>(
    alloc: Global,
    poll: &mut P,
    gate: &G,
    links: &mut Links<P::Link, G::Log>,
) -> Taken
    ensures takes { (block : List ℕ) (turns : ℕ) (shown : Shown) → TakesOn P.Link.link_state G.passed block turns links.old (P.door_state poll.old) shown None (end_taken result) links.new (P.door_state poll.new) }
{
    for _ in 0..MOST_NEW {
        match take_next(alloc, poll, gate, links) {
            Taken::One => {}
            Taken::NotYet => return Taken::NotYet,
            Taken::Ended(end) => return Taken::Ended(end),
        }
    }
    Taken::One
}
