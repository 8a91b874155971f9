//! Serving all links that come through a door at once, until it is closed.
ghost use Rattle.std.specs.Prelude.{◌≡◌, ◌<◌, ◌^◌, ℕ, List, Option, None, Some, IfSome, false};
ghost use Rattle.slab.specs.Slab.{slab_len};
ghost use Rattle.afp_serial.specs.Shown.{IsSoundShown, Shown};
ghost use Rattle.afp_serial.specs.StatusBlock.{status_block};
ghost use Rattle.afp_server.specs.doors.Served.{Drains, Grows};
ghost use Rattle.afp_server.specs.doors.lemma.Next.{Leaves};
ghost use Rattle.afp_server_table.specs.AtOnce.{ServesPoll};
ghost use Rattle.afp_server_table.specs.lemma.Links.{KeepsLinks, TakesOn};

use crate::links::{Due, Links};
use crate::turns::{Taken, serve_each, serve_keys, take_some};
use crate::watch::Watch;
use afp_base::{LinkNumber, Moment};
use afp_outside::{Gate, Readiness};
use afp_serial::{Ask, House, Teller};
use afp_server::{TurnRoom, WorkerEnd};
use std::alloc::Global;
use std::sync::Wait;

/// Takes the links that are there, while the door is open. It says why no more come.
fn take_while_open<P: Readiness, G: Gate>(
    alloc: Global,
    poll: &mut P,
    gate: &G,
    links: &mut Links<P::Link, G::Log>,
    watch: &mut Watch,
    end: Option<WorkerEnd>,
) -> Option<WorkerEnd>
    ensures takes { (block : List ℕ) (turns : ℕ) (shown : Shown) → TakesOn P.Link.link_state G.passed block turns links.old (P.door_state poll.old) shown end result links.new (P.door_state poll.new) }
{
    watch.more_come = false;
    match end {
        Some(why) => Some(why),
        None => match take_some(alloc, poll, gate, links) {
            Taken::One => {
                watch.more_come = true;
                None
            }
            Taken::NotYet => None,
            Taken::Ended(why) => Some(why),
        },
    }
}

/// A round of turns: of those whose frames were used up, of those that may go on, and at a new second of all.
fn serve_round<P: Readiness, T: Teller, G: Gate>(
    alloc: Global,
    poll: &mut P,
    links: &mut Links<P::Link, G::Log>,
    watch: &mut Watch,
    ready: &[usize],
    room: &mut TurnRoom,
    teller: &mut T,
    gate: &G,
    turns: u64,
)
    requires turns { turns < 2 ^ 63 }
    ensures fixed { T.fixed teller.new ≡ T.fixed teller.old }
    ensures room { room.new ≡ room.old }
    ensures keeps { KeepsLinks P.Link.link_state G.passed room.old turns links.old (P.door_state poll.old) (T.shown teller.old) links.new (P.door_state poll.new) (T.shown teller.new) }
{
    let now = poll.now();
    let (round, more) = watch.begin(alloc, turns, now);
    serve_keys(
        more.as_slice(),
        poll,
        links,
        room,
        teller,
        gate,
        &round,
        &mut watch.more,
    );
    serve_keys(
        ready,
        poll,
        links,
        room,
        teller,
        gate,
        &round,
        &mut watch.more,
    );
    if watch.is_second(now) {
        serve_each(
            Due::Second,
            poll,
            links,
            room,
            teller,
            gate,
            &round,
            &mut watch.more,
        );
    }
    if watch.are_all_due(now) {
        serve_each(
            Due::Ready,
            poll,
            links,
            room,
            teller,
            gate,
            &round,
            &mut watch.more,
        );
    }
}

/// Asks to drain, at the first moment.
fn drain<T: Teller>(teller: &mut T)
    ensures fixed { T.fixed teller.new ≡ T.fixed teller.old }
    ensures drains { Drains (T.shown teller.old) (T.shown teller.new) }
{
    let Some(first) = Moment::new(0) else {
        unreachable!()
    };
    teller.ask(first, LinkNumber(0), Ask::Drain, &mut []);
}

/// Asks to drain, where the door is closed.
fn leave<T: Teller>(teller: &mut T, end: WorkerEnd)
    ensures fixed { T.fixed teller.new ≡ T.fixed teller.old }
    ensures leaves { Leaves end (T.shown teller.old) (T.shown teller.new) }
{
    match end {
        WorkerEnd::Closed => drain(teller),
        WorkerEnd::Failed => {}
        WorkerEnd::Memory => {}
    }
}

/// Why all is over: no link comes any more, and none is left.
fn is_over<L, A>(end: Option<WorkerEnd>, links: &Links<L, A>) -> Option<WorkerEnd>
    ensures over { IfSome result (λ why. (end ≡ Some why) × (slab_len links.now.seats ≡ 0)) }
{
    if links.is_empty() { end } else { None }
}

/// Serves all links that come through the door at once, in turns, and hands each back once it has ended, until the door is closed
/// or fails and none is left; where it is closed, it then asks to drain. The room is lent to the link whose turn it is.
pub fn serve_at_once<R: Wait, P: Readiness, T: Teller, G: Gate>(
    rt: &R,
    alloc: Global,
    house: &House,
    poll: &mut P,
    room: &mut TurnRoom,
    teller: &mut T,
    gate: &G,
    turns: u64,
) -> WorkerEnd
where
    P::Link: Drop,
    requires open { (P.door_state poll.old).closed ≡ false }
    requires turns { turns < 2 ^ 63 }
    requires room { room.old ≡ status_block house.now }
    ensures fixed { T.fixed teller.new ≡ T.fixed teller.old }
    ensures serves { (places : List ℕ) × Grows (T.shown teller.old) places (T.shown teller.new)
        × ServesPoll P.Link.link_state G.passed house.now turns (T.shown teller.old).start (T.shown teller.new).history (P.door_state poll.old) places result (P.door_state poll.new) }
    ensures sound { IsSoundShown (T.shown teller.new) }
{
    let mut links = Links::new(alloc);
    let mut ready = Vec::new(alloc);
    let mut watch = Watch::new(alloc, poll.now());
    let mut end = None;
    for _ in rt.forever() {
        match is_over(end, &links) {
            None => {}
            Some(why) => {
                leave(teller, why);
                return why;
            }
        }
        poll.wait(&mut ready, watch.is_busy());
        end = take_while_open(alloc, poll, gate, &mut links, &mut watch, end);
        serve_round(
            alloc,
            poll,
            &mut links,
            &mut watch,
            ready.as_slice(),
            room,
            teller,
            gate,
            turns,
        );
    }
    unreachable!()
}
