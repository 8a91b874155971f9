//! Going on until a link would wait.
ghost use Rattle.std.specs.Prelude.{◌≡◌, ◌≢◌, List, ℕ, ◌+◌, ◌-◌, ◌<◌, ◌≤◌, ◌^◌, length, IfNone, IfSome};
ghost use Rattle.dsi_frame.specs.Buffered.{Buffered, buffer_length};
ghost use Rattle.dsi_frame.specs.Stream.{IsUnfinished};
ghost use Rattle.afp_outside.specs.ends.Gate.{Passed};
ghost use Rattle.afp_serial.specs.Shown.{Shown};
ghost use Rattle.afp_server.specs.link.Requests.{Requests};
ghost use Rattle.afp_server.specs.link.Progress.{Start, SoFar, point};
ghost use Rattle.afp_server.specs.connection.Turn.{InTurn};
ghost use Rattle.afp_server.specs.connection.Standing.{IsLive, IsLiveIn, IsOf, RestsAt, StandsBy};
ghost use Rattle.afp_server.specs.connection.lemma.Begun.{Begins as BeginsAt, StandsAt};

use crate::connection::frames::{begin_frame, send_on};
use crate::connection::standing::{Standing, Turn};
use crate::link::{LinkEnd, LinkRequests, LinkSession, READ_SIZE, Stage, end_of};
use afp_outside::{Gate, ReadyLink, ReadyRead};
use afp_serial::Teller;
use dsi_frame::{Deframer, Head};
use std::alloc::Global;

/// Reads once. `None`: bytes came.
fn read_some<L: ReadyLink>(
    deframer: &mut Deframer,
    link: &mut L,
    cost: &mut u64,
    turn: &Turn,
) -> Option<Standing>
    requires unfinished { IsUnfinished deframer.old.rest }
    requires room { length deframer.old.rest < buffer_length }
    requires total { deframer.old.place + length deframer.old.rest ≤ cost.old }
    requires turns { turn.now.turns < 2 ^ 63 }
    ensures total { deframer.new.place + length deframer.new.rest ≤ cost.new }
    ensures less { IfNone result (turn.now.turns - cost.new < turn.now.turns - cost.old) }
    ensures live { (stage : Stage) → stage ≢ Stage.Closing → IsLiveIn stage result }
    ensures rests { IfSome result (λ s. RestsAt s deframer.new.rest) }
    ensures reads { (start : Start) (stage : Stage) (requests : Requests) (shown : Shown) (passed : Passed) → start.turns ≡ turn.now.turns
        → SoFar start (point deframer.old stage requests (L.link_state link.old) shown passed) cost.old
        → BeginsAt start cost.new result (point deframer.new stage requests (L.link_state link.new) shown passed) }
{
    if *cost >= turn.turns {
        return Some(Standing::Over(LinkEnd::Spent));
    }
    match deframer.read_ready(link, READ_SIZE, turn.at) {
        ReadyRead::Got(n) => {
            *cost += n as u64;
            None
        }
        ReadyRead::NotYet => Some(Standing::Waits),
        ReadyRead::End => Some(Standing::Over(end_of(deframer))),
        ReadyRead::Failed => Some(Standing::Over(LinkEnd::ReadFault)),
    }
}

/// Serves the frame at the front, where one more may be served in this turn, or reads once. `None`: the link goes on.
fn step<L: ReadyLink, T: Teller, G: Gate>(
    alloc: Global,
    deframer: &mut Deframer,
    session: &mut LinkSession,
    requests: &mut LinkRequests,
    link: &mut L,
    cost: &mut u64,
    frames: &mut u32,
    teller: &mut T,
    gate: &G,
    log: &mut G::Log,
    turn: &Turn,
) -> Option<Standing>
    requires live { session.old.stage ≢ Stage.Closing }
    requires total { deframer.old.place + length deframer.old.rest ≤ cost.old }
    requires turns { turn.now.turns < 2 ^ 63 }
    ensures fixed { T.fixed teller.new ≡ T.fixed teller.old }
    ensures block { session.new.block ≡ session.old.block }
    ensures live { IsLiveIn session.new.stage result }
    ensures total { deframer.new.place + length deframer.new.rest ≤ cost.new }
    ensures rests { IfSome result (λ s. RestsAt s deframer.new.rest) }
    ensures less { IfNone result (frames.new + (turn.now.turns - cost.new) < frames.old + (turn.now.turns - cost.old)) }
    ensures begins { InTurn (T.shown teller.old) (T.shown teller.new)
        (StandsAt session.old.block turn.now.turns cost.old deframer.old session.old.stage requests.old (L.link_state link.old) (G.passed log.old))
        (λ start shown. IsOf session.old.block turn.now.turns start × BeginsAt start cost.new result (point deframer.new session.new.stage requests.new (L.link_state link.new) shown (G.passed log.new))) }
{
    match deframer.head() {
        Head::Bad(bad) => Some(Standing::Over(LinkEnd::Bad(bad))),
        Head::NotYet => read_some(deframer, link, cost, turn),
        Head::Whole(header) => {
            if *frames == 0 {
                return Some(Standing::More);
            }
            *frames -= 1;
            begin_frame(
                alloc, &header, deframer, session, requests, link, teller, gate, log,
            )
        }
    }
}

/// Serves the frames that came, and reads, until the link would wait, or its frames of this turn are used up.
fn go_on<L: ReadyLink, T: Teller, G: Gate>(
    alloc: Global,
    deframer: &mut Deframer,
    session: &mut LinkSession,
    requests: &mut LinkRequests,
    link: &mut L,
    cost: &mut u64,
    teller: &mut T,
    gate: &G,
    log: &mut G::Log,
    turn: &Turn,
) -> Standing
    requires live { session.old.stage ≢ Stage.Closing }
    requires total { deframer.old.place + length deframer.old.rest ≤ cost.old }
    requires turns { turn.now.turns < 2 ^ 63 }
    ensures fixed { T.fixed teller.new ≡ T.fixed teller.old }
    ensures block { session.new.block ≡ session.old.block }
    ensures live { IsLive session.new.stage result }
    ensures total { deframer.new.place + length deframer.new.rest ≤ cost.new }
    ensures rests { RestsAt result deframer.new.rest }
    ensures goes { InTurn (T.shown teller.old) (T.shown teller.new)
        (StandsAt session.old.block turn.now.turns cost.old deframer.old session.old.stage requests.old (L.link_state link.old) (G.passed log.old))
        (λ start shown. IsOf session.old.block turn.now.turns start × StandsBy start cost.new result (point deframer.new session.new.stage requests.new (L.link_state link.new) shown (G.passed log.new))) }
{
    let mut frames = turn.frames;
    loop {
        if let Some(standing) = step(
            alloc,
            deframer,
            session,
            requests,
            link,
            cost,
            &mut frames,
            teller,
            gate,
            log,
            turn,
        ) {
            return standing;
        }
    }
}

/// Writes what is under way. `None`: nothing is, and the link goes on.
fn send_first<L: ReadyLink, T: Teller, G: Gate>(
    standing: Standing,
    alloc: Global,
    session: &mut LinkSession,
    link: &mut L,
    teller: &mut T,
    gate: &G,
    log: &mut G::Log,
) -> Option<Standing>
    requires live { IsLive session.old.stage standing }
    ensures fixed { T.fixed teller.new ≡ T.fixed teller.old }
    ensures block { session.new.block ≡ session.old.block }
    ensures live { IsLiveIn session.new.stage result }
    ensures rests { (rest : List ℕ) → IfSome result (λ s. RestsAt s rest) }
    ensures sends { (cost : ℕ) (held : Buffered) (requests : Requests) → InTurn (T.shown teller.old) (T.shown teller.new)
        (λ start shown. StandsBy start cost standing (point held session.old.stage requests (L.link_state link.old) shown (G.passed log.old)))
        (λ start shown. BeginsAt start cost result (point held session.new.stage requests (L.link_state link.new) shown (G.passed log.new))) }
{
    match standing {
        Standing::Waits => None,
        Standing::More => None,
        Standing::Over(end) => Some(Standing::Over(end)),
        Standing::Sends {
            unsent,
            then,
            called,
        } => send_on(
            alloc, unsent, then, called, session, link, teller, gate, log,
        ),
    }
}

/// Goes on from where a link stands: what is under way is written, the frames that came are served, and it reads, until it
/// would wait.
pub fn advance_from<L: ReadyLink, T: Teller, G: Gate>(
    standing: Standing,
    alloc: Global,
    deframer: &mut Deframer,
    session: &mut LinkSession,
    requests: &mut LinkRequests,
    link: &mut L,
    cost: &mut u64,
    teller: &mut T,
    gate: &G,
    log: &mut G::Log,
    turn: &Turn,
) -> Standing
    requires live { IsLive session.old.stage standing }
    requires total { deframer.old.place + length deframer.old.rest ≤ cost.old }
    requires turns { turn.now.turns < 2 ^ 63 }
    ensures fixed { T.fixed teller.new ≡ T.fixed teller.old }
    ensures block { session.new.block ≡ session.old.block }
    ensures live { IsLive session.new.stage result }
    ensures total { deframer.new.place + length deframer.new.rest ≤ cost.new }
    ensures rests { RestsAt result deframer.new.rest }
    ensures goes { InTurn (T.shown teller.old) (T.shown teller.new)
        (λ start shown. IsOf session.old.block turn.now.turns start × StandsBy start cost.old standing (point deframer.old session.old.stage requests.old (L.link_state link.old) shown (G.passed log.old)))
        (λ start shown. IsOf session.old.block turn.now.turns start × StandsBy start cost.new result (point deframer.new session.new.stage requests.new (L.link_state link.new) shown (G.passed log.new))) }
{
    match send_first(standing, alloc, session, link, teller, gate, log) {
        Some(standing) => standing,
        None => go_on(
            alloc, deframer, session, requests, link, cost, teller, gate, log, turn,
        ),
    }
}
