//! Serving a link that never waits, frame by frame.
ghost use Rattle.std.specs.Prelude.{◌≡◌, ◌≢◌, List, ℕ, ◌+◌, ◌≤◌, length, IfNone, IfSome};
ghost use Rattle.dsi_frame.specs.Buffered.{Buffered};
ghost use Rattle.dsi_frame.specs.Frame.{Frame, header_of};
ghost use Rattle.dsi_frame.specs.Stream.{Begins, HasFrame};
ghost use Rattle.afp_outside.specs.ends.Gate.{with_exited};
ghost use Rattle.afp_server.specs.link.Requests.{Requests};
ghost use Rattle.afp_server.specs.link.lemma.Serving.{ServesFrame};
ghost use Rattle.afp_server.specs.link.Progress.{Start, point};
ghost use Rattle.afp_server.specs.connection.Turn.{InTurn};
ghost use Rattle.afp_server.specs.connection.Standing.{IsUnderWay, ServesThen, IsOf, IsLiveIn, RestsAt};
ghost use Rattle.afp_server.specs.connection.lemma.Begun.{Begins as BeginsAt, GoesBehind, StandsAt, then_of};

use crate::connection::sending::{Put, Unsent, send_or_keep};
use crate::connection::standing::{Standing, Then};
use crate::link::{FrameEnd, LinkEnd, LinkRequests, LinkSession, Stage, exit_gate, link_end};
use afp_base::LinkNumber;
use afp_outside::{Gate, ReadyLink};
use afp_serial::Teller;
use dsi_frame::{Deframer, Header};
use std::alloc::Global;

/// The frame at the front was handled: where it does not end the link, it is given out.
fn go_behind(deframer: &mut Deframer, end: Option<FrameEnd>) -> Option<LinkEnd>
    requires { HasFrame deframer.old.rest }
    ensures behind { GoesBehind deframer.old end result deframer.new }
    ensures total { deframer.new.place + length deframer.new.rest ≤ deframer.old.place + length deframer.old.rest }
{
    match end {
        None => {
            deframer.advance();
            None
        }
        Some(end) => Some(link_end(end, deframer.place())),
    }
}

/// What follows once the reply to a frame is written.
fn then_of(end: Option<LinkEnd>) -> Then
    ensures { result ≡ then_of end }
{
    match end {
        None => Then::GoesOn,
        Some(end) => Then::Ends(end),
    }
}

/// Serves the whole frame at the front, and begins to write its reply. `None`: the link goes on.
pub fn begin_frame<L: ReadyLink, T: Teller, G: Gate>(
    alloc: Global,
    header: &Header,
    deframer: &mut Deframer,
    session: &mut LinkSession,
    requests: &mut LinkRequests,
    link: &mut L,
    teller: &mut T,
    gate: &G,
    log: &mut G::Log,
) -> Option<Standing>
    requires whole { (f : Frame) × Begins deframer.old.rest f × (header.now ≡ header_of f) }
    requires live { session.old.stage ≢ Stage.Closing }
    ensures fixed { T.fixed teller.new ≡ T.fixed teller.old }
    ensures block { session.new.block ≡ session.old.block }
    ensures live { IsLiveIn session.new.stage result }
    ensures rests { (rest : List ℕ) → IfSome result (λ s. RestsAt s rest) }
    ensures total { deframer.new.place + length deframer.new.rest ≤ deframer.old.place + length deframer.old.rest }
    ensures begins { (turns cost : ℕ) → InTurn (T.shown teller.old) (T.shown teller.new)
        (StandsAt session.old.block turns cost deframer.old session.old.stage requests.old (L.link_state link.old) (G.passed log.old))
        (λ start shown. IsOf session.old.block turns start × BeginsAt start cost result (point deframer.new session.new.stage requests.new (L.link_state link.new) shown (G.passed log.new))) }
{
    let now = link.now();
    let called = session.called_link(header);
    let Ok(end) = session.handle(header, deframer.payload(), now, teller, gate, log) else {
        return Some(Standing::Over(LinkEnd::Memory));
    };
    let reply = session.reply();
    requests.note_reply(reply, now);
    let end = go_behind(deframer, end);
    match send_or_keep(alloc, link, reply) {
        Put::Failed => Some(Standing::Over(LinkEnd::WriteFault)),
        Put::Left(unsent) => Some(Standing::Sends {
            unsent,
            then: then_of(end),
            called,
        }),
        Put::All => {
            exit_gate(gate, called, log);
            match end {
                None => None,
                Some(end) => Some(Standing::Over(end)),
            }
        }
    }
}

/// A reply or a request is written whole: its call leaves the gate, and the link goes on, or says why it ends.
fn finish<L: ReadyLink, T: Teller, G: Gate>(
    then: Then,
    called: Option<LinkNumber>,
    session: &mut LinkSession,
    link: &L,
    teller: &mut T,
    gate: &G,
    log: &mut G::Log,
) -> Option<LinkEnd>
    ensures fixed { T.fixed teller.new ≡ T.fixed teller.old }
    ensures block { session.new.block ≡ session.old.block }
    ensures live { IfNone result ((then ≡ Then.GoesOn) × (session.new.stage ≡ session.old.stage)) }
    ensures finishes { (cost : ℕ) (held : Buffered) (requests : Requests) → InTurn (T.shown teller.old) (T.shown teller.new)
        (λ start shown. ServesThen start cost then (point held session.old.stage requests (L.link_state link.now) shown (with_exited (G.passed log.old) called)))
        (λ start shown. ServesFrame start cost result (point held session.new.stage requests (L.link_state link.now) shown (G.passed log.new))) }
{
    exit_gate(gate, called, log);
    match then {
        Then::GoesOn => None,
        Then::Ends(end) => Some(end),
        Then::Leaves(number) => {
            session.leave(number, link.now(), teller);
            Some(LinkEnd::Drained)
        }
    }
}

/// Writes of what is under way what goes out at once. `None`: all of it is written, and the link goes on.
pub fn send_on<L: ReadyLink, T: Teller, G: Gate>(
    alloc: Global,
    unsent: Unsent,
    then: Then,
    called: Option<LinkNumber>,
    session: &mut LinkSession,
    link: &mut L,
    teller: &mut T,
    gate: &G,
    log: &mut G::Log,
) -> Option<Standing>
    requires live { then ≡ Then.GoesOn → session.old.stage ≢ Stage.Closing }
    ensures fixed { T.fixed teller.new ≡ T.fixed teller.old }
    ensures block { session.new.block ≡ session.old.block }
    ensures live { IsLiveIn session.new.stage result }
    ensures rests { (rest : List ℕ) → IfSome result (λ s. RestsAt s rest) }
    ensures sends { (cost : ℕ) (held : Buffered) (requests : Requests) → InTurn (T.shown teller.old) (T.shown teller.new)
        (λ start shown. IsUnderWay start cost then called unsent (point held session.old.stage requests (L.link_state link.old) shown (G.passed log.old)))
        (λ start shown. BeginsAt start cost result (point held session.new.stage requests (L.link_state link.new) shown (G.passed log.new))) }
{
    match send_or_keep(alloc, link, unsent.rest()) {
        Put::Failed => Some(Standing::Over(LinkEnd::WriteFault)),
        Put::Left(left) => {
            let mut left = left;
            left.note_taken(&unsent);
            Some(Standing::Sends {
                unsent: left,
                then,
                called,
            })
        }
        Put::All => match finish(then, called, session, link, teller, gate, log) {
            None => None,
            Some(end) => Some(Standing::Over(end)),
        },
    }
}
