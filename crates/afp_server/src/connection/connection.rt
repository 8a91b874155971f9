//! A link that is served bit by bit, in the room of whoever serves many.
ghost use Rattle.std.specs.Prelude.{◌≡◌, ◌<◌, ◌≤◌, ◌+◌, ◌^◌, ℕ, List, [], length, IfOk};
ghost use Rattle.dsi_frame.specs.Buffered.{Buffered};
ghost use Rattle.afp_outside.specs.ends.Gate.{Passed, none_passed};
ghost use Rattle.afp_outside.specs.ends.Link.{LinkState};
ghost use Rattle.afp_serial.specs.Shown.{Shown};
ghost use Rattle.afp_serial.specs.StatusBlock.{status_block};
ghost use Rattle.afp_server.specs.link.Requests.{Requests, no_requests};
ghost use Rattle.afp_server.specs.link.Progress.{Start, point};
ghost use Rattle.afp_server.specs.connection.Turn.{InTurn};
ghost use Rattle.afp_server.specs.connection.Standing.{IsLive, RestsAt, StandsBy};
ghost use Rattle.afp_server.specs.connection.Connection.{IsParted, Stands, rest_of};
ghost use Rattle.afp_server.specs.connection.lemma.Kept.{Keeps};

use crate::connection::quiet::tick_from;
use crate::connection::reads::advance_from;
use crate::connection::standing::{Standing, Turn};
use crate::link::{LinkEnd, LinkRequests, LinkSession, Stage};
use afp_base::{Bytes, OutOfMemory};
use afp_outside::{Gate, ReadyLink};
use afp_serial::{House, Teller};
use dsi_frame::Deframer;
use std::alloc::Global;
use std::marker::Model;
use std::mem;

/// The room that a thread lends to the link whose turn it is: for the frames that come, and for one reply.
///
/// Contracts see the status block of its server.
#[derive(Drop)]
pub struct TurnRoom {
    alloc: Global,
    deframer: Deframer,
    session: LinkSession,
}

impl Model for TurnRoom {
    ghost use Rattle.std.specs.Prelude.{List, ℕ};

    ghost Value = { List ℕ };

    ghost view = { λ r. r.session.block };
}

impl TurnRoom {
    /// Takes the room. The one error is want of memory.
    pub fn new(alloc: Global, house: &House) -> Result<TurnRoom, OutOfMemory>
        ensures { IfOk result (λ room. room ≡ status_block house.now) }
    {
        Ok(TurnRoom {
            alloc,
            deframer: Deframer::new(alloc)?,
            session: LinkSession::new(alloc, house)?,
        })
    }
}

/// Where a turn of a link came to rest.
#[derive(Clone, Copy, Debug, PartialEq, Eq)]
pub enum Rest {
    /// It waits for bytes.
    Waits,
    /// Its frames of this turn are used up.
    More,
    /// A reply or a request is under way: it waits for room.
    Stuck,
    /// It has ended.
    Over(LinkEnd),
}

/// A link that is served bit by bit. Between its turns it keeps of the bytes that came less than a frame, or what its
/// frames of a turn left, and a part of one reply.
///
/// Contracts see the link, the log of the gate, how far it has come, what decides its requests, what is kept of its bytes, where
/// it stands, and the bytes taken and the quiets.
#[derive(Drop)]
pub struct Connection<L, A> {
    alloc: Global,
    link: L,
    log: A,
    stage: Stage,
    requests: LinkRequests,
    place: u64,
    rest: Bytes,
    standing: Standing,
    cost: u64,
}

impl<L, A> Model for Connection<L, A> {
    ghost use Rattle.std.specs.Prelude.{◌+◌, ◌≤◌, length};
    ghost use Rattle.dsi_frame.specs.Buffered.{buffer_length};
    ghost use Rattle.afp_server.specs.connection.Connection.{ConnectionState};
    ghost use Rattle.afp_server.specs.connection.Standing.{IsLive, RestsAt};

    ghost Value = { ConnectionState L A };

    ghost view = { λ c. record { link = c.link; log = c.log; stage = c.stage; requests = c.requests; held = record { place = c.place; rest = c.rest }; standing = c.standing; cost = c.cost } };

    ghost invariant = { λ c. IsLive c.stage c.standing × RestsAt c.standing c.rest × (length c.rest ≤ buffer_length) × (c.place + length c.rest ≤ c.cost) };
}

/// There is no memory for the bytes that are left: a reply that is under way is given up, and else the link ends.
fn unheld<L: ReadyLink>(standing: Standing, link: &mut L) -> Standing
    ensures { (held : Buffered) → 0 < length held.rest → Keeps held standing (L.link_state link.old) [] result (L.link_state link.new) }
{
    match standing {
        Standing::Waits => Standing::Over(LinkEnd::Memory),
        Standing::More => Standing::Over(LinkEnd::Memory),
        Standing::Over(end) => Standing::Over(end),
        Standing::Sends { unsent, .. } => {
            let _lost = unsent;
            link.give_up();
            Standing::Over(LinkEnd::WriteFault)
        }
    }
}

/// Keeps what is left of the bytes that came, in memory of its own.
fn keep<L: ReadyLink>(
    alloc: Global,
    deframer: &Deframer,
    standing: Standing,
    link: &mut L,
) -> (Bytes, Standing)
    ensures keeps { Keeps deframer.now standing (L.link_state link.old) result.0 result.1 (L.link_state link.new) }
{
    if deframer.rest() == 0 {
        (Bytes::new(alloc), standing)
    } else {
        match Bytes::of(alloc, deframer.held_bytes()) {
            Ok(rest) => (rest, standing),
            Err(_) => (Bytes::new(alloc), unheld(standing, link)),
        }
    }
}

/// Where a link rests that stands so.
fn rest_of(standing: &Standing) -> Rest
    ensures { result ≡ rest_of standing.now }
{
    match standing {
        Standing::Waits => Rest::Waits,
        Standing::More => Rest::More,
        Standing::Sends { .. } => Rest::Stuck,
        Standing::Over(end) => Rest::Over(*end),
    }
}

/// A turn ended, at which bytes of a reply may be left.
fn noted(standing: Standing, turn: &Turn) -> Standing
    ensures { result ≡ standing }
{
    match standing {
        Standing::Waits => Standing::Waits,
        Standing::More => Standing::More,
        Standing::Over(end) => Standing::Over(end),
        Standing::Sends {
            unsent,
            then,
            called,
        } => {
            let mut unsent = unsent;
            unsent.note(turn.at);
            Standing::Sends {
                unsent,
                then,
                called,
            }
        }
    }
}

impl<L: ReadyLink, A> Connection<L, A> {
    /// A link at its first byte. It takes no memory.
    pub fn new(alloc: Global, link: L, log: A) -> Connection<L, A>
        ensures link { result.link ≡ link }
        ensures begins { (passed : A → Passed) (block : List ℕ) (turns : ℕ) (shown : Shown) → passed log ≡ none_passed
            → Stands L.link_state passed block turns result (record { block = block; turns = turns; link = L.link_state link; shown = shown }) shown }
    {
        let now = link.now();
        Connection {
            alloc,
            link,
            log,
            stage: Stage::Fresh,
            requests: LinkRequests::new(now),
            place: 0,
            rest: Bytes::new(alloc),
            standing: Standing::Waits,
            cost: 0,
        }
    }

    /// Goes on where it rested: what is under way is written, the frames that came are served, and it reads, until it would
    /// wait, has ended, or its frames of this turn are used up.
    pub fn advance<T: Teller, G: Gate<Log = A>>(
        &mut self,
        room: &mut TurnRoom,
        teller: &mut T,
        gate: &G,
        turn: &Turn,
    ) -> Rest
        requires turns { turn.now.turns < 2 ^ 63 }
        ensures fixed { T.fixed teller.new ≡ T.fixed teller.old }
        ensures room { room.new ≡ room.old }
        ensures rest { result ≡ rest_of self.new.standing }
        ensures goes { InTurn (T.shown teller.old) (T.shown teller.new)
            (Stands L.link_state G.passed room.old turn.now.turns self.old) (Stands L.link_state G.passed room.old turn.now.turns self.new) }
    {
        let TurnRoom {
            alloc: _,
            deframer,
            session,
        } = room;
        deframer.resume(self.place, self.rest.as_slice());
        session.resume(self.stage);
        let standing = mem::replace(&mut self.standing, Standing::More);
        let standing = advance_from(
            standing,
            self.alloc,
            deframer,
            session,
            &mut self.requests,
            &mut self.link,
            &mut self.cost,
            teller,
            gate,
            &mut self.log,
            turn,
        );
        let (rest, standing) = keep(self.alloc, deframer, standing, &mut self.link);
        self.stage = session.stage();
        self.place = deframer.place();
        self.rest = rest;
        self.standing = noted(standing, turn);
        rest_of(&self.standing)
    }

    /// A new second: a link that waits is quiet, where nothing was read in it, and one whose peer takes nothing for 60 seconds
    /// has failed to write.
    pub fn tick<T: Teller>(&mut self, room: &mut TurnRoom, teller: &mut T, turn: &Turn) -> Rest
        requires turns { turn.now.turns < 2 ^ 63 }
        ensures fixed { T.fixed teller.new ≡ T.fixed teller.old }
        ensures room { room.new ≡ room.old }
        ensures rest { result ≡ rest_of self.new.standing }
        ensures goes { (passed : A → Passed) → InTurn (T.shown teller.old) (T.shown teller.new)
            (Stands L.link_state passed room.old turn.now.turns self.old) (Stands L.link_state passed room.old turn.now.turns self.new) }
    {
        let session = &mut room.session;
        session.resume(self.stage);
        let standing = mem::replace(&mut self.standing, Standing::More);
        let standing = tick_from(
            standing,
            self.alloc,
            session,
            &mut self.requests,
            &mut self.link,
            &mut self.cost,
            teller,
            turn,
        );
        self.stage = session.stage();
        self.standing = noted(standing, turn);
        rest_of(&self.standing)
    }

    /// It has ended: a session that is still open asks Lost, and the link is handed back.
    pub fn part<T: Teller>(self, room: &mut TurnRoom, teller: &mut T) -> L
    where
        A: Drop,
        requires over { (end : LinkEnd) × (self.standing ≡ Standing.Over end) }
        ensures fixed { T.fixed teller.new ≡ T.fixed teller.old }
        ensures room { room.new ≡ room.old }
        ensures link { result ≡ self.link }
        ensures parts { (passed : A → Passed) (turns : ℕ) → InTurn (T.shown teller.old) (T.shown teller.new)
            (Stands L.link_state passed room.old turns self) (λ start shown. IsParted passed start self.standing (L.link_state result) self.log shown) }
    {
        let session = &mut room.session;
        session.resume(self.stage);
        session.lose(self.link.now(), teller);
        let Connection { link, .. } = self;
        link
    }
}
