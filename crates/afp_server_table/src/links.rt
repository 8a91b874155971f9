//! The links of a thread.
ghost use Rattle.std.specs.Prelude.{◌≡◌, ◌+◌, ◌<◌, ◌^◌, ℕ, [], Some, None, true, OnSome, IfNone};
ghost use Rattle.afp_outside.specs.ends.Gate.{Passed};
ghost use Rattle.afp_serial.specs.Shown.{Shown};
ghost use Rattle.afp_server.specs.connection.Connection.{IsParted, Stands, rest_of};
ghost use Rattle.afp_server.specs.connection.Turn.{InTurn};
ghost use Rattle.slab.specs.Slab.{get, slab_len, HasRoomFor, Updates};

use afp_outside::{Gate, ReadyLink};
use afp_serial::Teller;
use afp_server::{Connection, LinkEnd, Rest, Standing, Turn, TurnRoom};
use ghost_log::Log;
use slab::Slab;
use std::alloc::Global;
use std::marker::Model;
use std::mem;

/// The most links that one thread serves at once.
const MOST_LINKS: usize = 16_384;

/// A link in a table.
///
/// Contracts see its number, which says how many were taken before it, and where it stands.
#[derive(Drop)]
pub struct Seat<L, A> {
    connection: Connection<L, A>,
    before: Log<()>,
    /// The round of the table in which it last had a turn.
    round: u64,
}

impl<L, A> Model for Seat<L, A> {
    ghost use Rattle.std.specs.Prelude.{length};
    ghost use Rattle.afp_server_table.specs.lemma.Links.{SeatState};

    ghost Value = { SeatState L A };

    ghost view = { λ s. record { number = length s.before.items; connection = s.connection } };
}

/// Why a link has a turn.
#[derive(Clone, Copy)]
pub enum Due {
    /// It may go on.
    Ready,
    /// A new second began.
    Second,
}

/// A round of a table, in which each link has one turn at most.
#[derive(Clone, Copy)]
pub struct Round {
    pub number: u64,
    pub turn: Turn,
}

impl<L: ReadyLink, A> Seat<L, A> {
    /// Whether it had its turn in this round.
    pub fn is_served(&self, round: &Round) -> bool {
        self.round == round.number
    }

    /// It goes on, or notes the second.
    pub fn go<T: Teller, G: Gate<Log = A>>(
        &mut self,
        due: Due,
        room: &mut TurnRoom,
        teller: &mut T,
        gate: &G,
        round: &Round,
    ) -> Rest
        requires turns { round.now.turn.turns < 2 ^ 63 }
        ensures fixed { T.fixed teller.new ≡ T.fixed teller.old }
        ensures room { room.new ≡ room.old }
        ensures number { self.new.number ≡ self.old.number }
        ensures rest { result ≡ rest_of self.new.connection.standing }
        ensures goes { InTurn (T.shown teller.old) (T.shown teller.new)
            (Stands L.link_state G.passed room.old round.now.turn.turns self.old.connection) (Stands L.link_state G.passed room.old round.now.turn.turns self.new.connection) }
    {
        match due {
            Due::Ready => {
                self.round = round.number;
                self.connection.advance(room, teller, gate, &round.turn)
            }
            Due::Second => self.connection.tick(room, teller, &round.turn),
        }
    }

    /// It has ended: its session ends, and the link is handed back.
    pub fn part<T: Teller>(self, room: &mut TurnRoom, teller: &mut T) -> L
    where
        A: Drop,
        requires over { (end : LinkEnd) × (self.connection.standing ≡ Standing.Over end) }
        ensures fixed { T.fixed teller.new ≡ T.fixed teller.old }
        ensures room { room.new ≡ room.old }
        ensures link { result ≡ self.connection.link }
        ensures parts { (passed : A → Passed) (turns : ℕ) → InTurn (T.shown teller.old) (T.shown teller.new)
            (Stands L.link_state passed room.old turns self.connection) (λ start shown. IsParted passed start self.connection.standing (L.link_state result) self.connection.log shown) }
    {
        let Seat { connection, .. } = self;
        connection.part(room, teller)
    }
}

/// The links of a thread, each under a key.
///
/// Contracts see them, and how many were taken in all.
#[derive(Drop)]
pub struct Links<L, A> {
    seats: Slab<Seat<L, A>>,
    taken: Log<()>,
}

impl<L, A> Model for Links<L, A> {
    ghost use Rattle.std.specs.Prelude.{length};
    ghost use Rattle.afp_server_table.specs.lemma.Links.{LinksState};

    ghost Value = { LinksState L A };

    ghost view = { λ l. record { seats = l.seats; taken = length l.taken.items } };
}

impl<L, A> Links<L, A> {
    /// None. It takes no memory.
    pub fn new(alloc: Global) -> Links<L, A>
        ensures seats { result.seats.slots ≡ [] }
        ensures taken { result.taken ≡ 0 }
    {
        Links {
            seats: Slab::new(alloc),
            taken: Log::new(),
        }
    }

    /// How many keys there are: each key in use is less.
    pub fn keys(&self) -> usize {
        self.seats.capacity()
    }

    /// Whether there is none.
    pub fn is_empty(&self) -> bool
        ensures { result ≡ true → slab_len self.now.seats ≡ 0 }
    {
        self.seats.is_empty()
    }

    /// The key of the next link, where there is room for one.
    pub fn next_key(&mut self) -> Option<usize>
        ensures slots { self.new.seats.slots ≡ self.old.seats.slots }
        ensures taken { self.new.taken ≡ self.old.taken }
        ensures room { OnSome result (HasRoomFor self.new.seats 1) }
    {
        if self.seats.len() >= MOST_LINKS || self.seats.reserve(1).is_err() {
            return None;
        }
        Some(self.seats.vacant_key())
    }

    /// Puts in one that was just taken, under the next key.
    pub fn insert(&mut self, connection: Connection<L, A>) -> usize
        requires { HasRoomFor self.old.seats 1 }
        ensures vacant { get self.old.seats result ≡ None }
        ensures updates { Updates self.old.seats self.new.seats result (Some (record { number = self.old.taken; connection = connection })) }
        ensures len { slab_len self.new.seats ≡ slab_len self.old.seats + 1 }
        ensures taken { self.new.taken ≡ self.old.taken + 1 }
    {
        let taken = self.taken.and(&());
        let before = mem::replace(&mut self.taken, taken);
        self.seats.insert_reserved(Seat {
            connection,
            before,
            round: 0,
        })
    }

    /// Takes out the one under a key, for its turn.
    pub fn take(&mut self, key: usize) -> Option<Seat<L, A>>
        ensures value { result ≡ get self.old.seats key }
        ensures updates { Updates self.old.seats self.new.seats key None }
        ensures len { OnSome result (slab_len self.new.seats + 1 ≡ slab_len self.old.seats) }
        ensures next { OnSome result (self.new.seats.vacant_key ≡ key) }
        ensures room { OnSome result (HasRoomFor self.new.seats 1) }
        ensures absent { IfNone result (self.new.seats ≡ self.old.seats) }
        ensures taken { self.new.taken ≡ self.old.taken }
    {
        self.seats.try_remove(key)
    }

    /// Puts back the one that was just taken out, under the same key.
    pub fn put_back(&mut self, seat: Seat<L, A>)
        requires { HasRoomFor self.old.seats 1 }
        ensures updates { Updates self.old.seats self.new.seats self.old.seats.vacant_key (Some seat) }
        ensures len { slab_len self.new.seats ≡ slab_len self.old.seats + 1 }
        ensures taken { self.new.taken ≡ self.old.taken }
    {
        self.seats.insert_reserved(seat);
    }
}
