//! The bytes that the reads of a link in memory give.
ghost use Rattle.std.specs.Prelude.{◌≡◌, ◌≤◌, ◌++◌, ◌∷◌, [], Some, length, take, drop};
ghost use Rattle.afp_outside.specs.ends.Link.{piece, quiet};

use crate::ends::link::ReadResult;
use crate::ends::reading::PastRead;
use afp_base::{Bytes, Moment};
use ghost_log::Log;
use std::marker::Model;

/// Bytes that reads take from the first on. What each read gave, what had been written before it, and
/// its moment are told to proofs alone.
#[derive(Drop)]
pub struct Incoming {
    bytes: Bytes,
    place: usize,
    readings: Log<PastRead>,
}

impl Model for Incoming {
    ghost use Rattle.std.specs.Prelude.{◌≡◌, ◌≤◌, length, drop};
    ghost use Rattle.afp_outside.specs.ends.Tape.{Incoming, events_of, size_of};

    ghost Value = { Incoming };

    ghost view = { λ a. record { events = events_of a.bytes a.readings.items; coming = drop a.place a.bytes } };

    ghost invariant = { λ a. (a.place ≤ length a.bytes) × (size_of a.readings.items ≡ a.place) };
}

impl Incoming {
    /// These bytes, none of which was read.
    pub fn new(bytes: Bytes) -> Incoming
        ensures { result ≡ record { events = []; coming = bytes } }
    {
        Incoming {
            bytes,
            place: 0,
            readings: Log::new(),
        }
    }

    /// How many bytes are left.
    pub fn left(&self) -> usize
        ensures { result ≡ length self.now.coming }
    {
        self.bytes.as_slice().len() - self.place
    }

    /// Gives the next `n` bytes at a moment, when so much is written.
    #[tactic(auto, using(crate::proofs::OfEnds::Events::got_events))]
    pub fn give(&mut self, n: usize, room: &mut [u8], written: &Bytes, moment: Moment)
        requires most { n ≤ length self.old.coming }
        requires fits { n ≤ length room.old }
        ensures room { take n room.new ≡ take n self.old.coming }
        ensures coming { self.new.coming ≡ drop n self.old.coming }
        ensures events { self.new.events ≡ self.old.events ++ piece (Some written.now) moment (take n self.old.coming) ∷ [] }
    {
        let bytes = self.bytes.as_slice();
        let end = self.place + n;
        room[..n].copy_from_slice(&bytes[self.place..end]);
        self.place = end;
        self.readings = self
            .readings
            .and(&PastRead::new(ReadResult::Got(n), written, moment));
    }

    /// Gives a quiet at a moment, when so much is written.
    #[tactic(auto, using(crate::proofs::OfEnds::Events::quiet_events))]
    pub fn give_nothing(&mut self, written: &Bytes, moment: Moment)
        ensures coming { self.new.coming ≡ self.old.coming }
        ensures events { self.new.events ≡ self.old.events ++ quiet (Some written.now) moment ∷ [] }
    {
        self.readings = self
            .readings
            .and(&PastRead::new(ReadResult::Quiet, written, moment));
    }
}
