//! Who answers the asks of a capture.
ghost use Rattle.std.specs.Prelude.{◌≡◌, IfOk, length, option_map};
ghost use Rattle.afp_serial.specs.History.{stand};
ghost use Rattle.afp_serial.specs.World.{volume_at};
ghost use Rattle.capture_log_server.specs.Sole.{IsFreshTeller, IsSole};

use afp_base::{Moment, OutOfMemory, VolumeId};
use afp_serial::{House, Teller};
use std::alloc::Global;

/// A teller that alone asks, and none of whose asks meets a fault of a keeper.
pub trait SoleTeller: Teller + Drop {
    /// How many entries its history has.
    fn entries(&self) -> u64
        ensures { result ≡ length (Self.shown self.now).history };

    /// How many nodes the volume of an id has in the world that the history makes, its root among them. `None`: there is no such
    /// volume.
    fn nodes(&self, volume: VolumeId) -> Option<usize>
        ensures { result ≡ option_map (λ v. length v.rows)
            (volume_at (stand (Self.shown self.now).start (Self.shown self.now).history).volumes volume.0) };

    ghost sole: { (t : Self) → IsSole (Self.shown t) };
}

/// What a teller of a house is made of, once its lines were read.
pub trait TellerMaker: Drop {
    /// The teller that it makes.
    type Made: SoleTeller;

    /// A teller of a house from a moment on, over volumes that nobody has used.
    fn make(self, alloc: Global, house: &House, now: Moment) -> Result<Self::Made, OutOfMemory>
        ensures { IfOk result (λ teller. IsFreshTeller house.now now (Self.Made.shown teller)) };
}
