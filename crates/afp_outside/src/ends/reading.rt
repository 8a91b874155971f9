//! A read, as proofs alone look back at it.
ghost use Rattle.std.specs.Prelude.{◌≡◌};

use crate::ends::link::ReadResult;
use afp_base::{Bytes, Moment};
use std::marker::Model;
use std::snapshot::Snapshot;

/// What a read gave, what had been written before it, and its moment.
#[derive(Drop)]
pub struct PastRead {
    gave: ReadResult,
    written: Snapshot<Bytes>,
    moment: Moment,
}

impl Model for PastRead {
    ghost use Rattle.afp_outside.specs.ends.Tape.{PastRead};

    ghost Value = { PastRead };

    ghost view = { λ a. record { gave = a.gave; written = a.written.value; moment = a.moment } };
}

impl PastRead {
    /// A read that gives this at a moment, when so much is written.
    pub fn new(gave: ReadResult, written: &Bytes, moment: Moment) -> PastRead
        ensures { result ≡ record { gave = gave; written = written.now; moment = moment } }
    {
        PastRead {
            gave,
            written: Snapshot::of(written),
            moment,
        }
    }
}
