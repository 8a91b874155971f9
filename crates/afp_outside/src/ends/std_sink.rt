//! A sink to the standard output.

use crate::ends::link::Wrote;
use crate::ends::sink::Sink;
use std::io::{Print, Write, writer};
use std::marker::Model;

/// A sink to where `P` prints, as the standard output. It counts its errors and tells no bytes.
#[derive(Drop)]
pub struct StdSink<P> {
    out: P,
    faults: u64,
}

impl<P> Model for StdSink<P> {
    ghost use Rattle.std.specs.Prelude.{None};
    ghost use Rattle.afp_outside.specs.ends.Sink.{SinkState};

    ghost Value = { SinkState };

    ghost view = { λ a. record { written = None; faults = a.faults } };
}

impl<P> StdSink<P> {
    ghost use Rattle.std.specs.Prelude.{◌≡◌, None};

    /// A sink to which nothing was written.
    pub fn new(out: P) -> StdSink<P>
        ensures { result ≡ record { written = None; faults = 0 } }
    {
        StdSink { out, faults: 0 }
    }
}

impl<P: Print> Sink for StdSink<P> {
    ghost sink_state = { λ sink. sink };

    fn write(&mut self, piece: &[u8]) -> Wrote {
        match writer(&self.out).write(piece) {
            Ok(n) if n > 0 => Wrote::Took(n),
            _ => {
                self.faults = self.faults.saturating_add(1);
                Wrote::Failed
            }
        }
    }
}
