//! A sink in memory.
ghost use Rattle.std.specs.Prelude.{◌≡◌, ◌<◌, [], length, IsOk, IfOk};
ghost use Rattle.afp_outside.specs.ends.Sink.{SinkWrites};
ghost use Rattle.afp_outside.specs.ends.Tape.{sink_of, ReportWrites};

use crate::ends::calls::PlannedCalls;
use crate::ends::link::Wrote;
use crate::ends::outgoing::Outgoing;
use crate::ends::sink::Sink;
use afp_base::OutOfMemory;
use std::alloc::Global;
use std::marker::Model;

/// A sink in memory, which follows a plan and tells all. Its writes are numbered from 0.
#[derive(Drop)]
pub struct TapeSink {
    outgoing: Outgoing,
    calls: PlannedCalls,
    faults: u64,
}

impl Model for TapeSink {
    ghost use Rattle.afp_outside.specs.ends.Tape.{TapeReport};

    ghost Value = { TapeReport };

    ghost view = { λ a. record {
      written = a.outgoing.written;
      faults = a.faults;
      writes = a.outgoing.writes;
      calls = a.calls;
    } };
}

impl TapeSink {
    /// A sink to which nothing was written.
    ///
    /// `writes` are the most bytes that each write in turn takes; where they have ended, a write
    /// takes all, and a 0 is taken as 1. `failing` has the numbers of the writes that fail; such a
    /// write uses up no size.
    pub fn new(
        alloc: Global,
        writes: Vec<usize>,
        failing: Vec<u64>,
    ) -> Result<TapeSink, OutOfMemory>
        ensures ok { IsOk result }
        ensures sink { IfOk result (λ sink. sink ≡ record { written = []; faults = 0; writes = writes.items; calls = record { failing = failing.items; made = 0 } }) }
    {
        Ok(TapeSink {
            outgoing: Outgoing::new(alloc, writes),
            calls: PlannedCalls::new(failing),
            faults: 0,
        })
    }

    /// The bytes written.
    pub fn written(&self) -> &[u8]
        ensures { result.now ≡ self.now.written }
    {
        self.outgoing.written().as_slice()
    }
}

impl Sink for TapeSink {
    ghost sink_state = { sink_of };

    fn write(&mut self, piece: &[u8]) -> Wrote
        requires { 0 < length piece.now }
        ensures writes { SinkWrites (sink_of self.old) piece.now result (sink_of self.new) }
        ensures tape { ReportWrites self.old piece.now result self.new }
    {
        if !self.calls.fails() {
            if let Ok(n) = self.outgoing.take(piece) {
                return Wrote::Took(n);
            }
        }
        self.faults = self.faults.saturating_add(1);
        Wrote::Failed
    }
}
