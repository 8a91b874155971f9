//! Where reports go.

use crate::ends::link::Wrote;

/// Takes the bytes of a report.
pub trait Sink {
    ghost use Rattle.std.specs.Prelude.{◌<◌, length};
    ghost use Rattle.afp_outside.specs.ends.Sink.{SinkState, SinkWrites};

    /// What the sink is seen as.
    ghost sink_state: { Self → SinkState };

    /// Writes the first bytes of `piece`, as many as go out at once.
    fn write(&mut self, piece: &[u8]) -> Wrote
        requires { 0 < length piece.now }
        ensures { SinkWrites (sink_state self.old) piece.now result (sink_state self.new) };
}
