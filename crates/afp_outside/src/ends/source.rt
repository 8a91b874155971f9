//! Where bytes come from.

use crate::ends::link::ReadResult;

/// Gives bytes, as a file or the standard input does. A read is never a quiet.
pub trait Source {
    ghost use Rattle.std.specs.Prelude.{◌<◌, length};
    ghost use Rattle.afp_outside.specs.ends.Source.{SourceState, SourceReads};

    /// What the source is seen as.
    ghost source_state: { Self → SourceState };

    /// Reads the next bytes into `room`, as many as come, up to its length.
    fn read(&mut self, room: &mut [u8]) -> ReadResult
        requires { 0 < length room.old }
        ensures { SourceReads (source_state self.old) room.new result (source_state self.new) };
}
