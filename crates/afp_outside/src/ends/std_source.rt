//! A source that reads the standard input.

use crate::ends::link::ReadResult;
use crate::ends::source::Source;
use std::io::Read;
use std::marker::Model;

/// A source over a reader, as the standard input's. It counts its errors and tells no bytes.
#[derive(Drop)]
pub struct StdSource<R> {
    reader: R,
    ended: bool,
    faults: u64,
}

impl<R> Model for StdSource<R> {
    ghost use Rattle.std.specs.Prelude.{None};
    ghost use Rattle.afp_outside.specs.ends.Source.{SourceState};

    ghost Value = { SourceState };

    ghost view = { λ a. record { given = None; given_before = None; coming = None; ended = a.ended; faults = a.faults } };
}

impl<R> StdSource<R> {
    ghost use Rattle.std.specs.Prelude.{◌≡◌, None, false};

    /// A source that was not read.
    pub fn new(reader: R) -> StdSource<R>
        ensures { result ≡ record { given = None; given_before = None; coming = None; ended = false; faults = 0 } }
    {
        StdSource {
            reader,
            ended: false,
            faults: 0,
        }
    }
}

impl<R: Read> Source for StdSource<R> {
    ghost source_state = { λ source. source };

    fn read(&mut self, room: &mut [u8]) -> ReadResult {
        match self.reader.read(room) {
            Ok(0) => {
                self.ended = true;
                ReadResult::End
            }
            Ok(n) => ReadResult::Got(n),
            Err(_) => {
                self.faults = self.faults.saturating_add(1);
                ReadResult::Failed
            }
        }
    }
}
