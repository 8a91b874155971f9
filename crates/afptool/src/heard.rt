//! A source that remembers its last lines, so that a person can be told which one is bad.

use afp_base::Bytes;
use afp_outside::{ReadResult, Source, StdSource};
use std::io::Read;
use std::marker::Model;

/// The last bytes that a source gave: what stood in no whole line before its last read, and what that read gave.
#[derive(Drop)]
pub struct LastLines {
    bytes: Bytes,
    before: u64,
    lost: bool,
}

/// The bytes behind the last newline, and how many newlines there are.
fn behind_lines(bytes: &[u8]) -> (&[u8], u64) {
    let newlines = bytes.iter().filter(|byte| **byte == b'\n').count() as u64;
    let rest = match bytes.iter().rposition(|byte| *byte == b'\n') {
        Some(at) => bytes.get(at.saturating_add(1)..).unwrap_or(&[]),
        None => bytes,
    };
    (rest, newlines)
}

impl LastLines {
    fn new(rt: &HostRuntime) -> LastLines {
        LastLines {
            bytes: Bytes::new(rt.alloc()),
            before: 0,
            lost: false,
        }
    }

    /// Takes the bytes of a read. A read is made where no whole line is left.
    fn hear(&mut self, rt: &HostRuntime, piece: &[u8]) {
        let (rest, newlines) = behind_lines(self.bytes.as_slice());
        let Ok(mut bytes) = Bytes::of(rt.alloc(), rest) else {
            self.lost = true;
            return;
        };
        if bytes.extend(piece).is_err() {
            self.lost = true;
            return;
        }
        self.before = self.before.saturating_add(newlines);
        self.bytes = bytes;
    }

    /// The line of this number, from 1, without its newline, where it is one of these.
    pub fn line(&self, number: u64) -> Option<&[u8]> {
        if self.lost || number <= self.before {
            return None;
        }
        let index = number - self.before - 1;
        self.bytes
            .as_slice()
            .split(|byte| *byte == b'\n')
            .nth(index as usize)
    }
}

/// A source over the standard input that remembers its last lines.
#[derive(Drop)]
pub struct Heard<'a, R> {
    rt: &'a HostRuntime,
    source: StdSource<R>,
    lines: LastLines,
}

impl<'a, R> Model for Heard<'a, R> {
    ghost use Rattle.afp_outside.specs.ends.Source.{SourceState};

    ghost Value = { SourceState };

    ghost view = { λ a. a.source };
}

impl<'a, R> Heard<'a, R> {
    ghost use Rattle.std.specs.Prelude.{◌≡◌, None, false};

    /// A source that was not read.
    pub fn new(rt: &'a HostRuntime, reader: R) -> Heard<'a, R>
        ensures { result ≡ record { given = None; given_before = None; coming = None; ended = false; faults = 0 } }
    {
        Heard {
            rt,
            source: StdSource::new(reader),
            lines: LastLines::new(rt),
        }
    }

    /// The last lines that it gave.
    pub fn lines(&self) -> &LastLines {
        &self.lines
    }
}

impl<'a, R: Read> Source for Heard<'a, R> {
    ghost source_state = { λ source. source };

    fn read(&mut self, room: &mut [u8]) -> ReadResult {
        let got = self.source.read(room);
        if let ReadResult::Got(n) = got {
            self.lines.hear(self.rt, &room[..n]);
        }
        got
    }
}
