//! The bytes that writes in memory take.
ghost use Rattle.std.specs.Prelude.{◌≡◌, ◌≤◌, ◌<◌, [], length, IfOk};
ghost use Rattle.afp_outside.specs.ends.Tape.{TakesOf};

use afp_base::{Bytes, OutOfMemory};
use std::alloc::Global;
use std::collections::VecDeque;
use std::marker::Model;

/// The bytes that writes took, and the most bytes that each write still to come takes.
#[derive(Drop)]
pub struct Outgoing {
    written: Bytes,
    writes: VecDeque<usize>,
}

impl Model for Outgoing {
    ghost use Rattle.afp_outside.specs.ends.Tape.{Outgoing};

    ghost Value = { Outgoing };

    ghost view = { λ a. record { written = a.written; writes = a.writes.items } };
}

impl Outgoing {
    /// Nothing is written.
    pub fn new(alloc: Global, writes: Vec<usize>) -> Outgoing
        ensures { result ≡ record { written = []; writes = writes.items } }
    {
        Outgoing {
            written: Bytes::new(alloc),
            writes: VecDeque::from(writes),
        }
    }

    /// Takes the first bytes of a piece, as many as the next size says. An error changes nothing.
    pub fn take(&mut self, piece: &[u8]) -> Result<usize, OutOfMemory>
        requires { 0 < length piece.now }
        ensures least { IfOk result (λ n. 1 ≤ n) }
        ensures most { IfOk result (λ n. n ≤ length piece.now) }
        ensures takes { TakesOf self.old piece.now result self.new }
    {
        let n = match self.writes.front() {
            Some(size) => piece.len().min(1.max(*size)),
            None => piece.len(),
        };
        self.written.extend(&piece[..n])?;
        let _ = self.writes.pop_front();
        Ok(n)
    }

    /// The bytes written.
    pub fn written(&self) -> &Bytes
        ensures { result.now ≡ self.now.written }
    {
        &self.written
    }
}
