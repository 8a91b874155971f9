//! A source in memory.
ghost use Rattle.std.specs.Prelude.{◌≡◌, ◌≤◌, ◌<◌, ◌++◌, [], length, take, drop, IsOk, IfOk};
ghost use Rattle.afp_outside.specs.ends.Source.{SourceReads};
ghost use Rattle.afp_outside.specs.ends.Tape.{source_of, fresh_source, source_read_size, TapeSourceReads};

use crate::ends::calls::PlannedCalls;
use crate::ends::link::ReadResult;
use crate::ends::source::Source;
use afp_base::{Bytes, OutOfMemory};
use std::collections::VecDeque;
use std::marker::Model;

/// Bytes that reads take from the first on, and the place where the last one was made.
#[derive(Drop)]
struct Remaining {
    bytes: Bytes,
    place: usize,
    last: usize,
}

impl Model for Remaining {
    ghost use Rattle.std.specs.Prelude.{◌≤◌, length, take, drop};
    ghost use Rattle.afp_outside.specs.ends.Tape.{Remaining};

    ghost Value = { Remaining };

    ghost view = { λ a. record { given = take a.place a.bytes; given_before = take a.last a.bytes; coming = drop a.place a.bytes } };

    ghost invariant = { λ a. a.place ≤ length a.bytes };
}

impl Remaining {
    /// These bytes, none of which was read.
    fn new(bytes: Bytes) -> Remaining
        ensures { result ≡ record { given = []; given_before = []; coming = bytes } }
    {
        Remaining {
            bytes,
            place: 0,
            last: 0,
        }
    }

    /// A read is made here.
    fn note(&mut self)
        ensures { self.new ≡ record self.old { given_before = self.old.given } }
    {
        self.last = self.place;
    }

    /// How many bytes are left.
    fn left(&self) -> usize
        ensures { result ≡ length self.now.coming }
    {
        self.bytes.as_slice().len() - self.place
    }

    /// Gives the next `n` bytes.
    #[tactic(auto, using(crate::proofs::OfEnds::Given::given_more, crate::proofs::OfEnds::Given::coming_less))]
    fn give(&mut self, n: usize, room: &mut [u8])
        requires most { n ≤ length self.old.coming }
        requires fits { n ≤ length room.old }
        ensures room { take n room.new ≡ take n self.old.coming }
        ensures given { self.new.given ≡ self.old.given ++ take n self.old.coming }
        ensures coming { self.old.coming ≡ take n self.old.coming ++ self.new.coming }
        ensures behind { self.new.coming ≡ drop n self.old.coming }
        ensures given_before { self.new.given_before ≡ self.old.given_before }
    {
        let bytes = self.bytes.as_slice();
        let end = self.place + n;
        room[..n].copy_from_slice(&bytes[self.place..end]);
        self.place = end;
    }
}

/// A source in memory, which follows a plan and tells all. Its reads are numbered from 0.
#[derive(Drop)]
pub struct TapeSource {
    bytes: Remaining,
    reads: VecDeque<usize>,
    calls: PlannedCalls,
    ended: bool,
    faults: u64,
}

impl Model for TapeSource {
    ghost use Rattle.afp_outside.specs.ends.Tape.{SourceTape};

    ghost Value = { SourceTape };

    ghost view = { λ a. record {
      given = a.bytes.given;
      given_before = a.bytes.given_before;
      coming = a.bytes.coming;
      ended = a.ended;
      faults = a.faults;
      reads = a.reads.items;
      calls = a.calls;
    } };
}

impl TapeSource {
    /// A source of these bytes, of which none was read.
    ///
    /// `reads` are the most bytes that each read in turn takes; where they have ended, a read takes
    /// all that fits, and a 0 is taken as 1. `failing` has the numbers of the reads that fail; such a
    /// read uses up no size.
    pub fn new(
        bytes: Bytes,
        reads: Vec<usize>,
        failing: Vec<u64>,
    ) -> Result<TapeSource, OutOfMemory>
        ensures ok { IsOk result }
        ensures source { IfOk result (λ source. source ≡ fresh_source bytes reads.items failing.items) }
    {
        Ok(TapeSource {
            bytes: Remaining::new(bytes),
            reads: VecDeque::from(reads),
            calls: PlannedCalls::new(failing),
            ended: false,
            faults: 0,
        })
    }
}

/// The most bytes that the next read into a room takes.
fn next_size(reads: &mut VecDeque<usize>, room: usize) -> usize
    requires { 0 < room }
    ensures least { 1 ≤ result }
    ensures most { result ≤ room }
    ensures size { result ≡ source_read_size reads.old.items room }
    ensures reads { reads.new.items ≡ drop 1 reads.old.items }
{
    match reads.pop_front() {
        Some(size) => room.min(1.max(size)),
        None => room,
    }
}

impl Source for TapeSource {
    ghost source_state = { source_of };

    fn read(&mut self, room: &mut [u8]) -> ReadResult
        requires { 0 < length room.old }
        ensures reads { SourceReads (source_of self.old) room.new result (source_of self.new) }
        ensures tape { TapeSourceReads self.old (length room.old) result self.new }
    {
        self.bytes.note();
        if self.calls.fails() {
            self.faults = self.faults.saturating_add(1);
            return ReadResult::Failed;
        }
        let most = next_size(&mut self.reads, room.len());
        let left = self.bytes.left();
        if left == 0 {
            self.ended = true;
            return ReadResult::End;
        }
        let n = most.min(left);
        self.bytes.give(n, room);
        ReadResult::Got(n)
    }
}
