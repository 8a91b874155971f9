//! A link in memory.
ghost use Rattle.std.specs.Prelude.{◌≡◌, ◌<◌, length, drop, IsOk, IfOk};
ghost use Rattle.afp_outside.specs.ends.Link.{Reads, Writes};
ghost use Rattle.afp_outside.specs.ends.Tape.{link_of, fresh_tape, TapeReads, TapeWrites, next_moment, read_size};

use crate::ends::calls::PlannedCalls;
use crate::ends::incoming::Incoming;
use crate::ends::link::{Link, ReadResult, Wrote};
use crate::ends::outgoing::Outgoing;
use afp_base::{Bytes, Moment, OutOfMemory};
use std::alloc::Global;
use std::collections::VecDeque;
use std::marker::Model;

/// A link in memory, which follows a plan and tells all.
///
/// Its reads and writes are numbered together from 0.
#[derive(Drop)]
pub struct TapeLink {
    incoming: Incoming,
    outgoing: Outgoing,
    calls: PlannedCalls,
    reads: VecDeque<usize>,
    moments: VecDeque<Moment>,
    ended: bool,
    read_faults: u64,
    write_faults: u64,
    quiets: u64,
    moment: Moment,
    last_read: Moment,
}

impl Model for TapeLink {
    ghost use Rattle.afp_outside.specs.ends.Tape.{Tape};

    ghost Value = { Tape };

    ghost view = { λ a. record {
      events = a.incoming.events;
      coming = a.incoming.coming;
      written = a.outgoing.written;
      ended = a.ended;
      read_faults = a.read_faults;
      write_faults = a.write_faults;
      quiets = a.quiets;
      moment = a.moment;
      last_read = a.last_read;
      reads = a.reads.items;
      writes = a.outgoing.writes;
      moments = a.moments.items;
      calls = a.calls;
    } };
}

impl TapeLink {
    /// A link that was neither read nor written, made at a moment, through which these bytes come.
    ///
    /// `reads` and `writes` are the most bytes that each read and each write in turn takes; where
    /// they have ended, a call takes all that fits. A 0 in `reads` is a quiet, and a 0 in `writes`
    /// is taken as 1. `moments` are those of the reads in turn; where they have ended, the moment
    /// stays. `failing` has the numbers of the calls that fail; such a call uses up no size.
    pub fn new(
        alloc: Global,
        made: Moment,
        bytes: Bytes,
        reads: Vec<usize>,
        writes: Vec<usize>,
        moments: Vec<Moment>,
        failing: Vec<u64>,
    ) -> Result<TapeLink, OutOfMemory>
        ensures ok { IsOk result }
        ensures tape { IfOk result (λ tape. tape ≡ fresh_tape made bytes reads.items writes.items moments.items failing.items) }
    {
        Ok(TapeLink {
            incoming: Incoming::new(bytes),
            outgoing: Outgoing::new(alloc, writes),
            calls: PlannedCalls::new(failing),
            reads: VecDeque::from(reads),
            moments: VecDeque::from(moments),
            ended: false,
            read_faults: 0,
            write_faults: 0,
            quiets: 0,
            moment: made,
            last_read: made,
        })
    }

    /// The bytes written.
    pub fn written(&self) -> &[u8]
        ensures { result.now ≡ self.now.written }
    {
        self.outgoing.written().as_slice()
    }
}

/// The most bytes that the next read into a room takes.
fn next_size(reads: &mut VecDeque<usize>, room: usize) -> usize
    ensures size { result ≡ read_size reads.old.items room }
    ensures reads { reads.new.items ≡ drop 1 reads.old.items }
{
    match reads.pop_front() {
        Some(size) => size.min(room),
        None => room,
    }
}

/// The moment of the next read, after one at the moment `now`.
fn next_moment(moments: &mut VecDeque<Moment>, now: Moment) -> Moment
    ensures moment { result ≡ next_moment moments.old.items now }
    ensures moments { moments.new.items ≡ drop 1 moments.old.items }
{
    match moments.pop_front() {
        Some(moment) => moment,
        None => now,
    }
}

impl Link for TapeLink {
    ghost link_state = { link_of };

    fn read(&mut self, room: &mut [u8]) -> ReadResult
        requires { 0 < length room.old }
        ensures reads { Reads (link_of self.old) room.new result (link_of self.new) }
        ensures tape { TapeReads self.old (length room.old) result self.new }
    {
        self.moment = next_moment(&mut self.moments, self.moment);
        if self.calls.fails() {
            self.read_faults = self.read_faults.saturating_add(1);
            return ReadResult::Failed;
        }
        let most = next_size(&mut self.reads, room.len());
        if most == 0 {
            self.incoming
                .give_nothing(self.outgoing.written(), self.moment);
            self.quiets = self.quiets.saturating_add(1);
            return ReadResult::Quiet;
        }
        let left = self.incoming.left();
        if left == 0 {
            self.ended = true;
            return ReadResult::End;
        }
        let n = most.min(left);
        self.incoming
            .give(n, room, self.outgoing.written(), self.moment);
        self.last_read = self.moment;
        ReadResult::Got(n)
    }

    fn write(&mut self, piece: &[u8]) -> Wrote
        requires { 0 < length piece.now }
        ensures writes { Writes (link_of self.old) piece.now result (link_of self.new) }
        ensures tape { TapeWrites self.old piece.now result self.new }
    {
        if !self.calls.fails() {
            if let Ok(n) = self.outgoing.take(piece) {
                return Wrote::Took(n);
            }
        }
        self.write_faults = self.write_faults.saturating_add(1);
        Wrote::Failed
    }

    fn now(&self) -> Moment {
        self.moment
    }

    fn last_read(&self) -> Moment {
        self.last_read
    }
}
