//! A source, line by line.
ghost use Rattle.std.specs.Prelude.{◌≡◌, ◌<◌, ◌^◌, false, true, [], length};
ghost use Rattle.afp_outside.specs.lines.Lines.{Takes};

use crate::ends::Source;
use crate::lines::reading::next_of;
use afp_base::Bytes;
use std::alloc::Global;
use std::marker::Model;

/// What comes next of a source.
#[derive(Drop)]
pub enum NextLine {
    /// A line, without its newline. Of one that is too long, what was read of it.
    Line(Bytes),
    /// No line: the source ended.
    End,
    /// A read failed.
    ReadFault,
    /// So many bytes were read that no more are.
    Spent,
    /// There was no memory.
    Memory,
}

/// What was read of a source and stands in no line yet. It is a line at most, and what one read gives.
#[derive(Drop)]
pub struct Lines {
    alloc: Global,
    held: Bytes,
    ended: bool,
    taken: u64,
}

impl Model for Lines {
    ghost use Rattle.afp_outside.specs.lines.Lines.{Unread};

    ghost Value = { Unread };

    ghost view = { λ l. record { bytes = l.held; ended = l.ended; taken = l.taken } };
}

impl Lines {
    /// Nothing was read.
    pub fn new(alloc: Global) -> Lines
        ensures { result ≡ record { bytes = []; ended = false; taken = 0 } }
    {
        Lines {
            alloc,
            held: Bytes::new(alloc),
            ended: false,
            taken: 0,
        }
    }

    /// How many bytes were read.
    pub fn taken(&self) -> u64
        ensures { result ≡ self.now.taken }
    {
        self.taken
    }

    /// The next line, which is read whole before it is given: up to its newline, to the end of the source, or until it has more than
    /// `longest` bytes. It reads only where fewer than `turns` bytes were read.
    pub fn next<S: Source>(&mut self, source: &mut S, longest: usize, turns: u64) -> NextLine
        requires turns { turns < 2 ^ 63 }
        requires ended { self.old.ended ≡ true → (S.source_state source.old).ended ≡ true }
        ensures { Takes longest turns self.old (S.source_state source.old) result self.new (S.source_state source.new) }
    {
        next_of(
            self.alloc,
            &mut self.held,
            &mut self.ended,
            &mut self.taken,
            source,
            longest,
            turns,
        )
    }
}
