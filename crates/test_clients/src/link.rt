//! What comes on a link.
ghost use Rattle.std.specs.Prelude.{All, IfOk};
ghost use Rattle.afp_outside.specs.ends.Tape.{IsFreshTape};

use crate::plan::{Plan, moment_of, numbers, sizes};
use afp_base::{Bytes, Moment, OutOfMemory};
use afp_outside::TapeLink;
use std::alloc::Global;
use test_lines::lines::bytes_of;

/// A link: the moment when it was made, what its reads give and when, and its plan.
#[derive(Drop)]
pub struct LinkPlan {
    made: Moment,
    bytes: Bytes,
    reads: Vec<usize>,
    moments: Vec<Moment>,
    plan: Plan,
}

impl LinkPlan {
    /// A link on which nothing comes.
    pub fn new(alloc: Global, made: Moment) -> LinkPlan {
        LinkPlan {
            made,
            bytes: Bytes::new(alloc),
            reads: Vec::new(alloc),
            moments: Vec::new(alloc),
            plan: Plan::new(alloc),
        }
    }

    /// A read at this moment gives these bytes; where there are none, it is a quiet.
    fn read(&mut self, moment: Moment, piece: &[u8]) -> Result<(), OutOfMemory> {
        self.bytes.extend(piece)?;
        self.reads.push(piece.len())?;
        self.moments.push(moment)?;
        Ok(())
    }

    /// `MOMENT in HEX`, `MOMENT quiet`, or `calls` with what is planned.
    pub fn take(&mut self, alloc: Global, word: &str, rest: &str) -> Result<(), OutOfMemory> {
        if word == "calls" {
            return self.plan.take(rest);
        }
        match rest.split_once(' ') {
            Some(("in", digits)) => {
                let piece = bytes_of(alloc, digits);
                self.read(moment_of(word), piece.as_slice())
            }
            _ => self.read(moment_of(word), &[]),
        }
    }

    /// The link in memory.
    fn tape(&self, alloc: Global) -> Result<TapeLink, OutOfMemory>
        ensures { IfOk result IsFreshTape }
    {
        let bytes = self.bytes.copy()?;
        let reads = sizes(alloc, self.reads.as_slice())?;
        let writes = sizes(alloc, self.plan.takes.as_slice())?;
        let moments = Vec::from_slice(alloc, self.moments.as_slice())?;
        let fails = numbers(alloc, self.plan.fails.as_slice())?;
        TapeLink::new(alloc, self.made, bytes, reads, writes, moments, fails)
    }
}

/// The links in memory.
pub fn tapes(alloc: Global, links: &[LinkPlan]) -> Result<Vec<TapeLink>, OutOfMemory>
    ensures { IfOk result (λ tapes. All IsFreshTape tapes.items) }
{
    let mut tapes = Vec::new(alloc);
    for link in links {
        tapes.push(link.tape(alloc)?)?;
    }
    Ok(tapes)
}
