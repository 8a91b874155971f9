//! Links in memory.
ghost use Rattle.std.specs.Prelude.{IfOk};
ghost use Rattle.afp_outside.specs.ends.Tape.{IsFreshTape};

use afp_base::{Bytes, Moment, OutOfMemory};
use afp_outside::TapeLink;
use std::alloc::Global;

/// How a link gives what it has: the most bytes of each read and of each write, the moments of its reads in seconds, and
/// the numbers of the calls that fail.
#[derive(Clone, Copy)]
pub struct Plan<'a> {
    pub reads: &'a [usize],
    pub writes: &'a [usize],
    pub moments: &'a [u32],
    pub failing: &'a [u64],
}

pub fn moment(seconds: u32) -> Moment {
    Moment::new(seconds).unwrap_or(Moment::new(0).unwrap())
}

fn moments_of(alloc: Global, seconds: &[u32]) -> Result<Vec<Moment>, OutOfMemory> {
    let mut moments = Vec::new(alloc);
    for seconds in seconds {
        moments.push(moment(*seconds))?;
    }
    Ok(moments)
}

/// A link that was made at 100, through which the bytes come.
pub fn link_of(alloc: Global, bytes: &[u8], plan: &Plan<'_>) -> Result<TapeLink, OutOfMemory>
    ensures { IfOk result IsFreshTape }
{
    let coming = Bytes::of(alloc, bytes)?;
    let reads = plan.reads.to_vec(alloc)?;
    let writes = plan.writes.to_vec(alloc)?;
    let moments = moments_of(alloc, plan.moments)?;
    let failing = plan.failing.to_vec(alloc)?;
    TapeLink::new(alloc, moment(100), coming, reads, writes, moments, failing)
}
