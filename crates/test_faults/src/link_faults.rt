//! Runs in which a read or a write of the link fails.
use crate::base::Base;
use crate::frames::{count, first_of};
use crate::places::{holds, new_place};
use crate::serve::{Ended, Plan, Served, run, run_both};
use crate::tally::{Found, Tally};
use afp_base::OutOfMemory;
use std::alloc::Global;

/// More calls than a link has in a run.
const CALLS: u64 = 1000;

/// What is seen in a run that ended so.
#[derive(Clone, Copy)]
struct Seen {
    ended: Ended,
    told: bool,
    held: bool,
}

/// Whether what was written is what has to be there. Behind a read that failed all requests so far have their replies, and no byte more is there; behind a write that
/// failed the last reply is missing, or a part of it.
fn is_told(served: &Served, want: &[u8]) -> bool {
    let written = served.written.as_slice();
    let replies = count(written);
    match served.ended {
        Ended::ReadFault => written == first_of(want, replies),
        Ended::WriteFault => {
            let more = first_of(want, replies.saturating_add(1));
            written.len() < more.len() && more.starts_with(written)
        }
        _ => false,
    }
}

/// How many requests were done: each that was replied to, and the one whose reply could not be written.
fn done(served: &Served) -> usize {
    let replies = count(served.written.as_slice());
    match served.ended {
        Ended::WriteFault => replies.saturating_add(1),
        _ => replies,
    }
}

/// The run in which the link's call of this number fails.
fn stops(alloc: Global, base: &Base, failing: u64) -> Result<Seen, OutOfMemory> {
    let place = new_place(alloc)?;
    let plan = Plan {
        link: Some(failing),
        keeper: None,
    };
    let served = run(alloc, &base.house, &place, base.frames(), plan)?;
    Ok(Seen {
        ended: served.ended,
        told: is_told(&served, base.replies()),
        held: holds(base.places.as_slice(), done(&served), &place),
    })
}

/// The same, and what comes of it where the client goes on by a new link.
fn goes_on(alloc: Global, base: &Base, failing: u64, seen: Seen) -> Result<Found, OutOfMemory> {
    let place = new_place(alloc)?;
    let script = &base.script;
    let replied = run_both(alloc, &base.house, &place, script, failing, base.replies())?;
    Ok(Found {
        told: seen.told,
        held: seen.held,
        last: holds(base.places.as_slice(), base.last(), &place),
        replied,
    })
}

/// The runs in which each call of the link fails in turn, up to the first number for which none does: those that ended so.
pub fn link_faults(alloc: Global, base: &Base, ended: Ended) -> Result<Tally, OutOfMemory> {
    let mut tally = Tally::new();
    for failing in 0..CALLS {
        let seen = stops(alloc, base, failing)?;
        if seen.ended == Ended::Closed {
            return Ok(tally);
        }
        if seen.ended == ended {
            tally = tally.and(goes_on(alloc, base, failing, seen)?);
        }
    }
    Ok(tally)
}
