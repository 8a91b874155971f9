//! Runs in which a commit or a settle of the keeper fails.
use crate::base::Base;
use crate::frames::{behind, first_of, is_misc_err, sent_twice};
use crate::keeper::Called;
use crate::places::{calls_of, holds, new_place, request_of};
use crate::serve::{Plan, run};
use crate::tally::{Found, Tally};
use afp_base::OutOfMemory;
use std::alloc::Global;

/// What is seen in a run that ends with the request in which a call failed.
#[derive(Clone, Copy)]
struct Seen {
    told: bool,
    held: bool,
}

fn plan_of(failing: usize) -> Plan {
    Plan {
        link: None,
        keeper: Some(failing as u64),
    }
}

/// Whether the first so many replies are those, and the one behind them says MiscErr and is the last.
fn is_told(written: &[u8], want: &[u8], requests: usize) -> bool {
    first_of(written, requests) == first_of(want, requests)
        && is_misc_err(behind(written, requests))
}

/// The run up to the request of this number, in which the keeper's call of that number fails.
fn stops(alloc: Global, base: &Base, failing: usize, request: usize) -> Result<Seen, OutOfMemory> {
    let place = new_place(alloc)?;
    let frames = first_of(base.frames(), request.saturating_add(1));
    let served = run(alloc, &base.house, &place, frames, plan_of(failing))?;
    Ok(Seen {
        told: is_told(served.written.as_slice(), base.replies(), request),
        held: holds(base.places.as_slice(), request, &place),
    })
}

/// Whether these are the replies, with one more that says MiscErr in front of the one of this number.
fn is_replied(written: &[u8], want: &[u8], request: usize) -> bool {
    let more = behind(written, request);
    first_of(written, request) == first_of(want, request)
        && is_misc_err(first_of(more, 1))
        && behind(more, 1) == behind(want, request)
}

/// The whole run, with that request sent twice.
fn goes_on(
    alloc: Global,
    base: &Base,
    failing: usize,
    request: usize,
    seen: Seen,
) -> Result<Found, OutOfMemory> {
    let place = new_place(alloc)?;
    let frames = sent_twice(alloc, base.frames(), request)?;
    let served = run(
        alloc,
        &base.house,
        &place,
        frames.as_slice(),
        plan_of(failing),
    )?;
    Ok(Found {
        told: seen.told,
        held: seen.held,
        last: holds(base.places.as_slice(), base.last(), &place),
        replied: is_replied(served.written.as_slice(), base.replies(), request),
    })
}

/// The calls of the keeper in the whole run.
pub fn calls(base: &Base) -> &[Called] {
    let last = base.last();
    if last >= base.places.len() {
        return &[];
    }
    calls_of(&base.places[last])
}

/// How many calls of the keeper are made before the first request: those of the load.
fn calls_before(base: &Base) -> usize {
    if base.places.is_empty() {
        return 0;
    }
    calls_of(&base.places[0]).len().saturating_sub(1)
}

fn keeper_fault(alloc: Global, base: &Base, failing: usize) -> Result<Found, OutOfMemory> {
    let request = request_of(base.places.as_slice(), failing);
    let seen = stops(alloc, base, failing, request)?;
    goes_on(alloc, base, failing, request, seen)
}

/// The runs in which each call of this kind fails in turn, of those that requests make.
pub fn keeper_faults(alloc: Global, base: &Base, kind: Called) -> Result<Tally, OutOfMemory> {
    let calls = calls(base);
    let mut tally = Tally::new();
    for failing in calls_before(base)..calls.len().saturating_sub(1) {
        if calls[failing] == kind {
            tally = tally.and(keeper_fault(alloc, base, failing)?);
        }
    }
    Ok(tally)
}
