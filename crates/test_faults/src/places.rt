//! What keepers left behind.
use crate::keeper::{Called, Left, Place};
use afp_base::OutOfMemory;
use record_keeper::Record;
use std::alloc::Global;
use std::sync::{Arc, OnceLock};

/// A place where nothing was left yet.
pub fn new_place(alloc: Global) -> Result<Place, OutOfMemory> {
    Ok(Arc::new(alloc, OnceLock::new())?)
}

/// The records that were left there; none, where nothing was left.
pub fn records_of(place: &OnceLock<Left>) -> &[Record] {
    match place.get() {
        Some(left) => left.records.as_slice(),
        None => &[],
    }
}

/// The calls that were left there.
pub fn calls_of(place: &OnceLock<Left>) -> &[Called] {
    match place.get() {
        Some(left) => left.calls.as_slice(),
        None => &[],
    }
}

/// Whether both are the same records.
pub fn are_same(records: &[Record], others: &[Record]) -> bool {
    records.len() == others.len()
        && records.iter().zip(others).all(|(it, other)| it.key == other.key
            && it.value.as_slice() == other.value.as_slice())
}

/// The records at the place of a number; none, where there is no such place.
pub fn records_at(places: &[Place], number: usize) -> &[Record] {
    if number >= places.len() {
        return &[];
    }
    records_of(&places[number])
}

/// Whether the same records were left at the place of a number.
pub fn holds(places: &[Place], number: usize, place: &OnceLock<Left>) -> bool {
    number < places.len() && are_same(records_at(places, number), records_of(place))
}

/// How many places have other records than the one before.
pub fn images(places: &[Place]) -> usize {
    let mut images: usize = 0;
    for number in 0..places.len() {
        if number == 0 || !holds(places, number - 1, &places[number]) {
            images = images.saturating_add(1);
        }
    }
    images
}

/// In which of the requests, from 0, the call of a number was made; the places are those of a run behind each of its first requests. The last call of each run is the settle at its end.
pub fn request_of(places: &[Place], call: usize) -> usize {
    let mut before: usize = 0;
    for place in places {
        if calls_of(place).len() <= call.saturating_add(1) {
            before = before.saturating_add(1);
        }
    }
    before.saturating_sub(1)
}
