//! The places of a list at which something was found or put of late, to be looked at before a search.

ghost use Rattle.std.specs.Prelude.{◌≡◌, ◌+◌, ◌-◌, ◌<◌, ◌^◌, nat_lt, if◌then◌else◌};

use std::cell::Cell;

#[cfg(test)]
mod tests;

/// The last four places at which something of a list was found or put, the last one first.
///
/// The list may have changed since. Who takes a place looks whether what it wants stands there, and searches where it does not. Contracts see nothing of the
/// places, so none can rest on one.
#[derive(Drop)]
pub struct RecentPlaces {
    places: Cell<[usize; 4]>,
}

/// Where what stood at a place stands once all from a new one on stand one further.
fn behind_new(place: usize, new: usize) -> usize
    ensures { place < 2 ^ 64 - 1 → result ≡ (if nat_lt place new then place else place + 1) }
{
    if place < new {
        place
    } else {
        place.saturating_add(1)
    }
}

/// Where what stood at a place stands once all behind one that is gone stand one less far.
fn behind_gone(place: usize, gone: usize) -> usize
    ensures { result ≡ (if nat_lt gone place then place - 1 else place) }
{
    if place > gone { place - 1 } else { place }
}

impl RecentPlaces {
    /// Those of a list in which nothing was found yet: its first place. It takes no memory.
    pub fn new() -> RecentPlaces {
        RecentPlaces {
            places: Cell::new([0; 4]),
        }
    }

    /// The place at which something was found or put last.
    pub fn last(&self) -> usize {
        let [first, _, _, _] = self.places.get();
        first
    }

    /// The places, the last one first.
    pub fn places(&self) -> [usize; 4] {
        self.places.get()
    }

    /// Something was found at this place: it comes first. The one found the longest ago goes, if this one was not among them.
    pub fn found(&self, place: usize) {
        let [first, second, third, fourth] = self.places.get();
        if place == first {
            return;
        }
        if place == second {
            self.places.set([second, first, third, fourth]);
        } else if place == third {
            self.places.set([third, first, second, fourth]);
        } else {
            self.places.set([place, first, second, third]);
        }
    }

    /// Something was put at this place, and what stood there and behind it stands one further.
    pub fn inserted(&self, place: usize) {
        let [first, second, third, _] = self.places.get();
        self.places.set([
            place,
            behind_new(first, place),
            behind_new(second, place),
            behind_new(third, place),
        ]);
    }

    /// What stood at this place is gone, and what stood behind it stands one less far. A place that was noted for it is now that of what stood behind it.
    pub fn removed(&self, place: usize) {
        let [first, second, third, fourth] = self.places.get();
        self.places.set([
            behind_gone(first, place),
            behind_gone(second, place),
            behind_gone(third, place),
            behind_gone(fourth, place),
        ]);
    }
}
