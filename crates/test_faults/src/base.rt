//! The run in which nothing fails.
use crate::frames::{count, first_of};
use crate::house::house;
use crate::keeper::Place;
use crate::places::{new_place, records_at};
use crate::script::Script;
use crate::serve::{Plan, Served, run};
use afp_base::OutOfMemory;
use afp_serial::House;
use record_keeper::Record;
use std::alloc::Global;

/// No call fails.
const NOTHING: Plan = Plan {
    link: None,
    keeper: None,
};

/// What is sent, what comes of it where nothing fails, and what the keeper holds behind each of the first requests, from none to all.
#[derive(Drop)]
pub struct Base {
    pub house: House,
    pub script: Script,
    pub whole: Served,
    pub places: Vec<Place>,
}

impl Base {
    /// All frames that are sent.
    pub fn frames(&self) -> &[u8] {
        self.script.frames()
    }

    /// All replies.
    pub fn replies(&self) -> &[u8] {
        self.whole.written.as_slice()
    }

    /// The place behind the last request.
    pub fn last(&self) -> usize {
        self.places.len().saturating_sub(1)
    }

    /// The records behind the last request.
    pub fn last_records(&self) -> &[Record] {
        records_at(self.places.as_slice(), self.last())
    }
}

fn place_behind(alloc: Global, house: &House, frames: &[u8]) -> Result<Place, OutOfMemory> {
    let place = new_place(alloc)?;
    let _ = run(alloc, house, &place, frames, NOTHING)?;
    Ok(place)
}

fn places_of(alloc: Global, house: &House, frames: &[u8]) -> Result<Vec<Place>, OutOfMemory> {
    let mut places = Vec::new(alloc);
    for requests in 0..count(frames) {
        places.push(place_behind(alloc, house, first_of(frames, requests))?)?;
    }
    places.push(place_behind(alloc, house, frames)?)?;
    Ok(places)
}

/// What comes of all frames, and what the keeper holds behind each of the first ones.
fn seen_in(
    alloc: Global,
    house: &House,
    frames: &[u8],
) -> Result<(Served, Vec<Place>), OutOfMemory> {
    let whole = whole_of(alloc, house, frames)?;
    let places = places_of(alloc, house, frames)?;
    Ok((whole, places))
}

fn whole_of(alloc: Global, house: &House, frames: &[u8]) -> Result<Served, OutOfMemory> {
    let place = new_place(alloc)?;
    run(alloc, house, &place, frames, NOTHING)
}

/// The run of a script in which nothing fails.
pub fn base_of(alloc: Global, script: Script) -> Result<Base, OutOfMemory> {
    let house = house(alloc)?;
    let (whole, places) = seen_in(alloc, &house, script.frames())?;
    Ok(Base {
        house,
        script,
        whole,
        places,
    })
}
