//! The server that is run.
use afp_base::{Bytes, Moment, OutOfMemory};
use afp_serial::House;
use std::alloc::Global;

/// The moment of all calls.
pub fn moment() -> Moment {
    match Moment::new(100) {
        Some(moment) => moment,
        None => unreachable!(),
    }
}

/// A server `Mac` with these volumes.
fn house_of(alloc: Global, volumes: Vec<Bytes>) -> Result<House, OutOfMemory> {
    let users = Vec::new(alloc);
    match House::new(alloc, "Mac", [0; 16], users, volumes, "", [0; 32]) {
        Ok(house) => Ok(house),
        Err(_) => Err(OutOfMemory),
    }
}

/// Appends the name of a volume.
fn put(alloc: Global, volumes: &mut Vec<Bytes>, name: &[u8]) -> Result<(), OutOfMemory> {
    volumes.push(Bytes::of(alloc, name)?)?;
    Ok(())
}

/// A server `Mac` with the volume `Share`.
pub fn house(alloc: Global) -> Result<House, OutOfMemory> {
    let mut volumes = Vec::new(alloc);
    put(alloc, &mut volumes, b"Share")?;
    house_of(alloc, volumes)
}

/// The same with the volume `Other` beside it.
pub fn house_of_two(alloc: Global) -> Result<House, OutOfMemory> {
    let mut volumes = Vec::new(alloc);
    put(alloc, &mut volumes, b"Share")?;
    put(alloc, &mut volumes, b"Other")?;
    house_of(alloc, volumes)
}
