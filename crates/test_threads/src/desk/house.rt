//! A core over a house with one volume.
ghost use Rattle.std.specs.Prelude.{◌≡◌};
ghost use Rattle.afp_serial.specs.declared.ask.Ask.TheVariants as ask;

use afp_base::{Bytes, Moment, OutOfMemory};
use afp_core::Core;
use afp_serial::{Ask, House};
use record_keeper::MemoryKeeper;
use std::alloc::Global;

/// The moment of all asks.
pub fn moment() -> Moment
    ensures { result ≡ 100 }
{
    match Moment::new(100) {
        Some(moment) => moment,
        None => unreachable!(),
    }
}

/// What asks for a session.
pub fn open() -> Ask
    ensures { result ≡ ask.Open 1024 }
{
    Ask::Open { attention: 1024 }
}

/// A server `Mac` with the volume `Share`.
fn house(alloc: Global) -> Result<House, OutOfMemory> {
    let mut volumes = Vec::new(alloc);
    volumes.push(Bytes::of(alloc, b"Share")?)?;
    let users = Vec::new(alloc);
    match House::new(alloc, "Mac", [0; 16], users, volumes, "", [0; 32]) {
        Ok(house) => Ok(house),
        Err(_) => Err(OutOfMemory),
    }
}

/// Its core, over a keeper that holds nothing.
pub fn new_core(alloc: Global) -> Result<Core<MemoryKeeper>, OutOfMemory> {
    let house = house(alloc)?;
    let mut keepers = Vec::new(alloc);
    keepers.push(MemoryKeeper::new(alloc, Vec::new(alloc)))?;
    match Core::new(alloc, &house, keepers, moment()) {
        Ok(core) => Ok(core),
        Err(_) => Err(OutOfMemory),
    }
}
