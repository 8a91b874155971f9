//! A server in memory.
use afp_base::{Bytes, LinkNumber, Moment, OutOfMemory};
use afp_core::{Core, ListTeller};
use afp_serial::{Answered, Ask, House, Teller};
use once_across_breaks_live::HousedTeller;
use record_keeper::MemoryKeeper;
use std::alloc::Global;

/// A teller that stores its history, with the house of its core.
#[derive(Drop)]
pub struct Served {
    teller: ListTeller<MemoryKeeper>,
}

impl Teller for Served {
    ghost use Rattle.std.specs.Prelude.{length};
    ghost use Rattle.afp_core.specs.turns.Telling.{shown_of, start_of};
    ghost use Rattle.afp_core.specs.turns.lemma.Places.{upto-within};

    type Fixed = Core<MemoryKeeper>;

    ghost fixed = { λ t. start_of t.teller };

    ghost shown = { λ t. shown_of t.teller };

    ghost sound = { λ t. record {
      start = t.teller.sound;
      lawful = t.teller.lawful;
      stands = t.teller.sound_at;
      within = upto-within (length t.teller.entries.items);
    } };

    fn ask(&mut self, now: Moment, link: LinkNumber, ask: Ask, out: &mut [u8]) -> Answered {
        self.teller.ask(now, link, ask, out)
    }
}

impl HousedTeller for Served {
    fn house(&self) -> &House {
        self.teller.core().house()
    }
}

/// So many seconds since 2000-01-01 00:00 GMT.
pub fn moment(seconds: u32) -> Moment {
    Moment::new(seconds).unwrap_or(Moment::new(0).unwrap())
}

/// A house `Mac` with the volume `Share`.
fn house(alloc: Global) -> Result<House, OutOfMemory> {
    let mut volumes = Vec::new(alloc);
    volumes.push(Bytes::of(alloc, b"Share")?)?;
    match House::new(alloc, "Mac", [0; 16], Vec::new(alloc), volumes, "", [7; 32]) {
        Ok(house) => Ok(house),
        Err(_) => Err(OutOfMemory),
    }
}

/// A teller of that house, whose volume is new.
pub fn teller(alloc: Global) -> Result<Served, OutOfMemory> {
    let mut keepers = Vec::new(alloc);
    keepers.push(MemoryKeeper::new(alloc, Vec::new(alloc)))?;
    match Core::new(alloc, &house(alloc)?, keepers, moment(100)) {
        Ok(core) => Ok(Served {
            teller: ListTeller::new(alloc, core),
        }),
        Err(_) => Err(OutOfMemory),
    }
}
