//! A teller that stores its history.
ghost use Rattle.std.specs.Prelude.{◌≡◌, ℕ, [], take, true};
ghost use Rattle.afp_serial.specs.History.{is_lawful, stand};
ghost use Rattle.afp_serial.specs.Sound.{IsSound};
ghost use Rattle.afp_core.specs.turns.Counted.{IsCounted};
ghost use Rattle.afp_core.specs.turns.Sureness.{MeetsNoFaults, SureKept};

use crate::turns::turn::Core;
use afp_base::{LinkNumber, Moment};
use afp_serial::{Answered, Ask, Entry, Teller};
use record_keeper::Keeper;
use std::alloc::Global;
use std::snapshot::Snapshot;

/// A core, and every entry of its history since it came here.
#[derive(Drop)]
pub struct ListTeller<K: Keeper> {
    start: Snapshot<Core<K>>,
    core: Core<K>,
    entries: Vec<Entry>,
    pub ghost sound: { IsSound start.value.world },
    pub ghost lawful: { is_lawful start.value.world entries.items ≡ true },
    pub ghost sound_at: { (k : ℕ) → IsSound (stand start.value.world (take k entries.items)) },
    pub ghost stands: { core.world ≡ stand start.value.world entries.items },
    pub ghost counted: { IsCounted start.value entries.items core },
    pub ghost keepers: { SureKept start.value core },
    pub ghost faultless: { MeetsNoFaults start.value entries.items },
}

impl<K: Keeper> ListTeller<K> {
    ghost use Rattle.afp_core.specs.turns.Telling.{start_of, core_of, history_of, shown_of};

    /// A teller that begins at the core's world, with no history.
    pub fn new(alloc: Global, core: Core<K>) -> ListTeller<K>
        ensures start { start_of result ≡ core }
        ensures core { core_of result ≡ core }
        ensures history { history_of result ≡ [] }
    {
        ListTeller {
            start: Snapshot::of(&core),
            core,
            entries: Vec::new(alloc),
        }
    }

    /// Every entry, the oldest first.
    pub fn entries(&self) -> &[Entry]
        ensures { result.now ≡ history_of self.now }
    {
        self.entries.as_slice()
    }

    /// The core. Its world is what the history makes of the world at the start, and its counts went on by the history. Where
    /// all keepers are sure, none has failed since.
    pub fn core(&self) -> &Core<K>
        ensures value { result.now ≡ core_of self.now }
        ensures stands { result.now.world ≡ stand (start_of self.now).world (history_of self.now) }
        ensures counted { IsCounted (start_of self.now) (history_of self.now) result.now }
        ensures keepers { SureKept (start_of self.now) result.now }
    {
        &self.core
    }

    /// The core, without its history.
    pub fn into_core(self) -> Core<K>
        ensures { result ≡ core_of self }
    {
        self.core
    }
}

impl<K: Keeper> Teller for ListTeller<K> {
    ghost use Rattle.std.specs.Prelude.{length};
    ghost use Rattle.afp_core.specs.turns.lemma.Places.{upto-within};
    ghost use Rattle.afp_core.specs.turns.Telling.{start_of, shown_of};

    /// The core as it was at the start.
    type Fixed = Core<K>;

    ghost fixed = { λ t. start_of t };

    ghost shown = { λ t. shown_of t };

    ghost sound = { λ t. record {
      start = t.sound;
      lawful = t.lawful;
      stands = t.sound_at;
      within = upto-within (length t.entries.items);
    } };

    fn ask(&mut self, now: Moment, link: LinkNumber, ask: Ask, out: &mut [u8]) -> Answered {
        if self.entries.reserve(1).is_err() {
            return Answered::Memory;
        }
        let Ok(kept) = ask.copy() else {
            return Answered::Memory;
        };
        match self.core.step(now, link, ask, out) {
            Ok((answered, outcome)) => {
                self.entries.push_reserved(Entry {
                    link,
                    at: now,
                    ask: kept,
                    outcome,
                });
                answered
            }
            Err(_) => Answered::Memory,
        }
    }
}
