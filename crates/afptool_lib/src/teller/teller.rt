//! A teller over sure keepers that stores no history.
ghost use Rattle.std.specs.Prelude.{◌≡◌, ℕ, [], take, length, true};
ghost use Rattle.afp_serial.specs.History.{faults_in, is_lawful, stand};
ghost use Rattle.afp_serial.specs.Sound.{IsSound};
ghost use Rattle.afp_core.specs.turns.Sureness.{AreSure, SureKept};

use crate::teller::turning::turn;
use afp_base::{LinkNumber, Moment, VolumeId};
use afp_core::Core;
use afp_serial::{Answered, Ask, Entry, Outcome, Teller};
use capture_log_server::SoleTeller;
use ghost_log::Log;
use record_keeper::Keeper;
use std::snapshot::Snapshot;

/// A core over sure keepers, and how many entries its history has since it came here. It alone asks the core, and none of its asks
/// meets a fault.
#[derive(Drop)]
pub struct SureTeller<K: Keeper> {
    start: Snapshot<Core<K>>,
    core: Core<K>,
    count: u64,
    log: Log<Entry>,
    pub ghost sure: { AreSure start.value },
    pub ghost sound: { IsSound start.value.world },
    pub ghost lawful: { is_lawful start.value.world log.items ≡ true },
    pub ghost sound_at: { (k : ℕ) → IsSound (stand start.value.world (take k log.items)) },
    pub ghost stands: { core.world ≡ stand start.value.world log.items },
    pub ghost keepers: { SureKept start.value core },
    pub ghost faultless: { faults_in log.items ≡ 0 },
    pub ghost counted: { count ≡ length log.items },
}

impl<K: Keeper> SureTeller<K> {
    ghost use Rattle.afptool_lib.specs.teller.Telling.{start_of, core_of, history_of};

    /// A teller that begins at the core's world, with no history.
    pub fn new(core: Core<K>) -> SureTeller<K>
        requires { AreSure core }
        ensures start { start_of result ≡ core }
        ensures core { core_of result ≡ core }
        ensures history { history_of result ≡ [] }
    {
        let _sound = core.counts();
        SureTeller {
            start: Snapshot::of(&core),
            core,
            count: 0,
            log: Log::new(),
        }
    }
}

impl<K: Keeper> Teller for SureTeller<K> {
    ghost use Rattle.std.specs.Prelude.{length};
    ghost use Rattle.afp_core.specs.turns.lemma.Places.{upto-within};
    ghost use Rattle.afptool_lib.specs.teller.Telling.{start_of, shown_of};

    /// The core as it was at the start.
    type Fixed = Core<K>;

    ghost fixed = { λ t. start_of t };

    ghost shown = { λ t. shown_of t };

    ghost sound = { λ t. record {
      start = t.sound;
      lawful = t.lawful;
      stands = t.sound_at;
      within = upto-within (length t.log.items);
    } };

    fn ask(&mut self, now: Moment, link: LinkNumber, ask: Ask, out: &mut [u8]) -> Answered {
        let Some(count) = self.count.checked_add(1) else {
            return Answered::Memory;
        };
        let entry = Entry {
            link,
            at: now,
            ask,
            outcome: Outcome::Done,
        };
        let log = self.log.and(&entry);
        match turn(&mut self.core, now, link, entry.ask, out) {
            None => Answered::Memory,
            Some(answered) => {
                self.log = log;
                self.count = count;
                answered
            }
        }
    }
}

impl<K: Keeper> SoleTeller for SureTeller<K> {
    ghost use Rattle.std.specs.Prelude.{length};
    ghost use Rattle.afptool_lib.specs.teller.lemma.Places.{same-places};

    ghost sole = { λ t. record { mine = same-places (length t.log.items); faultless = t.faultless } };

    fn entries(&self) -> u64 {
        self.count
    }

    fn nodes(&self, volume: VolumeId) -> Option<usize> {
        self.core.nodes(volume)
    }
}
