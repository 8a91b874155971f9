//! A pass of a desk.
ghost use Rattle.std.specs.Prelude.{◌≡◌, ◌<◌, ◌≤◌, ℕ, length, take, true};
ghost use Rattle.afp_serial.specs.History.{is_lawful, stand};
ghost use Rattle.afp_serial.specs.Sound.{IsSound};
ghost use Rattle.afp_serial.specs.Shown.{Rising};
ghost use Rattle.afp_desk.specs.desk.lemma.Facts.{is_idle, Rising-prop};

use crate::desk::view::View;
use afp_core::Core;
use atomic_table::Seat;
use record_keeper::Keeper;

/// It shows a beginning of the desk's history, the places of its own calls, and its share.
#[derive(Drop)]
pub struct Pass<K: Keeper> {
    pub(crate) seat: Seat<Option<Core<K>>, View>,
    pub(crate) parts: u64,
    pub ghost counted: { parts ≡ seat.me.0.share },
    pub ghost small: { parts ≤ 4294967296 },
    pub ghost idle: { is_idle seat.me.0.stage ≡ true },
    pub ghost empty: { length seat.me.1 ≡ 0 },
    pub ghost settled: { length seat.me.0.other ≡ 0 },
    pub ghost live: { 0 < seat.me.0.share },
    pub ghost sound: { IsSound seat.me.0.start.world },
    pub ghost lawful: { is_lawful seat.me.0.start.world seat.me.0.seen ≡ true },
    pub ghost sound_at: { (k : ℕ) → IsSound (stand seat.me.0.start.world (take k seat.me.0.seen)) },
    pub ghost within: { Rising 0 seat.me.0.mine (length seat.me.0.seen) } by { Rising-prop 0 seat.me.0.mine (length seat.me.0.seen) },
}

impl<K: Keeper> Pass<K> {
    ghost use Rattle.std.specs.Prelude.{◌≡◌};
    ghost use Rattle.afp_desk.specs.desk.Passes.{share};

    /// Its part of the right to close the desk.
    pub fn share(&self) -> u64
        ensures { result ≡ share self.now }
    {
        self.parts
    }
}
