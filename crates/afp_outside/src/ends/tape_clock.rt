//! A clock in memory.
ghost use Rattle.std.specs.Prelude.{◌≡◌};

use crate::ends::clock::Clock;
use afp_base::Moment;
use std::marker::Model;

/// A clock that always tells the same moment.
///
/// Contracts see it as that moment.
#[derive(Clone, Copy, Debug)]
pub struct TapeClock {
    moment: Moment,
}

impl Model for TapeClock {
    ghost use Rattle.std.specs.Prelude.{ℕ};

    ghost Value = { ℕ };

    ghost view = { λ clock. clock.moment };

    ghost inverse = { λ moment. record { moment = moment } };
}

impl TapeClock {
    /// A clock that always tells this moment.
    pub fn new(now: Moment) -> TapeClock
        ensures { result ≡ now }
    {
        TapeClock { moment: now }
    }
}

impl Clock for TapeClock {
    ghost use Rattle.std.specs.Prelude.{Some};

    ghost moment_told = { λ moment. Some moment };

    fn now(&self) -> Moment {
        self.moment
    }
}
