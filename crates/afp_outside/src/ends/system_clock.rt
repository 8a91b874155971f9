//! The system's clock, and its moments.
ghost use Rattle.std.specs.Prelude.{◌≡◌};
ghost use Rattle.afp_outside.specs.ends.Tcp.{moment_of_unix};

use crate::ends::clock::Clock;
use afp_base::Moment;
use std::marker::Model;
use std::time;

/// 2000-01-01 00:00 GMT, in seconds since 1970-01-01 00:00 GMT.
const YEAR_2000: u64 = 946_684_800;

/// The moment now, or `None` where the clock fails.
pub fn moment_now<C: time::Clock>(clock: &C) -> Option<Moment> {
    let since_1970 = clock.since_1970().ok()?;
    Some(moment_of_unix(since_1970.as_secs()))
}

/// The moment of a Unix time in seconds: the first one of all that are earlier, and the last one of
/// all that are later than moments reach.
pub fn moment_of_unix(seconds: u64) -> Moment
    ensures { result ≡ moment_of_unix seconds }
{
    let since_2000 = seconds.saturating_sub(YEAR_2000);
    let within = since_2000.min(u64::from(Moment::LAST));
    Moment::new(within as u32).unwrap()
}

/// The system's clock, in moments. Contracts see the clock that it reads, and know none of its moments.
///
/// A time before 2000 is the first moment, and one past the last moment is the last. Where the
/// clock fails, and no fault can be told, the moment is the first: no other comes before it, so that
/// nothing grows older by it.
#[derive(Drop)]
pub struct SystemClock<C> {
    clock: C,
}

impl<C> Model for SystemClock<C> {
    ghost Value = { C };

    ghost view = { λ clock. clock.clock };
}

impl<C> SystemClock<C> {
    ghost use Rattle.std.specs.Prelude.{◌≡◌};

    /// The moments of this clock.
    pub fn new(clock: C) -> SystemClock<C>
        ensures { result ≡ clock }
    {
        SystemClock { clock }
    }
}

impl<C: time::Clock> Clock for SystemClock<C> {
    ghost use Rattle.std.specs.Prelude.{None};

    ghost moment_told = { λ clock. None };

    fn now(&self) -> Moment {
        moment_now(&self.clock).unwrap_or(moment_of_unix(0))
    }
}
