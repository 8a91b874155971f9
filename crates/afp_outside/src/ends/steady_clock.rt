//! A clock that the wall clock sets once.
ghost use Rattle.std.specs.Prelude.{◌≡◌, ◌≤◌, ◌+◌, IfSome};
ghost use Rattle.std.specs.Duration.{as_nanos};
ghost use Rattle.afp_outside.specs.ends.Tcp.{moment_of_nanos, IsMomentFrom};

use crate::ends::system_clock::moment_of_unix;
use afp_base::Moment;
use std::io;
use std::marker::Model;
use std::time::{Clock, Duration};

/// The moment so long after the wall clock stood at `set`, since 1970-01-01 00:00 GMT.
pub fn moment_after(set: Duration, gone: Duration) -> Moment
    ensures { result ≡ moment_of_nanos (as_nanos set + as_nanos gone) }
{
    moment_of_unix(set.saturating_add(gone).as_secs())
}

/// A clock that the wall clock sets once, where it is made. It goes on by the system's clock that nobody
/// sets, so its moments do not jump with the wall clock.
///
/// Contracts see it as the time at which it was set, in nanoseconds since 1970-01-01 00:00 GMT. They know
/// nothing of what the system's clocks tell: not which time that is, nor how much has gone since.
#[derive(Drop)]
pub struct SteadyClock<C> {
    clock: C,
    set: Duration,
    start: Duration,
}

impl<C> Model for SteadyClock<C> {
    ghost use Rattle.std.specs.Prelude.{ℕ};
    ghost use Rattle.std.specs.Duration.{as_nanos};

    ghost Value = { ℕ };

    ghost view = { λ clock. as_nanos clock.set };
}

impl<C: Clock + Drop> SteadyClock<C> {
    /// A clock that is set now. An error is one of the two clocks.
    ///
    /// No contract says at which time it is set, since none says what the wall clock tells.
    pub fn new(clock: C) -> io::Result<SteadyClock<C>> {
        let set = clock.since_1970()?;
        let start = clock.monotonic()?;
        Ok(SteadyClock { clock, set, start })
    }
}

impl<C> SteadyClock<C> {
    /// The moment at which it was set.
    pub fn set_at(&self) -> Moment
        ensures { result ≡ moment_of_nanos self.now }
    {
        moment_after(self.set, Duration::ZERO)
    }
}

impl<C: Clock> SteadyClock<C> {
    /// How long ago it was set, or `None` where the clock fails. Where the clock went back behind its start, that
    /// is no time at all.
    ///
    /// No contract says how long it is, or when the clock fails: that is the clock's word.
    pub fn gone(&self) -> Option<Duration> {
        Some(self.clock.monotonic().ok()?.saturating_sub(self.start))
    }

    /// The moment now, or `None` where the clock fails: that of the time at which it was set and the time gone
    /// since, so that it is never before the moment at which it was set, and the last one at most.
    ///
    /// No contract says how much time has gone, when the clock fails, or that a moment told later is not before
    /// one told earlier: of the clock nothing is known, and one that is not the system's may go back.
    pub fn moment(&self) -> Option<Moment>
        ensures told { IfSome result (λ moment. IsMomentFrom self.now moment) }
        ensures not_before { IfSome result (λ moment. moment_of_nanos self.now ≤ moment) }
    {
        Some(moment_after(self.set, self.gone()?))
    }
}
