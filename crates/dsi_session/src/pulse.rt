//! Tickles, and silence.
ghost use Rattle.std.specs.Prelude.{◌≡◌};
ghost use Rattle.dsi_session.specs.Pulse.{IsDue, seconds_between};

use afp_base::Moment;
use std::marker::Model;

/// Seconds in which nothing was read, after which a link is silent.
const SILENCE_LIMIT: u32 = 120;

/// Seconds in which nothing was written, after which a tickle is due.
const TICKLE_LIMIT: u32 = 30;

/// What is due on a link: nothing, a Tickle, or its end, since its peer is silent.
#[derive(Clone, Copy, Debug, PartialEq, Eq)]
pub enum Due {
    Nothing,
    Tickle,
    Silent,
}

/// When the peer of a link was last read from, and last written to.
///
/// Contracts see these two moments.
#[derive(Debug, Drop)]
pub struct Pulse {
    last_read: Moment,
    last_write: Moment,
}

impl Model for Pulse {
    ghost use Rattle.dsi_session.specs.Pulse.{Moments};

    ghost Value = { Moments };

    ghost view = { λ pulse. record { last_read = pulse.last_read; last_write = pulse.last_write } };
}

impl Pulse {
    /// The pulse of a link that was made now.
    pub fn new(now: Moment) -> Pulse
        ensures { result ≡ record { last_read = now; last_write = now } }
    {
        Pulse {
            last_read: now,
            last_write: now,
        }
    }

    /// The peer was read from now. That moment counts from here on, also where it is an earlier one.
    pub fn note_read(&mut self, now: Moment)
        ensures { self.new ≡ record { last_read = now; last_write = self.old.last_write } }
    {
        self.last_read = now;
    }

    /// The peer was written to now. That moment counts from here on, also where it is an earlier one.
    pub fn note_write(&mut self, now: Moment)
        ensures { self.new ≡ record { last_read = self.old.last_read; last_write = now } }
    {
        self.last_write = now;
    }

    /// What is due now: `Silent` where 120 seconds or more have passed since the peer was last read from,
    /// else `Tickle` where 30 or more have passed since it was last written to. No time has passed
    /// where now comes before that moment.
    pub fn due(&self, now: Moment) -> Due
        ensures { IsDue self.now now result }
    {
        if seconds_between(self.last_read, now) >= SILENCE_LIMIT {
            Due::Silent
        } else if seconds_between(self.last_write, now) >= TICKLE_LIMIT {
            Due::Tickle
        } else {
            Due::Nothing
        }
    }
}

/// The seconds from a moment to another: none to an earlier one.
fn seconds_between(last: Moment, now: Moment) -> u32
    ensures { result ≡ seconds_between last now }
{
    now.seconds().saturating_sub(last.seconds())
}
