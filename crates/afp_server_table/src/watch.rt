//! What decides when each link of a thread has a turn.
ghost use Rattle.std.specs.Prelude.{◌≡◌};

use crate::links::Round;
use afp_base::Moment;
use afp_server::Turn;
use std::alloc::Global;
use std::mem;

/// The most frames of a link in one turn.
const MOST_FRAMES: u32 = 16;

/// After so many seconds each link has a turn, whether it is told as ready or not.
const LONGEST_REST: u32 = 8;

/// What decides when each link of a thread has a turn.
#[derive(Drop)]
pub struct Watch {
    /// The keys of those whose frames of the last round were used up.
    pub more: Vec<usize>,
    /// More links may be there at once.
    pub more_come: bool,
    round: u64,
    second: Moment,
    /// When each link had a turn.
    all_at: Moment,
}

impl Watch {
    /// At the beginning. It takes no memory.
    pub fn new(alloc: Global, now: Moment) -> Watch {
        Watch {
            more: Vec::new(alloc),
            more_come: false,
            round: 0,
            second: now,
            all_at: now,
        }
    }

    /// Whether somebody is known to wait for the next round.
    pub fn is_busy(&self) -> bool {
        self.more_come || !self.more.is_empty()
    }

    /// The next round, and those whose frames of the last one were used up.
    pub fn begin(&mut self, alloc: Global, turns: u64, now: Moment) -> (Round, Vec<usize>)
        ensures turns { result.0.turn.turns ≡ turns }
    {
        self.round = self.round.wrapping_add(1);
        let turn = Turn {
            turns,
            frames: MOST_FRAMES,
            at: now,
        };
        let more = mem::replace(&mut self.more, Vec::new(alloc));
        (
            Round {
                number: self.round,
                turn,
            },
            more,
        )
    }

    /// Whether a new second began since this was last asked.
    pub fn is_second(&mut self, now: Moment) -> bool {
        let is_new = self.second < now;
        self.second = now;
        is_new
    }

    /// Whether each link is to have a turn, since the last time was too long ago.
    pub fn are_all_due(&mut self, now: Moment) -> bool {
        let are_due = now.seconds().saturating_sub(self.all_at.seconds()) >= LONGEST_REST;
        if are_due {
            self.all_at = now;
        }
        are_due
    }
}
