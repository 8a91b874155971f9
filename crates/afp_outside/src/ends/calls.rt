//! Which calls fail.
ghost use Rattle.std.specs.Prelude.{◌≡◌};
ghost use Rattle.afp_outside.specs.ends.Tape.{fails, after_call};

use std::marker::Model;

/// Calls that are numbered from 0, some of which fail.
#[derive(Drop)]
pub struct PlannedCalls {
    failing: Vec<u64>,
    made: u64,
}

impl Model for PlannedCalls {
    ghost use Rattle.afp_outside.specs.ends.Tape.{PlannedCalls};

    ghost Value = { PlannedCalls };

    ghost view = { λ calls. record { failing = calls.failing.items; made = calls.made } };
}

impl PlannedCalls {
    /// No call was made, and those with these numbers fail.
    pub fn new(failing: Vec<u64>) -> PlannedCalls
        ensures { result ≡ record { failing = failing.items; made = 0 } }
    {
        PlannedCalls { failing, made: 0 }
    }

    /// Counts a call, and says whether it fails.
    pub fn fails(&mut self) -> bool
        ensures answer { result ≡ fails self.old }
        ensures counted { self.new ≡ after_call self.old }
    {
        let failing = self.failing.as_slice().contains(&self.made);
        self.made = self.made.saturating_add(1);
        failing
    }
}
