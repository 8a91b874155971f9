//! Counts of runs.

/// What was seen in a run with a fault: whether it was told as it has to be, and the records were those of the requests that were done; and where it was made good,
/// whether the last records were those of the run without a fault, and the replies too.
#[derive(Clone, Copy)]
pub struct Found {
    pub told: bool,
    pub held: bool,
    pub last: bool,
    pub replied: bool,
}

/// How many runs there were, and in how many of them each was seen.
#[derive(Clone, Copy)]
pub struct Tally {
    pub runs: u32,
    pub told: u32,
    pub held: u32,
    pub last: u32,
    pub replied: u32,
}

fn add_if(count: u32, seen: bool) -> u32 {
    if seen { count.saturating_add(1) } else { count }
}

impl Tally {
    /// No run.
    pub fn new() -> Tally {
        Tally {
            runs: 0,
            told: 0,
            held: 0,
            last: 0,
            replied: 0,
        }
    }

    /// One run more.
    pub fn and(self, found: Found) -> Tally {
        Tally {
            runs: self.runs.saturating_add(1),
            told: add_if(self.told, found.told),
            held: add_if(self.held, found.held),
            last: add_if(self.last, found.last),
            replied: add_if(self.replied, found.replied),
        }
    }
}
