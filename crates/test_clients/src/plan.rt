//! What is planned of calls.
use afp_base::{Moment, OutOfMemory};
use std::alloc::Global;
use test_lines::lines::{number_of, small_number_of};

/// The moment of so many seconds; the first one, where there is none.
pub fn moment_of(word: &str) -> Moment {
    let first = Moment::new(0).unwrap();
    Moment::new(small_number_of(word)).unwrap_or(first)
}

/// The most bytes of each call in turn, and the numbers of the calls that fail.
#[derive(Drop)]
pub struct Plan {
    pub takes: Vec<usize>,
    pub fails: Vec<u64>,
}

impl Plan {
    /// No call fails, and each takes all.
    pub fn new(alloc: Global) -> Plan {
        Plan {
            takes: Vec::new(alloc),
            fails: Vec::new(alloc),
        }
    }

    /// `fails N` or `takes N`.
    pub fn take(&mut self, words: &str) -> Result<(), OutOfMemory> {
        match words.split_once(' ') {
            Some(("fails", number)) => self.fails.push(number_of(number))?,
            Some(("takes", number)) => self.takes.push(small_number_of(number) as usize)?,
            _ => {}
        }
        Ok(())
    }
}

/// A copy of sizes.
pub fn sizes(alloc: Global, all: &[usize]) -> Result<Vec<usize>, OutOfMemory> {
    Ok(Vec::from_slice(alloc, all)?)
}

/// A copy of numbers.
pub fn numbers(alloc: Global, all: &[u64]) -> Result<Vec<u64>, OutOfMemory> {
    Ok(Vec::from_slice(alloc, all)?)
}
