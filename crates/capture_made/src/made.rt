//! Captures that are made by number: written to a sink, or counted.

mod adding;
mod counting;
mod making;

pub use crate::made::counting::{Tallied, tally};
pub use crate::made::making::{MakeEnd, make};
