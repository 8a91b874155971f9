//! All links of a door served at once, in turns, by one thread over any teller.
#![tactic(auto)]

mod at_once;
mod links;
mod turns;
mod watch;

pub use crate::at_once::serve_at_once;
