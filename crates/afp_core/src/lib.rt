//! The core of the file server: its volumes are loaded from their keepers, each turn answers one
//! event over a world in memory, and at the end each volume is settled.
#![tactic(auto)]

mod keepers;
mod turns;

pub use keepers::{CoreFault, Retired, load_all, settle_all};
pub use turns::{Core, Counts, ListTeller};
