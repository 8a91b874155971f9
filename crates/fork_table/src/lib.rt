//! The open forks of all sessions, with their deny modes and locks (AFP Reference, FPOpenFork, FPCloseFork).
#![tactic(auto)]

mod open_fork;
mod own;
mod rows;
mod table;

pub use open_fork::{OpenFault, OpenFork};
pub use table::ForkTable;
