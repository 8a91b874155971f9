//! The opens of forks, with what each may do and denies to others (AFP Reference, FPOpenFork).
#![tactic(auto)]

mod fork;
mod opens;
mod volume_opens;

pub use fork::{ForkKey, Mode};
pub use opens::{Opens, in_exchange};
pub use volume_opens::VolumeOpens;
