//! Where a capture stands after some of its lines, and the server that it is replayed on, with its connections.
#![tactic(auto)]

mod connection;
mod difference;
mod part;
mod replay_counts;
mod running;
mod slots;
mod teller;

pub use difference::Difference;
pub use part::{Part, part_after};
pub use replay_counts::ReplayCounts;
pub use running::Running;
pub use teller::{SoleTeller, TellerMaker};
