//! The state of the core: volumes beside their keepers, sessions, links and open forks, and what calls on them are told.
#![tactic(auto)]

mod forks;
mod keepers;
pub mod laws;
mod on_fork;
mod on_volume;
mod planned;
mod replies;
mod state;

pub use forks::OpenForks;
pub use on_fork::OwnFork;
pub use planned::{commit_plan, latest, run_plan, whole_at};
pub use replies::{done, parms_room, refused, told_of, told_settled};
pub use state::State;
