//! Captures: the judgement of a whole one, line by line, and its replay on a server that nobody has used.
#![tactic(auto)]

mod capture;
mod reader;
mod replay_end;
mod replaying;
mod setup;

pub use capture::Capture;
pub use replay_end::ReplayEnd;
pub use replaying::replay;
