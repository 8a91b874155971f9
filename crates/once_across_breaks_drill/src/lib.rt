//! Drills: a client whose links break as numbers are drawn, over a server in memory.
#![tactic(auto)]

pub mod rounds;
mod run;
pub mod steps;

pub use rounds::{
    Answered, Caller, Line, Linked, Round, ask_call, call_round, come_back, lost_round, open_first,
    told_round,
};
pub use run::{Drilled, drill};
pub use steps::{DrillStep, DrillSteps, FIRST};
