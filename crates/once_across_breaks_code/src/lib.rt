//! The real client and the real server end keep to the law of `once_across_breaks`: each run of
//! them is one of its schedules, so each command has its effect once and in order.
#![tactic(auto)]

pub mod client;
pub mod run;
pub mod server;
