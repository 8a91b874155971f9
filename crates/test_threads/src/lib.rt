//! Tests of what no contract says: passes of a desk that meet in one history, and the whole server
//! in threads of its own.
#![tactic(auto)]

pub mod desk;
pub mod threads;
