//! Tests across the server's crates, and of single layers with ample memory, of what no lines of a
//! program can say.
#![tactic(auto)]

pub mod layers;
pub mod server;
