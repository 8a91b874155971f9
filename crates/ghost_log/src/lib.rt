//! Lists that only proofs read, and that take no memory: `Log` of values of a type, `Notes` of values that a proof names.
#![tactic(auto)]

mod log;
mod notes;

pub use log::Log;
pub use notes::Notes;
