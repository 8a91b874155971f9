//! However often a client's link breaks, each command takes effect once and in order, and each call
//! is told what it is told where no link breaks: laws over events alone, with no code in them.
#![tactic(auto)]

pub mod once;
pub mod same;

pub use same::Break;
