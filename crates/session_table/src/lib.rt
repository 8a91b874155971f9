//! The sessions of a server: their links, users, open volumes and kept answers, and the tokens by which clients come back to them.
#![tactic(auto)]

mod link_numbers;
mod open_volumes;
mod sessions;
#[cfg(test)]
mod tests;
mod token;

pub use sessions::{SessionFault, Sessions};
