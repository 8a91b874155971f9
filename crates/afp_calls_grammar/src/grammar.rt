//! The requests of the Apple Filing Protocol: which there are, and which bytes spell them (AFP
//! Reference, "AFP Calls"). They are defined here; the crates above read and write them.

mod call;
pub mod commands;
pub mod kinds;
pub mod laws;
pub mod login_names;
mod piece;

pub use crate::grammar::call::{Call, ReadFault};
pub use crate::grammar::piece::Piece;
