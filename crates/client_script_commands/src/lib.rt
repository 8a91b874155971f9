//! The commands of a client's script, over whoever asks their calls: `ls`, `get`, `put`, `pack`,
//! `unpack` and the others.
#![tactic(auto)]

pub mod commands;
pub mod get;
pub mod ls;
pub mod parcels;
mod parts;

pub use parts::{
    Answer, Asker, Stop, ask, close_refused, in_fork, must, must_do, parts_end, replies_tell,
};
