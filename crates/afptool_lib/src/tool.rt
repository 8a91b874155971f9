//! The tool: a client's scripts, captures, drills, streams of frames and parcels.

mod checking;
mod drills;
mod lines;
mod made;
mod parcels;
mod replays;
mod tool;
mod words;

pub use crate::tool::tool::afptool;
