//! Drills: a client whose links break as numbers are drawn, over a server in memory.

mod beginning;
mod breaking;
mod counting;
mod drilling;
mod house;
mod stepping;

pub use crate::run::drilling::{Drilled, drill};
