//! A house served over its doors: each door by a worker of its own, at once and out of one history.

mod doors;
mod gather;
mod house;
mod staff;
mod worker;

pub use crate::workers::gather::Done;
pub use crate::workers::house::{Closing, serve_loaded};
