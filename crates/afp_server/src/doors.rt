//! All links of a door, served one after the other over any teller.

mod door;

pub use crate::doors::door::{WorkerEnd, serve_all};
