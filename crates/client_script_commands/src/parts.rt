//! What the commands of a client's script ask, and whoever asks it.

mod asker;
mod told;

pub use crate::parts::asker::{Answer, Asker, Stop};
pub use crate::parts::told::{ask, close_refused, in_fork, must, must_do, parts_end, replies_tell};
