//! The rows of the calls about open forks (AFP Reference, "Fork Commands").

pub mod byte_range_lock;
pub mod close_fork;
pub mod flush_fork;
pub mod get_fork_parms;
mod on_bytes;
pub mod open_fork;
pub mod read;
pub mod set_fork_parms;
pub mod write;
