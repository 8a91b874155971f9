//! Byte-range locks on forks (AFP Reference, FPByteRangeLock).
#![tactic(auto)]

mod fault;
mod forks;
mod locks;
mod range;
mod rows;

pub use fault::{LockFault, NotLocked};
pub use locks::Locks;
pub use range::Range;
pub use rows::LockRow;
