//! Why a lock or an unlock is refused.

use thiserror::Error;

/// Why a lock is not set: another reference's lock meets it, its own does, the reference has 1,024 locks, or there is no memory.
#[derive(Clone, Copy, Debug, PartialEq, Eq, Error)]
pub enum LockFault {
    #[error("another reference's lock meets it")]
    Locked,
    #[error("a lock of the same reference meets it")]
    Overlap,
    #[error("the reference has as many locks as it may")]
    Full,
    #[error("out of memory")]
    Memory,
}

/// The reference has no lock with exactly these ends.
#[derive(Clone, Copy, PartialEq, Eq)]
pub struct NotLocked;
