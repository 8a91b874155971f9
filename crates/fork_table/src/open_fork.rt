//! An open fork, and why a fork is not opened.

use afp_base::SessionNumber;
use deny_modes::{ForkKey, Mode};
use thiserror::Error;

/// An open fork: the session that opened it, the fork, and what the open may do and denies to others.
#[derive(Clone, Copy)]
pub struct OpenFork {
    pub session: SessionNumber,
    pub fork: ForkKey,
    pub mode: Mode,
}

/// Why a fork is not opened: it would conflict with another open, the session has 256 forks open, or there is no memory.
#[derive(Clone, Copy, Debug, PartialEq, Eq, Error)]
pub enum OpenFault {
    #[error("another open denies it")]
    Deny,
    #[error("the session has as many forks open as it may")]
    TooMany,
    #[error("out of memory")]
    Memory,
}
