//! Why a command is not done.
use crate::notes::Cause;
use afp_base::{Code, OutOfMemory};
use std::alloc::AllocError;
use std::io;

/// Why no answer comes: what it is for the exit status, the words, and the code of a refused login.
#[derive(Clone, Copy)]
pub struct Why {
    pub cause: Cause,
    pub words: &'static str,
    pub code: Option<Code>,
}

/// Why a command is not done.
#[derive(Clone, Copy)]
pub(crate) enum Trouble {
    /// The server refused a call.
    Refused(Code),
    /// No answer comes.
    Ended(Why),
    /// A reply is none that may come.
    BadReply,
    /// A local file.
    Local(io::Error),
    /// What was asked can't be done.
    Bad(&'static str),
    /// There was no memory.
    Memory,
}

impl From<OutOfMemory> for Trouble {
    fn from(_error: OutOfMemory) -> Trouble {
        Trouble::Memory
    }
}

impl From<AllocError> for Trouble {
    fn from(_error: AllocError) -> Trouble {
        Trouble::Memory
    }
}
