//! Why a case cannot be tried.
use afp_base::OutOfMemory;
use hex::FromHexError;
use std::alloc::{AllocError, AllocFailed};
use std::num::ParseIntError;

/// Why a case cannot be tried: one of its words is not understood, or there is no memory.
#[derive(Clone, Copy)]
pub enum CaseFault {
    Word,
    Memory,
}

impl From<OutOfMemory> for CaseFault {
    fn from(_error: OutOfMemory) -> CaseFault {
        CaseFault::Memory
    }
}

impl From<AllocError> for CaseFault {
    fn from(_error: AllocError) -> CaseFault {
        CaseFault::Memory
    }
}

impl<T: Drop> From<AllocFailed<T>> for CaseFault {
    fn from(_error: AllocFailed<T>) -> CaseFault {
        CaseFault::Memory
    }
}

impl From<ParseIntError> for CaseFault {
    fn from(_error: ParseIntError) -> CaseFault {
        CaseFault::Word
    }
}

impl From<FromHexError> for CaseFault {
    fn from(error: FromHexError) -> CaseFault {
        match error {
            FromHexError::OutOfMemory => CaseFault::Memory,
            _ => CaseFault::Word,
        }
    }
}
