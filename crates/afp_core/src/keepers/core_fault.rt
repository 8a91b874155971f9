//! Why there is no core.
use thiserror::Error;
use volume_keeper::LoadFault;

/// Why there is no core.
#[derive(Debug, Drop, Error)]
pub enum CoreFault {
    /// The number of keepers is not that of the house's volumes.
    #[error("there is not one keeper for each volume of the house")]
    Count,
    /// The load of the volume at this index, from 0, gave none: `BadRecord` or `Failed`. Those before it gave theirs.
    #[error("the volume at index {index} of the house was not loaded: {fault}")]
    Load { index: usize, fault: LoadFault },
    /// There is no memory.
    #[error("out of memory")]
    Memory,
}
