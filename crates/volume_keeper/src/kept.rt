//! A volume beside the keeper of its records: what changes the volume is committed to the keeper first.

mod commit;
mod fork_writes;
mod forks;
mod kept;
pub mod laws;
mod load;
mod told;

pub use crate::kept::fork_writes::{plan_fork_length, plan_fork_write};
pub use crate::kept::kept::KeptVolume;
pub use volume_keeper_records::Reason;
