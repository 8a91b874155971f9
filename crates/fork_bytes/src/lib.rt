//! The bytes of a fork, kept as blocks of one size. A block of zeros is not kept, and contracts see a fork as the list of its bytes.
#![tactic(auto)]

mod apply;
mod block;
mod fork;
mod fork_write;
pub mod laws;
mod plan;
mod read;
mod write;

pub use block::{BLOCK_SIZE, Block};
pub use fork::Fork;
pub use fork_write::ForkWrite;
pub use plan::ForkPlan;
