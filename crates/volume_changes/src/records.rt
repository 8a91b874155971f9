//! The records that differ between a volume as it is and as it will be.

mod kinds;
pub mod laws;
mod noting;
mod touched;
mod transition;

pub use crate::records::touched::{ForkPlace, Mapping, Touched};
pub use crate::records::transition::{Transition, ValueChange, changes};
