//! What a plan of a volume changes in its records.

mod changes;
mod put;
mod records;
mod step;
mod touched;

pub use crate::steps::changes::plan_changes;
pub use crate::steps::step::Step;
