//! The records that differ between a volume as it is and as a plan leaves it: what a commit writes.
#![tactic(auto)]

pub mod records;
mod steps;

pub use records::{ForkPlace, Mapping, Touched, Transition, ValueChange, changes};
pub use steps::{Step, plan_changes};
