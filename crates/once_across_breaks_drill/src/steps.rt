//! Drills: a client whose links break as numbers are drawn.

pub mod laws;
mod steps;

pub use crate::steps::steps::{DrillStep, DrillSteps, FIRST};
