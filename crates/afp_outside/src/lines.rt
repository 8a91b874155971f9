//! Lines of a source: each ends with a newline, and the last may end with the source.

mod lines;
mod reading;

pub use crate::lines::lines::{Lines, NextLine};
