//! A list that only proofs read.

mod log;
#[cfg(test)]
mod tests;

pub use crate::log::log::Log;
