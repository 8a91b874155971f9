//! A list that only proofs read, of values that they name.

mod notes;

pub use crate::notes::notes::Notes;
