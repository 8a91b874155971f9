//! The nodes of a volume: found by id, by the key of a name, and in the order of a directory's list.
#![tactic(auto)]

mod child;
mod edit;
mod kinds;
mod node;
mod order;
mod rows;
mod search;

pub use child::Child;
pub use node::{Marks, Node};
pub use rows::Rows;
