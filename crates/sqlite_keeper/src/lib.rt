//! A keeper over a SQL database: one table of keys and values. It tells no records.
#![tactic(auto)]

mod keeper;
mod statements;

pub use keeper::{SqliteKeeper, counted};
