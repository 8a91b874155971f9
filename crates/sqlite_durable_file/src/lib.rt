//! The keeper over a database in a file, as a type without parameters that goes into a box.
#![tactic(auto)]

mod keeper;

pub use keeper::{FileKeeper, OpenFault, empty_log, open_from, settle_boxed};
