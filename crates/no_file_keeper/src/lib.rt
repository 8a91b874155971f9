//! Stands in the place of the keeper over a file where no volume is kept in one: it opens none.
#![tactic(auto)]

mod keeper;

pub use keeper::{FileKeeper, OpenFault, empty_log};
