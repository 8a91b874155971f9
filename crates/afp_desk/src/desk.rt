//! A ticket lock on a table, which holds a core in a slot, and the passes that show its history.

mod desk;
mod pass;
mod plays;
mod teller;
mod turn;
mod view;

pub use crate::desk::desk::{Desk, Trace};
pub use crate::desk::pass::Pass;
pub use crate::desk::teller::DeskTeller;
