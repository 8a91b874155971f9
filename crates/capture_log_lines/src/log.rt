//! The lines of a capture: the forms that they have, and what each says.

mod event;
mod limits;
mod line;
mod read;

pub use crate::log::limits::{LAST_LINK, LONGEST_LINE};
pub use crate::log::line::{Line, What};
pub use crate::log::read::read_line;
