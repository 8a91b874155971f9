//! Scripts of a client: the lines that they have.

mod element;
mod escape;
mod limits;
mod line;
mod read;

pub use crate::lines::escape::plain;
pub use crate::lines::limits::{LAST_ID, LAST_PLACE, LAST_REFERENCE, LONGEST_LINE, LONGEST_TEXT};
pub use crate::lines::line::{LineFault, ScriptLine};
pub use crate::lines::read::read_line;
