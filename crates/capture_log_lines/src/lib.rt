//! The lines of a capture: the forms that they have, what each says, and those of a made capture.
#![tactic(auto)]

mod log;
mod made;

pub use log::{LAST_LINK, LONGEST_LINE, Line, What, read_line};
pub use made::{has_room, lines_are_read, put_in_line, put_out_line};
