//! Scripts of a client: the lines that they have, the requests that their commands ask, and the
//! texts that they print.
#![tactic(auto)]

pub mod calls;
mod lines;
mod texts;

pub use lines::{
    LAST_ID, LAST_PLACE, LAST_REFERENCE, LONGEST_LINE, LONGEST_TEXT, LineFault, ScriptLine, plain,
    read_line,
};
pub use texts::{error_text, got_text, numbered, packed_text, put_entry, put_shown, worded};
