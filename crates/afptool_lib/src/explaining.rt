//! What a person is told beside what is printed. No promise speaks of what it says.

mod ends;
mod help;
mod script;
mod words;

pub use crate::explaining::ends::{explain_dial, explain_end, explain_status};
pub(crate) use crate::explaining::help::{HELP, VERSION};
pub use crate::explaining::script::explain_line;
pub use crate::explaining::words::explain_words;
