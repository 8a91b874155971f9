//! A file client: it lists, fetches and puts files of a server's volumes, over whoever asks its calls, local files and a person's console.
#![tactic(auto)]

mod calls;
mod codes;
mod command;
mod copies;
mod dates;
mod entries;
mod folders;
mod headers;
mod lines;
mod local;
mod notes;
mod paths;
mod place;
mod run;
mod server;
mod session;
mod show;
mod trouble;
mod verbs;
mod words;

pub use codes::code_words;
pub use local::{Local, LocalFault, Seen};
pub use notes::{Cause, Console, Notes};
pub use place::Place;
pub use run::{run_line, run_words, tell_end};
pub use session::{Outcome, Session};
pub use trouble::Why;
pub use words::{Explained, Flags, WordFault, Words, command_words, explain, place_in, read_words};
