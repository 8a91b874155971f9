//! The tool's client: the words of its command line, and a run of it.

mod command;
pub mod laws;
mod running;
mod user;
mod words;

pub(crate) use crate::client::command::matches_in;
pub use crate::client::running::{Finished, run_client_words};
pub(crate) use crate::client::user::is_login;
pub use crate::client::words::{ClientWords, addresses, client_words};
