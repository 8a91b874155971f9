//! The words of the server's command line: `clap` reads them as one simple command, and what they say is read of their values.

mod command;
mod explaining;
mod number;
mod place;
mod read;
mod users;

pub use crate::words::explaining::{Explained, explain};
pub use crate::words::place::{PlaceWord, VolumeWord};
pub use crate::words::read::{ServerWords, WordFault, read_words};
pub use crate::words::users::{UserWord, user_of};
