//! Forks carried between a server and local files, piece by piece, over whoever asks the calls; and a file's name on either side.
#![tactic(auto)]

mod calls;
mod get;
mod names;
mod put;
mod verify;
mod whole;

pub use calls::{MOST_PIECE, read_at, write_at};
pub use get::{Got, get_fork};
pub use names::{local_name, names_come_back, server_name};
pub use put::{Put, put_fork};
pub use verify::{Verified, verify_fork};
pub use whole::Watch;
