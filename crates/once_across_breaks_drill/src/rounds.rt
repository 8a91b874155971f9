//! Rounds between a client and a server that it is alone at: whole requests go to the server end of a link, and whole replies come back.

mod back;
mod caller;
mod calls;
mod first;
pub mod laws;
mod line;
mod opening;
mod round;

pub use crate::rounds::back::come_back;
pub use crate::rounds::caller::Caller;
pub use crate::rounds::calls::{Answered, ask_call, lost_round, told_round};
pub use crate::rounds::first::open_first;
pub use crate::rounds::line::Line;
pub use crate::rounds::opening::Linked;
pub use crate::rounds::round::{Round, call_round};
