//! A client's links over a dialer.

mod came;
mod laws;
mod links;
mod noted;
mod round;
mod send;
mod talk;

pub use crate::links::came::{Came, Next};
pub use crate::links::laws::histories_are_steps;
pub use crate::links::links::TalkEnd;
pub use crate::links::noted::Noted;
pub use crate::links::talk::{Limit, Talk, Told};
