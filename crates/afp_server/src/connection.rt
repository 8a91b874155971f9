//! Links that never wait, served in turns: each goes as far as it can, and rests where it would wait.

mod connection;
mod frames;
mod laws;
mod quiet;
mod reads;
mod sending;
mod standing;

pub use crate::connection::connection::{Connection, Rest, TurnRoom};
pub use crate::connection::laws::{
    a_link_is_served_whole, a_place_is_one_links, others_turns_change_nothing,
    turns_are_of_one_link,
};
pub use crate::connection::sending::Unsent;
pub use crate::connection::standing::{Standing, Then, Turn};
