//! The requests of a made capture: three connections are opened, and steps are drawn by a number.

mod calls;
mod draw;
mod frames;
mod opening;
mod request;
mod steps;

pub use crate::requests::calls::{call_of, open_volume_call};
pub use crate::requests::draw::{Draws, draw_one, draw_step};
pub use crate::requests::opening::{login, open_session, open_volume};
pub use crate::requests::request::Request;
pub use crate::requests::steps::{MOST_STEPS, Steps};
