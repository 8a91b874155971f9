//! The client's end of a session: one request outstanding, written again after a break.

mod client;
mod event;
mod laws;
mod login;
mod request;
mod stage;
mod state;

pub use crate::session::client::ClientCore;
pub use crate::session::event::Event;
pub use crate::session::laws::{
    a_token_is_read, bytes_come_in_any_pieces, each_call_has_its_result, steps_join,
    the_next_frame_decides, what_waits_is_kept,
};
pub use crate::session::login::Login;
pub use crate::session::request::{fits_frame, put_call};
pub use crate::session::stage::{OpeningStep, Stage};
