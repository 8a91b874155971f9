//! Links served over any teller: frames come in by reads, or as pieces, and their replies go out.

mod frames;
mod idle;
mod laws;
mod reply;
mod requests;
mod script_laws;
mod serve;
mod session;
mod stage;
mod tally;
mod wire;

pub(crate) use crate::link::frames::{exit_gate, link_end};
pub use crate::link::laws::{
    each_request_has_its_reply, what_happens_follows_the_script, what_is_written_beside_replies,
};
pub(crate) use crate::link::requests::{
    LinkRequests, Request, attention_bytes, is_over, tickle_bytes,
};
pub use crate::link::script_laws::{a_frame_is_timely, scripts_join};
pub(crate) use crate::link::serve::{READ_SIZE, end_of};
pub use crate::link::serve::{LinkEnd, LinkRoom, serve_link};
pub(crate) use crate::link::session::LinkSession;
pub use crate::link::stage::{FrameEnd, Idle, Stage};
pub use crate::link::tally::Tally;
pub use crate::link::wire::{Wire, WireEnd};
