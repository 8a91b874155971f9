//! The server's end of links, over whoever answers calls: frames come in, replies go out, on one
//! link, on all links of a door, one after the other, or on links that are served in turns.
#![tactic(auto)]

mod connection;
mod doors;
mod link;

pub use connection::{
    Connection, Rest, Standing, Then, Turn, TurnRoom, Unsent, a_link_is_served_whole,
    a_place_is_one_links, others_turns_change_nothing, turns_are_of_one_link,
};
pub use doors::{WorkerEnd, serve_all};
pub use link::{
    FrameEnd, Idle, LinkEnd, LinkRoom, Stage, Tally, Wire, WireEnd, a_frame_is_timely,
    each_request_has_its_reply, scripts_join, serve_link, what_happens_follows_the_script,
    what_is_written_beside_replies,
};
