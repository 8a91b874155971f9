//! Captures that are made by a number: three connections are opened, and steps are drawn. They are
//! written to a sink, or counted.
#![tactic(auto)]

mod made;
mod requests;

pub use made::{MakeEnd, Tallied, make, tally};
pub use requests::{
    Draws, MOST_STEPS, Request, Steps, call_of, draw_one, draw_step, login, open_session,
    open_volume, open_volume_call,
};
