//! Links over TCP that never wait, and a door for them with a watch over all of them.
#![tactic(auto)]

mod tcp_poll;
mod tcp_ready;

pub use crate::tcp_poll::TcpPoll;
pub use crate::tcp_ready::TcpReady;
