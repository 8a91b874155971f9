//! What is noted of a link.
use dsi_session::Pulse;

/// When a link's peer was last read from and last written to, and whether a command got a reply on it.
#[derive(Debug, Drop)]
pub struct Noted {
    pub pulse: Pulse,
    pub replied: bool,
}
