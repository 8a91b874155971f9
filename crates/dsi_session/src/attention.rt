//! What an Attention request tells.

/// What an Attention request tells, in the 2 bytes of its payload (AFP over TCP, "DSIAttention"). Its
/// four highest bits are named here.
#[derive(Clone, Copy, Debug, PartialEq, Eq)]
pub struct Attention(pub u16);

impl Attention {
    /// The server shuts down, or ends the session.
    pub const SHUTDOWN: u16 = 1 << 15;

    /// The server crashed, or will.
    pub const CRASH: u16 = 1 << 14;

    /// The server has a message.
    pub const SERVER_MESSAGE: u16 = 1 << 13;

    /// The client is not to reconnect.
    pub const DO_NOT_RECONNECT: u16 = 1 << 12;
}
