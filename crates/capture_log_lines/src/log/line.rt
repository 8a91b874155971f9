//! What a line says.

use afp_base::{Bytes, Moment};

/// A line of a capture.
#[derive(Drop)]
pub enum Line {
    /// `afp-capture 1`: what follows is a capture.
    Title,
    /// `server NAME`.
    Server(Bytes),
    /// `signature HEX32`.
    Signature([u8; 16]),
    /// `user NAME:PASSWORD`, the password filled up with zero bytes.
    User {
        name: Bytes,
        password: [u8; 8],
    },
    /// `volume NAME`.
    Volume(Bytes),
    /// `key HEX64`: the key of the session tokens.
    Key([u8; 32]),
    /// `at LINK SECONDS WHAT`: what happened on a connection at a moment.
    At {
        link: u32,
        moment: Moment,
        what: What,
    },
    /// `end`.
    End,
}

/// What happened on a connection.
#[derive(Drop)]
pub enum What {
    /// `in HEX`: these bytes came.
    In(Bytes),
    /// `quiet`: no byte came for a time.
    Quiet,
    /// `lost`: the connection was lost.
    Lost,
    /// `out HEX`: these bytes were answered.
    Out(Bytes),
}
