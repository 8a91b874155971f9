//! How far a link has come.

/// How far a link has come (AFP over TCP): no session is open on it, one is, or it ends and reads no
/// more.
#[derive(Clone, Copy, Debug, PartialEq, Eq)]
pub enum Phase {
    Fresh,
    Open,
    Closing,
}
