//! Where links break.

/// Where the link of a step breaks.
#[derive(Clone, Copy, Debug, PartialEq, Eq)]
pub enum Break {
    /// Not at all.
    Never,
    /// Before the request reached the server.
    Before,
    /// Behind that, and before its reply reached the client.
    Behind,
}
