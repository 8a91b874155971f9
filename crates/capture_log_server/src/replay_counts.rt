//! What was counted on a server that a capture was replayed on.

/// How many connections were fed, how many entries the history has, how many replies there were, and how many of them with a code
/// other than 0.
#[derive(Clone, Copy, Debug, PartialEq, Eq)]
pub struct ReplayCounts {
    pub links: u64,
    pub entries: u64,
    pub replies: u64,
    pub refused: u64,
}
