//! What a replay answers.

/// How a replay ends.
#[derive(Clone, Copy, Debug, PartialEq, Eq)]
pub enum ReplayEnd {
    /// All that was compared is the same: how many connections were fed, how many entries the history has, how many replies
    /// there were, and how many of them with a code other than 0.
    Same {
        links: u64,
        entries: u64,
        replies: u64,
        refused: u64,
    },
    /// The output of a connection differs at this byte: which one was wanted, and which one stands there, if one does.
    Differs {
        link: u64,
        at: u64,
        want: u8,
        got: Option<u8>,
    },
    /// A line is bad, or the last one is missing.
    BadCapture {
        line: u64,
    },
    /// A read failed.
    ReadFault,
    /// So many bytes were taken that no more are read.
    Spent,
    /// There was no memory.
    Memory,
}
