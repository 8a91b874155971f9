//! The limits of a script's lines.

/// The most bytes of a line, without its newline.
pub const LONGEST_LINE: usize = 4096;

/// The most bytes of a volume's name and of a comment, once they are read.
pub const LONGEST_TEXT: usize = 255;

/// The last number of an open fork.
pub const LAST_REFERENCE: u64 = (1 << 16) - 1;

/// The last node id.
pub const LAST_ID: u64 = (1 << 32) - 1;

/// The last place in a fork, and the most bytes of a range.
pub const LAST_PLACE: u64 = (1 << 63) - 1;
