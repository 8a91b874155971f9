//! The limits of a capture's lines.

/// The most bytes of a line, without its newline.
pub const LONGEST_LINE: usize = 300_000;

/// The last number of a connection; the first is 1.
pub const LAST_LINK: u32 = 1000;
