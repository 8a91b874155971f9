//! What the real server end of a link does with the frames of a client is what the law of once and in order says of it.

pub mod laws;
