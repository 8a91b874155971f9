//! Frames of the Data Stream Interface: their headers, a deframer over a stream in pieces, and a
//! writer.
#![tactic(auto)]

mod deframer;
mod frame;
mod laws;
mod stream;

pub use deframer::{Deframer, HEADER_LENGTH};
pub use frame::{BadFrame, DsiCommand, Head, Header, Reason, header_bytes, write_frame};
pub use laws::{one_frame, one_stream, read_again};
pub use stream::{Frames, OwnedFrame, Stream, StreamEnd, read_stream};
