//! A request of a made capture.
use afp_base::{Bytes, Moment};

/// A request of a made capture: the number of its connection, 1 to 3, its moment, and the bytes of its frame.
#[derive(Drop)]
pub struct Request {
    pub link: u32,
    pub at: Moment,
    pub frame: Bytes,
}
