//! The lines of a made capture.

mod event;

pub use crate::made::event::{has_room, lines_are_read, put_in_line, put_out_line};
