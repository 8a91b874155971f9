//! The texts that a client's script prints.

mod shown;
mod text;

pub use crate::texts::shown::put_shown;
pub use crate::texts::text::{error_text, got_text, numbered, packed_text, put_entry, worded};
