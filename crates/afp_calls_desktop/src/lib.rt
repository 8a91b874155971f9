//! The requests about the desktop database, read and written (AFP Reference, "Desktop Database Commands").
//!
//! A comment on a request names the fields behind the command byte, in order, each with its size in
//! bytes. A pad has 1. A Pascal string is a count (1) and as many bytes. A pathname is its type (1;
//! 2 or 3), with type 3 a hint (4), a count (1 with type 2, 2 with type 3) and as many bytes.
//! Nothing may be enclosed unless the comment says so, and what stands behind the last field is not
//! looked at.
#![tactic(auto)]

mod appl;
mod comment;
mod database;
mod dispatch;
mod icon;

pub use dispatch::{read_desktop_call, write_desktop_call};
