//! The requests about open forks, read and written (AFP Reference, "Fork Commands").
//!
//! A comment on a request names the fields behind the command byte, in order, each with its size in
//! bytes. A pad has 1. A pathname is its type (1; 2 or 3), with type 3 a hint (4), a count (1 with
//! type 2, 2 with type 3) and as many bytes. Nothing may be enclosed unless the comment says so,
//! and what stands behind the last field is not looked at.
#![tactic(auto)]

mod dispatch;
mod fork;
mod fork_bytes;
mod lock;

pub use dispatch::{read_fork_call, write_fork_call};
