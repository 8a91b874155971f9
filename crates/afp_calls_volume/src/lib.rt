//! The requests about volumes, read and written (AFP Reference, "Volume Commands").
//!
//! A comment on a request names the fields behind the command byte, in order, each with its size in
//! bytes. A pad has 1. A Pascal string is a count (1) and as many bytes. Nothing may be enclosed,
//! and what stands behind the last field is not looked at.
#![tactic(auto)]

mod dispatch;
mod volume;

pub use dispatch::{read_volume_call, write_volume_call};
