//! The requests about directories, and on files and directories alike, read and written (AFP Reference, "Directory Commands", "Combined Directory-File Commands").
//!
//! A comment on a request names the fields behind the command byte, in order, each with its size in
//! bytes. A pad has 1. A pathname is its type (1; 2 or 3), with type 3 a hint (4), a count (1 with
//! type 2, 2 with type 3) and as many bytes. Nothing may be enclosed, and what stands behind the
//! last field is not looked at.
#![tactic(auto)]

mod directory;
mod dispatch;
mod enumerate;
mod parameters;
mod place;

pub use dispatch::{read_directory_call, write_directory_call};
