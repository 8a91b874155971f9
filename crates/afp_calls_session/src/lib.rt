//! The requests about the session: logging in and out, tokens, and what the server tells of itself and of users, read and written (AFP Reference, "Login Commands", "Server Commands", "User Commands").
//!
//! A comment on a request names the fields behind the command byte, in order, each with its size in
//! bytes. A pad has 1. A Pascal string is a count (1) and as many bytes. Nothing may be enclosed,
//! and what stands behind the last field is not looked at.
#![tactic(auto)]

mod dispatch;
mod login;
mod server;
mod token;
mod user;

pub use dispatch::{read_session_call, write_session_call};
