//! The rows of the calls about the session: logging in and out, tokens, and what the server tells of itself and of users (AFP Reference, "Login Commands",
//! "Server Commands", "User Commands").

pub mod login;
pub mod logout;
pub mod server;
pub mod session_token;
pub mod user_calls;
mod users;
