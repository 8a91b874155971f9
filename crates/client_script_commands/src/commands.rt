//! The commands of a client's script, over whoever asks their calls.

pub mod bye;
pub mod cp;
pub mod drop;
pub mod find;
pub mod hold;
pub mod id;
pub mod lock;
pub mod mkdir;
pub mod mount;
pub mod mv;
pub mod note;
pub mod put;
pub mod replies;
pub mod rm;
pub mod show;
pub mod swap;
pub mod unlock;
