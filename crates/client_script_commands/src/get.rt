//! `get` of a client's script, and reads of a fork until its end, over whoever asks its calls.

pub mod get;
pub mod reads;
