//! `ls` of a client's script, over whoever asks its calls.

pub mod ls;
mod rows;
