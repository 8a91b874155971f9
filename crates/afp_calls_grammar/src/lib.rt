//! The requests of the Apple Filing Protocol: which there are, and which bytes spell them (AFP Reference, "AFP Calls"); and the
//! words that they are made of, each taken from the front of a block and put at its end.
#![tactic(auto)]

pub mod fields;
pub mod grammar;

pub use fields::{
    Fields, put_bytes, put_command, put_count, put_even, put_i32, put_i64, put_literal,
    put_long_text, put_optional, put_pad, put_path, put_str, put_text, put_u8, put_u16, put_u32,
};
pub use grammar::{Call, Piece, ReadFault};
