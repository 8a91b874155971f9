//! The words that requests are made of: each is taken from the front of a block, and put at its end.

mod fields;
pub mod laws;
mod pathname;
mod put;

pub use crate::fields::fields::Fields;
pub use crate::fields::pathname::put_path;
pub use crate::fields::put::{
    put_bytes, put_command, put_count, put_even, put_i32, put_i64, put_literal, put_long_text,
    put_optional, put_pad, put_str, put_text, put_u8, put_u16, put_u32,
};
