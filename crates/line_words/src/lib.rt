//! The words of a line, and the numbers and bytes that they spell.
#![tactic(auto)]

mod hexadecimal;
mod numbers;
mod words;

pub use hexadecimal::{hex_array, hex_bytes, put_hexadecimal, spelt};
pub use numbers::{number, padded_number, put_number};
pub use words::{first_word, has_byte, is_ascii, is_word, parts_at};
