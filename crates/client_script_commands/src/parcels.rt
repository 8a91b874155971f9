//! `pack` and `unpack` of a client's script: a file with both its forks as one AppleSingle file, over whoever asks their calls.

mod comments;
mod found;
mod held;
pub mod pack;
mod printed;
pub mod unpack;
mod writes;
