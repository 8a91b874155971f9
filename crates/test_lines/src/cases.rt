//! What programs have in common that try cases.
//!
//! Each line of the standard input is a case: its kind, what is given, and behind ` -> ` what is wanted. Bytes are
//! hexadecimal digits, `-` where there are none; parts of them are joined by `+`, and `*` with a number repeats a part. A
//! line of which the result is another is printed with its number; at the end it prints how many cases there were of each
//! kind.

mod bad;
mod fault;
mod run;
mod words;

pub use crate::cases::bad::put_bad;
pub use crate::cases::fault::CaseFault;
pub use crate::cases::run::{TriesCases, try_cases};
pub use crate::cases::words::{bits_of, bytes_of, moment_of, owned, put_word, text_of, word_of};
