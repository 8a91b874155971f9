//! What programs have in common that run over lines: they take each line of their standard input, its words and numbers, and print what
//! comes of it.

mod line_result;
mod lines;
mod words;

pub use crate::lines::line_result::{LineResult, print_result};
pub use crate::lines::lines::{AnswersLines, TakesLines, answer_lines, take_lines};
pub use crate::lines::words::{
    bytes_of, digits_of, kind_of, last_word, number_at, number_of, owned, small_number_at,
    small_number_of, word_at,
};
