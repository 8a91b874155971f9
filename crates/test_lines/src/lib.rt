//! What programs have in common that run over lines of the standard input: they take words and
//! numbers, try cases, and print what comes of it.
#![tactic(auto)]

pub mod cases;
pub mod lines;

pub use cases::{
    CaseFault, TriesCases, bits_of, moment_of, owned, put_bad, put_word, text_of, try_cases,
    word_of,
};
pub use lines::{
    AnswersLines, LineResult, TakesLines, answer_lines, kind_of, last_word, number_at,
    small_number_at, take_lines, word_at,
};
