//! Numbers as text.

/// The number below 2^16 of a word, 0 where it spells none.
pub fn short_of(word: &str) -> u16 {
    match word.parse::<u16>() {
        Ok(number) => number,
        Err(_) => 0,
    }
}
