//! The words of a line.
use afp_base::{Bytes, OutOfMemory};
use std::alloc::Global;

/// The word at a place, empty where there is none.
pub fn word_at<'a>(words: &[&'a str], place: usize) -> &'a str {
    if place >= words.len() {
        ""
    } else {
        words[place]
    }
}

/// The last word, empty where there is none.
pub fn last_word<'a>(words: &[&'a str]) -> &'a str {
    if words.is_empty() {
        ""
    } else {
        words[words.len() - 1]
    }
}

/// The number that a word spells, 0 where it spells none.
pub fn number_of(word: &str) -> u64 {
    match word.parse::<u64>() {
        Ok(number) => number,
        Err(_) => 0,
    }
}

/// The number below 2^32 that a word spells, 0 where it spells none.
pub fn small_number_of(word: &str) -> u32 {
    match word.parse::<u32>() {
        Ok(number) => number,
        Err(_) => 0,
    }
}

/// The number of the word at a place, 0 where there is none.
pub fn number_at(words: &[&str], place: usize) -> u64 {
    number_of(word_at(words, place))
}

/// The number below 2^32 of the word at a place, 0 where there is none.
pub fn small_number_at(words: &[&str], place: usize) -> u32 {
    small_number_of(word_at(words, place))
}

/// The kind whose word this is.
pub fn kind_of<K: Copy>(kinds: &[(&str, K)], word: &str) -> Option<K> {
    for (known, kind) in kinds {
        if *known == word {
            return Some(*kind);
        }
    }
    None
}

/// The bytes that hexadecimal digits spell; none, where they spell none.
pub fn bytes_of(alloc: Global, digits: &str) -> Vec<u8> {
    match hex::decode(alloc, digits) {
        Ok(bytes) => bytes,
        Err(_) => Vec::new(alloc),
    }
}

/// The same bytes, as the server's crates own them.
pub fn owned(alloc: Global, digits: &str) -> Result<Bytes, OutOfMemory> {
    Bytes::of(alloc, bytes_of(alloc, digits).as_slice())
}

/// The hexadecimal digits of bytes, `-` where there are none.
pub fn digits_of(alloc: Global, bytes: &[u8]) -> Result<String, OutOfMemory> {
    if bytes.is_empty() {
        return Ok(String::from_str(alloc, "-")?);
    }
    Ok(hex::encode(alloc, bytes)?)
}
