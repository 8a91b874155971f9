//! The words of a case: bytes, numbers and moments.
use crate::cases::fault::CaseFault;
use crate::lines::digits_of;
use afp_base::{Bytes, Moment};
use std::alloc::Global;

/// A text of a case's own.
pub fn text_of(alloc: Global, text: &str) -> Result<String, CaseFault> {
    Ok(String::from_str(alloc, text)?)
}

/// Appends what a part of a word spells: hexadecimal digits, and how often they stand there behind a `*`.
fn append(alloc: Global, part: &str, bytes: &mut Vec<u8>) -> Result<(), CaseFault> {
    let (digits, times) = match part.split_once('*') {
        Some((digits, times)) => (digits, times.parse::<u32>()?),
        None => (part, 1),
    };
    let piece = hex::decode(alloc, digits)?;
    for _ in 0..times {
        bytes.extend_from_slice(piece.as_slice())?;
    }
    Ok(())
}

/// The bytes that a word spells: parts joined by `+`, as in `0b+61*11`. `-` spells none.
pub fn bytes_of(alloc: Global, word: &str) -> Result<Vec<u8>, CaseFault> {
    let mut bytes = Vec::new(alloc);
    if word != "-" {
        for part in word.split('+') {
            append(alloc, part, &mut bytes)?;
        }
    }
    Ok(bytes)
}

/// The same bytes, as the server's crates own them.
pub fn owned(alloc: Global, word: &str) -> Result<Bytes, CaseFault> {
    Ok(Bytes::of(alloc, bytes_of(alloc, word)?.as_slice())?)
}

/// The word that spells bytes: their hexadecimal digits, or `-`.
pub fn word_of(alloc: Global, bytes: &[u8]) -> Result<String, CaseFault> {
    Ok(digits_of(alloc, bytes)?)
}

/// Appends that word.
pub fn put_word(alloc: Global, text: &mut String, bytes: &[u8]) -> Result<(), CaseFault> {
    text.push_str(word_of(alloc, bytes)?.as_str())?;
    Ok(())
}

/// A bitmap, in hexadecimal digits.
pub fn bits_of(word: &str) -> Result<u16, CaseFault> {
    Ok(u16::from_str_radix(word, 16)?)
}

/// A moment, in seconds from 2000-01-01 00:00 GMT.
pub fn moment_of(word: &str) -> Result<Moment, CaseFault> {
    match Moment::new(word.parse::<u32>()?) {
        Some(moment) => Ok(moment),
        None => Err(CaseFault::Word),
    }
}
