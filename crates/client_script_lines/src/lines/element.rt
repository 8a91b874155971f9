//! Paths, and the other words.
ghost use Rattle.std.specs.Prelude.{◌≡◌, IfOk};
ghost use Rattle.std.specs.List.{list_all, slice_split};
ghost use Rattle.client_script_lines.specs.lines.Words.{is_hex, is_name, is_short, is_element, is_slash, is_deep_path, is_path, is_bytes, is_text, longest_text, plain};

use crate::lines::escape::plain;
use crate::lines::limits::LONGEST_TEXT;
use afp_base::{Bytes, OutOfMemory};
use afp_names::{Name, NameFault};
use line_words::{has_byte, is_word, parts_at, spelt};
use std::alloc::Global;

/// Whether bytes are a name.
fn is_name(alloc: Global, bytes: Option<Bytes>) -> Result<bool, OutOfMemory>
    ensures { IfOk result (λ is. is ≡ is_name bytes) }
{
    match bytes {
        Some(bytes) => match Name::new(alloc, bytes.as_slice()) {
            Ok(_) => Ok(true),
            Err(NameFault::Memory) => Err(OutOfMemory),
            Err(_) => Ok(false),
        },
        None => Ok(false),
    }
}

/// Whether a word is an element of a path.
fn is_element(alloc: Global, word: &[u8]) -> Result<bool, OutOfMemory>
    ensures { IfOk result (λ is. is ≡ is_element word.now) }
{
    is_name(alloc, plain(alloc, word)?)
}

/// Whether a text is elements, parted by slashes.
fn are_elements(alloc: Global, text: &[u8]) -> Result<bool, OutOfMemory>
    ensures { IfOk result (λ are. are ≡ list_all is_element (slice_split is_slash text.now)) }
{
    let mut left = text;
    loop {
        if !has_byte(left, b'/') {
            return is_element(alloc, left);
        }
        let (element, rest) = parts_at(left, b'/');
        if !is_element(alloc, element)? {
            return Ok(false);
        }
        left = rest;
    }
}

/// Whether a word is a path with elements.
pub fn is_deep_path(alloc: Global, word: &[u8]) -> Result<bool, OutOfMemory>
    ensures { IfOk result (λ is. is ≡ is_deep_path word.now) }
{
    if is_word(word) {
        are_elements(alloc, word)
    } else {
        Ok(false)
    }
}

/// Whether a word is a path.
pub fn is_path(alloc: Global, word: &[u8]) -> Result<bool, OutOfMemory>
    ensures { IfOk result (λ is. is ≡ is_path word.now) }
{
    if word == b"/".as_slice() {
        return Ok(true);
    }
    is_deep_path(alloc, word)
}

/// Whether a word stands for bytes.
pub fn is_bytes(alloc: Global, word: &[u8]) -> Result<bool, OutOfMemory>
    ensures { IfOk result (λ is. is ≡ is_bytes word.now) }
{
    Ok(is_word(word) && plain(alloc, word)?.is_some())
}

/// Whether a word is hexadecimal digits, two for each byte.
pub fn is_hex(alloc: Global, word: &[u8]) -> Result<bool, OutOfMemory>
    ensures { IfOk result (λ is. is ≡ is_hex word.now) }
{
    Ok(word.len() != 0 && spelt(alloc, word)?.is_some())
}

/// Whether bytes are of a text that is not too long.
fn is_short(bytes: Option<Bytes>) -> bool
    ensures { result ≡ is_short longest_text bytes }
{
    match bytes {
        Some(bytes) => bytes.as_slice().len() <= LONGEST_TEXT,
        None => false,
    }
}

/// Whether a word stands for a text.
pub fn is_text(alloc: Global, word: &[u8]) -> Result<bool, OutOfMemory>
    ensures { IfOk result (λ is. is ≡ is_text word.now) }
{
    Ok(is_word(word) && is_short(plain(alloc, word)?))
}
