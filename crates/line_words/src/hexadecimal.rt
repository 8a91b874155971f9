//! Bytes in hexadecimal digits, two for each.
ghost use Rattle.std.specs.Prelude.{◌≡◌, ◌++◌, IfOk, OnOk};
ghost use Rattle.std.specs.List.{list_all};
ghost use Rattle.hex.specs.Hex.{encode_lower};
ghost use Rattle.line_words.specs.Hexadecimal.{is_lower_digit, hex_in, sized_in, spelt};

use afp_base::{Bytes, OutOfMemory};
use hex::FromHexError;
use std::alloc::Global;

/// The bytes that digits of either case spell; `None` where there is another character, or an odd number of digits.
pub fn spelt(alloc: Global, word: &[u8]) -> Result<Option<Bytes>, OutOfMemory>
    ensures { IfOk result (λ bytes. bytes ≡ spelt word.now) }
{
    match hex::decode(alloc, word) {
        Ok(bytes) => Ok(Some(Bytes::of(alloc, bytes.as_slice())?)),
        Err(FromHexError::OutOfMemory) => Err(OutOfMemory),
        Err(_) => Ok(None),
    }
}

fn is_lower_digit(byte: u8) -> bool
    ensures { result ≡ is_lower_digit byte }
{
    (b'0' <= byte && byte <= b'9') || (b'a' <= byte && byte <= b'f')
}

fn are_lower_digits(word: &[u8]) -> bool
    ensures { result ≡ list_all is_lower_digit word.now }
{
    word.iter().all(|byte| is_lower_digit(*byte))
}

/// The bytes that digits of lower case spell, at least one.
pub fn hex_bytes(alloc: Global, word: &[u8]) -> Result<Option<Bytes>, OutOfMemory>
    ensures { IfOk result (λ bytes. bytes ≡ hex_in word.now) }
{
    if word.is_empty() || !are_lower_digits(word) {
        return Ok(None);
    }
    spelt(alloc, word)
}

/// So many bytes, which digits of lower case spell.
pub fn hex_array<const SIZE: usize>(word: &[u8]) -> Option<[u8; SIZE]>
    ensures { result ≡ sized_in SIZE word.now }
{
    if !are_lower_digits(word) {
        return None;
    }
    let mut bytes = [0; SIZE];
    match hex::decode_to_slice(word, &mut bytes) {
        Ok(()) => Some(bytes),
        Err(_) => None,
    }
}

/// Appends the digits of bytes, in lower case.
pub fn put_hexadecimal(alloc: Global, out: &mut Bytes, bytes: &[u8]) -> Result<(), OutOfMemory>
    ensures { OnOk result (out.new ≡ out.old ++ encode_lower bytes.now) }
{
    let digits = hex::encode(alloc, bytes)?;
    out.extend(digits.as_bytes())
}
