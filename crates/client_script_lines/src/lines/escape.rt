//! What words stand for.
ghost use Rattle.std.specs.Prelude.{◌≡◌, ◌<◌, ◌∷◌, [], None, length, IfOk, IfSome, MatchOption};
ghost use Rattle.std.specs.Result.{result_ok};
ghost use Rattle.hex.specs.Hex.{decode_sized};
ghost use Rattle.client_script_lines.specs.lines.Words.{plain, onto};

use afp_base::{Bytes, OutOfMemory, rest_of};
use std::alloc::Global;

/// The byte that two hexadecimal digits spell.
fn escaped(high: u8, low: u8) -> Option<[u8; 1]>
    ensures { result ≡ result_ok (decode_sized (high ∷ low ∷ []) 1) }
{
    let mut byte = [0; 1];
    match hex::decode_to_slice([high, low], &mut byte) {
        Ok(()) => Some(byte),
        Err(_) => None,
    }
}

/// The first byte that a word stands for, and the rest of the word.
fn first_byte(word: &[u8]) -> Option<(u8, &[u8])>
    requires { 0 < length word.now }
    ensures plain { MatchOption result (plain word.now ≡ None) (λ found. plain word.now ≡ onto found.0 (plain found.1.now)) }
    ensures less { IfSome result (λ found. length found.1.now < length word.now) }
{
    let byte = word[0];
    if byte != b'%' {
        return Some((byte, rest_of(word, 1)));
    }
    if word.len() < 3 {
        return None;
    }
    match escaped(word[1], word[2]) {
        Some(spelt) => Some((spelt[0], rest_of(word, 3))),
        None => None,
    }
}

/// What a word stands for.
pub fn plain(alloc: Global, word: &[u8]) -> Result<Option<Bytes>, OutOfMemory>
    ensures { IfOk result (λ bytes. bytes ≡ plain word.now) }
{
    let mut bytes = Bytes::new(alloc);
    let mut rest = word;
    while !rest.is_empty() {
        match first_byte(rest) {
            Some((byte, more)) => {
                bytes.push_u8(byte)?;
                rest = more;
            }
            None => return Ok(None),
        }
    }
    Ok(Some(bytes))
}
