//! Numbers in decimal.
ghost use Rattle.std.specs.Prelude.{◌≡◌, ◌≤◌, ◌++◌, OnOk, OnErr, Some, None, nat_le, if◌then◌else◌, IfSome};
ghost use Rattle.std.specs.Fmt.{decimal};
ghost use Rattle.std.specs.List.{list_all};
ghost use Rattle.line_words.specs.Numbers.{is_digit, number_in, padded_number_in, value_behind};

use afp_base::{Bytes, OutOfMemory};
use itoa::Buffer;

fn is_digit(byte: u8) -> bool
    ensures { result ≡ is_digit byte }
{
    b'0' <= byte && byte <= b'9'
}

fn are_digits(word: &[u8]) -> bool
    ensures { result ≡ list_all is_digit word.now }
{
    word.iter().all(|byte| is_digit(*byte))
}

/// The number that digits spell, if it is at most `most`.
fn value_of(digits: &[u8], most: u64) -> Option<u64>
    ensures value { result ≡ (if nat_le (value_behind 0 digits.now) most then Some (value_behind 0 digits.now) else None) }
    ensures most { IfSome result (λ value. value ≤ most) }
{
    let mut value: u64 = 0;
    for digit in digits {
        let next = u128::from(value) * 10 + u128::from(digit.saturating_sub(b'0'));
        if next > u128::from(most) {
            return None;
        }
        value = next as u64;
    }
    Some(value)
}

/// The number that a word spells, if it is one of at most `most`. It may have leading zeros.
pub fn padded_number(word: &[u8], most: u64) -> Option<u64>
    ensures value { result ≡ padded_number_in most word.now }
    ensures most { IfSome result (λ value. value ≤ most) }
{
    if word.is_empty() || !are_digits(word) {
        return None;
    }
    value_of(word, most)
}

/// The number that a word spells, if it is one of at most `most` without a leading zero.
pub fn number(word: &[u8], most: u64) -> Option<u64>
    ensures value { result ≡ number_in most word.now }
    ensures most { IfSome result (λ value. value ≤ most) }
{
    if word.len() > 1 && word[0] == b'0' {
        return None;
    }
    padded_number(word, most)
}

/// Appends a number. An error changes nothing.
pub fn put_number(out: &mut Bytes, number: u64) -> Result<(), OutOfMemory>
    ensures ok { OnOk result (out.new ≡ out.old ++ decimal number) }
    ensures err { OnErr result (out.new ≡ out.old) }
{
    let mut buffer = Buffer::new();
    out.extend(buffer.format(number).as_bytes())
}
