//! Words, and what stands behind them.
ghost use Rattle.std.specs.Prelude.{◌≡◌, ◌==◌, ℕ, length, nat_lt};
ghost use Rattle.std.specs.List.{before_first, after_first, position, position_or_len, list_all, list_any};
ghost use Rattle.line_words.specs.Words.{is_space, is_ascii, is_word};

use afp_base::rest_of;

fn place_of(text: &[u8], sought: u8) -> Option<usize>
    ensures { result ≡ position (λ (byte : ℕ). byte == sought) text.now }
{
    text.iter().position(|byte| *byte == sought)
}

/// What stands in front of the first such byte, and behind it; the whole text and nothing, where there is none.
pub fn parts_at(text: &[u8], sought: u8) -> (&[u8], &[u8])
    ensures before { result.0.now ≡ before_first (λ (byte : ℕ). byte == sought) text.now }
    ensures after { result.1.now ≡ after_first (λ (byte : ℕ). byte == sought) text.now }
{
    match place_of(text, sought) {
        Some(place) => (&text[..place], rest_of(text, place + 1)),
        None => (text, rest_of(text, text.len())),
    }
}

/// The word in front of the first space, and what stands behind that space; the whole text and nothing, where there is
/// none.
pub fn first_word(text: &[u8]) -> (&[u8], &[u8])
    ensures word { result.0.now ≡ before_first is_space text.now }
    ensures rest { result.1.now ≡ after_first is_space text.now }
{
    parts_at(text, b' ')
}

/// Whether the text has such a byte, so that its first one has a place.
pub fn has_byte(text: &[u8], sought: u8) -> bool
    ensures any { result ≡ list_any (λ (byte : ℕ). byte == sought) text.now }
    ensures place { result ≡ nat_lt (position_or_len (λ (byte : ℕ). byte == sought) text.now) (length text.now) }
{
    place_of(text, sought).is_some()
}

/// Whether the text is one word: it has a byte, and no space.
pub fn is_word(text: &[u8]) -> bool
    ensures { result ≡ is_word text.now }
{
    text.len() != 0 && !has_byte(text, b' ')
}

/// Whether each byte is of ASCII.
pub fn is_ascii(text: &[u8]) -> bool
    ensures { result ≡ list_all is_ascii text.now }
{
    text.iter().all(|byte| *byte <= 127)
}
