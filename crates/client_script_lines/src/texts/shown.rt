//! Texts, with %XX for other bytes than letters, digits, `.`, `-` and `_`.
ghost use Rattle.std.specs.Prelude.{◌≡◌, ◌++◌, ◌<◌, length, OnOk, IfOk};
ghost use Rattle.client_script_lines.specs.texts.Texts.{is_shown, shown, shown_byte};

use afp_base::{Bytes, OutOfMemory, rest_of};
use line_words::put_hexadecimal;
use std::alloc::Global;

fn is_shown(byte: u8) -> bool
    ensures { result ≡ is_shown byte }
{
    b'a' <= byte && byte <= b'z'
        || b'A' <= byte && byte <= b'Z'
        || b'0' <= byte && byte <= b'9'
        || byte == b'.'
        || byte == b'-'
        || byte == b'_'
}

fn put_byte(alloc: Global, out: &mut Bytes, byte: u8) -> Result<(), OutOfMemory>
    ensures { OnOk result (out.new ≡ out.old ++ shown_byte byte) }
{
    if is_shown(byte) {
        return out.extend(&[byte]);
    }
    out.extend(b"%")?;
    put_hexadecimal(alloc, out, &[byte])
}

/// Appends the first byte of a text, and gives the rest.
#[tactic(auto, using(crate::proofs::OfTexts::ShownLemmas::first_shown))]
fn put_first<'a>(alloc: Global, out: &mut Bytes, text: &'a [u8]) -> Result<&'a [u8], OutOfMemory>
    requires { 0 < length text.now }
    ensures shown { IfOk result (λ rest. out.new ++ shown rest.now ≡ out.old ++ shown text.now) }
    ensures less { IfOk result (λ rest. length rest.now < length text.now) }
{
    put_byte(alloc, out, text[0])?;
    Ok(rest_of(text, 1))
}

/// Appends a text. After an error, any part of it may stand there.
#[tactic(auto, using(crate::proofs::OfTexts::ShownLemmas::all_shown))]
pub fn put_shown(alloc: Global, out: &mut Bytes, text: &[u8]) -> Result<(), OutOfMemory>
    ensures { OnOk result (out.new ≡ out.old ++ shown text.now) }
{
    let mut rest = text;
    while !rest.is_empty() {
        rest = put_first(alloc, out, rest)?;
    }
    Ok(())
}
