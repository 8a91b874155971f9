//! The lines of commands.
ghost use Rattle.std.specs.Prelude.{◌≡◌, ◌++◌, IfOk, OnOk};
ghost use Rattle.client_script_lines.specs.texts.Texts.{entry_line, error_text, got_text, newline, numbered, packed_text, worded};

use crate::texts::shown::put_shown;
use afp_base::{Bytes, Code, OutOfMemory};
use itoa::Buffer;
use line_words::{put_hexadecimal, put_number};
use std::alloc::Global;

/// A word and a number.
pub fn numbered(alloc: Global, word: &[u8], number: u64) -> Result<Bytes, OutOfMemory>
    ensures { IfOk result (λ text. text ≡ numbered word.now number) }
{
    let mut text = Bytes::of(alloc, word)?;
    put_number(&mut text, number)?;
    Ok(text)
}

/// A word and a text.
pub fn worded(alloc: Global, word: &[u8], bytes: &[u8]) -> Result<Bytes, OutOfMemory>
    ensures { IfOk result (λ text. text ≡ worded word.now bytes.now) }
{
    let mut text = Bytes::of(alloc, word)?;
    put_shown(alloc, &mut text, bytes)?;
    Ok(text)
}

/// A refusal.
pub fn error_text(alloc: Global, code: Code) -> Result<Bytes, OutOfMemory>
    ensures { IfOk result (λ text. text ≡ error_text code) }
{
    let mut text = Bytes::of(alloc, b"error ")?;
    let mut buffer = Buffer::new();
    text.extend(buffer.format(code.number()).as_bytes())?;
    Ok(text)
}

/// The bytes of a fork, in hexadecimal.
pub fn got_text(alloc: Global, bytes: &[u8]) -> Result<Bytes, OutOfMemory>
    ensures { IfOk result (λ text. text ≡ got_text bytes.now) }
{
    if bytes.is_empty() {
        return Bytes::of(alloc, b"got 0");
    }
    let mut text = numbered(alloc, b"got ", bytes.len() as u64)?;
    text.extend(b" ")?;
    put_hexadecimal(alloc, &mut text, bytes)?;
    Ok(text)
}

/// The bytes of a parcel, in hexadecimal.
pub fn packed_text(alloc: Global, bytes: &[u8]) -> Result<Bytes, OutOfMemory>
    ensures { IfOk result (λ text. text ≡ packed_text bytes.now) }
{
    let mut text = numbered(alloc, b"packed ", bytes.len() as u64)?;
    text.extend(b" ")?;
    put_hexadecimal(alloc, &mut text, bytes)?;
    Ok(text)
}

/// Appends the line of a file or a directory in a list. After an error, any part of it may stand there.
pub fn put_entry(
    alloc: Global,
    out: &mut Bytes,
    word: &[u8],
    id: u32,
    name: &[u8],
) -> Result<(), OutOfMemory>
    ensures { OnOk result (out.new ≡ out.old ++ entry_line word.now id name.now) }
{
    out.extend(word)?;
    put_number(out, u64::from(id))?;
    out.extend(b" ")?;
    put_shown(alloc, out, name)?;
    out.extend(b"\n")
}
