//! What words stand for.
ghost use Rattle.std.specs.Prelude.{◌≡◌, ◌≤◌, ◌<◌, ◌++◌, ◌∷◌, [], length, IfOk, IfSome, OnOk};
ghost use Rattle.client_script_lines.specs.calls.Places.{IsPlace, longest_place};
ghost use Rattle.client_script_run.specs.line.Values.{directory_text, ended, but_last, last_of, name_text, names_in, number_of, path_text, spelt_text, text_of};

use afp_base::{Bytes, OutOfMemory};
use afp_names::{Path, UTF8_NAMES};
use client_script_lines::plain;
use line_words::{has_byte, padded_number, parts_at, spelt};
use std::alloc::Global;

/// The most bytes of a line, and of what its words stand for.
const LONGEST: usize = 4096;

/// The bytes that a word stands for.
pub(crate) fn text_of(alloc: Global, word: &[u8]) -> Result<Bytes, OutOfMemory>
    ensures { IfOk result (λ text. text ≡ text_of word.now) }
{
    match plain(alloc, word)? {
        Some(text) => Ok(text),
        None => Ok(Bytes::new(alloc)),
    }
}

/// The same, at most 255 bytes.
pub(crate) fn short_text(alloc: Global, word: &[u8]) -> Result<Bytes, OutOfMemory>
    ensures text { IfOk result (λ text. text ≡ text_of word.now) }
    ensures short { IfOk result (λ text. length text < 256) }
{
    let text = text_of(alloc, word)?;
    if text.as_slice().len() > 255 {
        return Err(OutOfMemory);
    }
    Ok(text)
}

/// The same, at most the bytes of a line.
pub(crate) fn piece_of(alloc: Global, word: &[u8]) -> Result<Bytes, OutOfMemory>
    ensures text { IfOk result (λ text. text ≡ text_of word.now) }
    ensures short { IfOk result (λ text. length text ≤ longest_place) }
{
    let text = text_of(alloc, word)?;
    if text.as_slice().len() > LONGEST {
        return Err(OutOfMemory);
    }
    Ok(text)
}

/// The bytes that a word's hexadecimal digits spell.
fn spelt_text(alloc: Global, word: &[u8]) -> Result<Bytes, OutOfMemory>
    ensures { IfOk result (λ text. text ≡ spelt_text word.now) }
{
    match spelt(alloc, word)? {
        Some(text) => Ok(text),
        None => Ok(Bytes::new(alloc)),
    }
}

/// The same, at most the bytes of a line.
pub(crate) fn spelt_of(alloc: Global, word: &[u8]) -> Result<Bytes, OutOfMemory>
    ensures text { IfOk result (λ text. text ≡ spelt_text word.now) }
    ensures short { IfOk result (λ text. length text ≤ longest_place) }
{
    let text = spelt_text(alloc, word)?;
    if text.as_slice().len() > LONGEST {
        return Err(OutOfMemory);
    }
    Ok(text)
}

/// The number that a word spells, where it is one of at most `most`.
pub(crate) fn number_of(word: &[u8], most: u64) -> Result<u64, OutOfMemory>
    ensures number { IfOk result (λ number. number ≡ number_of word.now) }
    ensures most { IfOk result (λ number. number ≤ most) }
{
    match padded_number(word, most) {
        Some(number) => Ok(number),
        None => Err(OutOfMemory),
    }
}

/// Appends a name, and a zero byte behind it.
fn put_ended(alloc: Global, out: &mut Bytes, word: &[u8]) -> Result<(), OutOfMemory>
    ensures { OnOk result (out.new ≡ out.old ++ text_of word.now ++ 0 ∷ []) }
{
    let text = text_of(alloc, word)?;
    out.extend(text.as_slice())?;
    out.push_u8(0)
}

/// Appends the names before the last slash, each with a zero byte behind it, and gives the last.
fn put_directory<'a>(
    alloc: Global,
    out: &mut Bytes,
    word: &'a [u8],
) -> Result<&'a [u8], OutOfMemory>
    ensures directory { OnOk result (out.new ≡ out.old ++ directory_text word.now) }
    ensures name { IfOk result (λ name. name.now ≡ last_of (names_in word.now)) }
{
    let mut left = word;
    loop {
        if !has_byte(left, b'/') {
            return Ok(left);
        }
        let (name, rest) = parts_at(left, b'/');
        put_ended(alloc, out, name)?;
        left = rest;
    }
}

/// What stands at a path, where it fits a line.
fn placed(alloc: Global, text: Bytes) -> Result<Bytes, OutOfMemory>
    ensures text { IfOk result (λ place. place ≡ text) }
    ensures place { IfOk result (λ place. IsPlace place) }
{
    if text.as_slice().len() > LONGEST {
        return Err(OutOfMemory);
    }
    match Path::read(alloc, UTF8_NAMES, text.as_slice()) {
        Ok(_) => Ok(text),
        Err(_) => Err(OutOfMemory),
    }
}

/// The path that a word stands for.
fn path_text(alloc: Global, word: &[u8]) -> Result<Bytes, OutOfMemory>
    ensures { IfOk result (λ text. text ≡ path_text word.now) }
{
    let mut text = Bytes::new(alloc);
    if word == b"/".as_slice() {
        return Ok(text);
    }
    let name = put_directory(alloc, &mut text, word)?;
    let last = text_of(alloc, name)?;
    text.extend(last.as_slice())?;
    Ok(text)
}

/// The path that a word stands for.
pub(crate) fn path_of(alloc: Global, word: &[u8]) -> Result<Bytes, OutOfMemory>
    ensures text { IfOk result (λ text. text ≡ path_text word.now) }
    ensures place { IfOk result (λ text. IsPlace text) }
{
    placed(alloc, path_text(alloc, word)?)
}

/// A directory, and a name in it.
#[derive(Drop)]
pub(crate) struct Target {
    pub(crate) directory: Bytes,
    pub(crate) name: Bytes,
}

/// The directory and the name that a word stands for.
pub(crate) fn target_of(alloc: Global, word: &[u8]) -> Result<Target, OutOfMemory>
    ensures directory { IfOk result (λ target. target.directory ≡ directory_text word.now) }
    ensures name { IfOk result (λ target. target.name ≡ name_text word.now) }
    ensures places { IfOk result (λ target. IsPlace target.directory) }
    ensures place { IfOk result (λ target. IsPlace target.name) }
{
    let mut text = Bytes::new(alloc);
    let name = put_directory(alloc, &mut text, word)?;
    let last = text_of(alloc, name)?;
    Ok(Target {
        directory: placed(alloc, text)?,
        name: placed(alloc, last)?,
    })
}
