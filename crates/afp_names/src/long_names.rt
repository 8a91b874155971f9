//! Long names, for clients that name nodes in at most 31 bytes.
ghost use Rattle.std.specs.Prelude.{◌≡◌, ◌≤◌, ◌-◌, ◌&&◌, nat_lt, drop, [], if◌then◌else◌, ◌++◌, map, chars, true, not, length, string_bytes, OnOk, OnErr, IfOk, IfSome, IfNone, is_some, slice_index, ◌<◌, ◌+◌, ◌==◌};
ghost use Rattle.std.specs.List.{list_all, suffix_len};
ghost use Rattle.std.specs.Char.{is_ascii_alphanumeric};
ghost use Rattle.std.specs.Fmt.{digits};
ghost use Rattle.std.specs.Str.{IsAscii};
ghost use Rattle.unicode_normalization.specs.Forms.{nfc};
ghost use Rattle.afp_base.specs.Appended.{Keeps};
ghost use Rattle.afp_names.specs.MacRoman.{mac_roman_byte};
ghost use Rattle.afp_names.specs.LongName.{longest_long_name, full_stop, shown_byte, is_long_name, is_extension, extension_of, ending_of, shortened, long_name_of};

use crate::mac_roman::byte_of;
use crate::name::Name;
use afp_base::{Bytes, NodeId, OutOfMemory};
use std::alloc::Global;
use unicode_normalization::to_nfc;

/// The most bytes of a long name.
pub const LONGEST_LONG_NAME: usize = 31;

/// The most characters of an extension, without its `.`.
pub const LONGEST_EXTENSION: usize = 4;

/// The long name of the node with that name and id, in bytes of the character set of
/// [`crate::mac_roman`].
///
/// It is the name in Unicode's form C where the character set has each of its characters and it
/// has at most [`LONGEST_LONG_NAME`]. Else it is a stem, `#`, the id in upper-case hexadecimal, and
/// the name's extension, with `?` for each character that the character set lacks. The one error is want of memory.
#[tactic(auto, using(crate::proofs::LongNameLemmas::ascii_long_name))]
pub fn long_name(alloc: Global, name: &Name, id: NodeId) -> Result<Bytes, OutOfMemory>
    ensures name { IfOk result (λ long. long ≡ long_name_of name.now id.0) }
    ensures short { IfOk result (λ long. length long ≤ longest_long_name) }
{
    let text = name.as_str();
    if is_ascii_long_name(text) {
        return Bytes::of(alloc, text.as_bytes());
    }
    composed_long_name(alloc, name, id)
}

/// Whether the text is a long name as it stands, and ASCII: its bytes are then those of the long name.
fn is_ascii_long_name(text: &str) -> bool
    ensures ascii { result ≡ true → IsAscii text.now }
    ensures short { result ≡ true → length text.now ≤ longest_long_name }
{
    text.len() <= LONGEST_LONG_NAME && text.is_ascii()
}

/// The long name, by the characters of the name in form C.
fn composed_long_name(alloc: Global, name: &Name, id: NodeId) -> Result<Bytes, OutOfMemory>
    ensures name { IfOk result (λ long. long ≡ long_name_of name.now id.0) }
    ensures short { IfOk result (λ long. length long ≤ longest_long_name) }
{
    let text = composed(alloc, name)?;
    let mut long = Bytes::new(alloc);
    put_long_name(alloc, &mut long, &text, id)?;
    Ok(long)
}

/// Appends the text where it is a long name as it stands, else its shortened name.
fn put_long_name(
    alloc: Global,
    long: &mut Bytes,
    text: &[char],
    id: NodeId,
) -> Result<(), OutOfMemory>
    ensures { OnOk result (long.new ≡ long.old ++ (if is_long_name text.now then map shown_byte text.now else shortened text.now id.0)) }
{
    if is_long_name(text) {
        return put(long, text);
    }
    put_shortened(alloc, long, text, id)
}

/// The characters of the name in form C.
fn composed(alloc: Global, name: &Name) -> Result<Vec<char>, OutOfMemory>
    ensures { IfOk result (λ text. text.items ≡ nfc (chars name.now)) }
{
    let text = to_nfc(alloc, name.as_str())?;
    characters(alloc, text.as_str())
}

/// The characters of a text.
fn characters(alloc: Global, text: &str) -> Result<Vec<char>, OutOfMemory>
    ensures { IfOk result (λ characters. characters.items ≡ chars text.now) }
{
    Ok(text.chars().collect(alloc)?)
}

/// Whether the text is a long name as it stands.
#[tactic(auto, unfolding(crate::specs::LongName::is_long_name))]
fn is_long_name(text: &[char]) -> bool
    ensures { result ≡ is_long_name text.now }
{
    text.len() <= LONGEST_LONG_NAME && has_all(text)
}

/// Whether the character set has each character.
fn has_all(text: &[char]) -> bool
    ensures { result ≡ list_all (λ c. is_some (mac_roman_byte c)) text.now }
{
    text.iter().all(|c| byte_of(*c).is_some())
}

/// Appends a text in the character set of [`crate::mac_roman`], with `?` for each character that it lacks. After an
/// error what stood in `bytes` stands there still, in front. The one error is want of memory.
pub fn put_shown(alloc: Global, bytes: &mut Bytes, text: &str) -> Result<(), OutOfMemory>
    ensures ok { OnOk result (bytes.new ≡ bytes.old ++ map shown_byte (chars text.now)) }
    ensures err { OnErr result (Keeps bytes.old bytes.new) }
{
    put(bytes, &characters(alloc, text)?)
}

/// Appends the text's bytes.
fn put(long: &mut Bytes, text: &[char]) -> Result<(), OutOfMemory>
    ensures ok { OnOk result (long.new ≡ long.old ++ map shown_byte text.now) }
    ensures err { OnErr result (Keeps long.old long.new) }
{
    for character in text {
        long.extend(&[shown_byte(*character)])?;
    }
    Ok(())
}

/// The byte of a character, or `?` where the character set has none.
#[tactic(auto, unfolding(crate::specs::LongName::shown_byte))]
fn shown_byte(character: char) -> u8
    ensures { result ≡ shown_byte character }
{
    byte_of(character).unwrap_or(b'?')
}

/// Appends the shortened name.
fn put_shortened(
    alloc: Global,
    long: &mut Bytes,
    text: &[char],
    id: NodeId,
) -> Result<(), OutOfMemory>
    ensures { OnOk result (long.new ≡ long.old ++ shortened text.now id.0) }
{
    let ending = ending(alloc, text, id)?;
    let stem = &text[..text.len() - extension(text).len()];
    let room = LONGEST_LONG_NAME - ending.as_slice().len();
    put(long, &stem[..room.min(stem.len())])?;
    long.extend(ending.as_slice())?;
    Ok(())
}

/// What follows the stem: `#`, the id, and the extension.
fn ending(alloc: Global, text: &[char], id: NodeId) -> Result<Bytes, OutOfMemory>
    ensures bytes { IfOk result (λ ending. ending ≡ ending_of text.now id.0) }
    ensures short { IfOk result (λ ending. length ending ≤ longest_long_name) }
{
    let mut ending = Bytes::new(alloc);
    ending.extend(b"#")?;
    ending.extend(hexadecimal(alloc, id)?.as_bytes())?;
    put(&mut ending, extension(text))?;
    Ok(ending)
}

/// The id in upper-case hexadecimal, with no leading zero.
fn hexadecimal(alloc: Global, id: NodeId) -> Result<String, OutOfMemory>
    ensures { IfOk result (λ text. string_bytes text ≡ digits 16 true id.0) }
{
    let number = id.0;
    Ok(format!(in alloc; "{number:X}")?)
}

/// The extension with its `.`; nothing where the text has none.
fn extension(text: &[char]) -> &[char]
    ensures { result.now ≡ extension_of text.now }
{
    match last_dot(text) {
        Some(dot) => extension_at(text, dot),
        None => &text[..0],
    }
}

/// What begins at a `.`, where it is an extension and something stands before it; else nothing.
fn extension_at(text: &[char], dot: usize) -> &[char]
    requires { dot < length text.now }
    ensures { result.now ≡ (if nat_lt 0 dot && is_extension (drop (dot + 1) text.now) then drop dot text.now else []) }
{
    if dot > 0 && is_extension(&text[dot + 1..]) {
        &text[dot..]
    } else {
        &text[..0]
    }
}

/// Whether these are 1 to [`LONGEST_EXTENSION`] ASCII letters or digits.
#[tactic(auto, unfolding(crate::specs::LongName::is_extension))]
fn is_extension(behind: &[char]) -> bool
    ensures { result ≡ is_extension behind.now }
{
    !behind.is_empty() && behind.len() <= LONGEST_EXTENSION && are_alphanumeric(behind)
}

fn are_alphanumeric(text: &[char]) -> bool
    ensures { result ≡ list_all is_ascii_alphanumeric text.now }
{
    text.iter().all(|c| c.is_ascii_alphanumeric())
}

/// The place of the last `.`.
fn last_dot(text: &[char]) -> Option<usize>
    ensures none { IfNone result (suffix_len (λ c. not (c == full_stop)) text.now ≡ length text.now) }
    ensures some { IfSome result (λ dot. (dot < length text.now) × (suffix_len (λ c. not (c == full_stop)) text.now ≡ length text.now - (dot + 1))) }
    ensures dot { IfSome result (λ dot. slice_index text.now dot ≡ full_stop) }
{
    let mut dot = None;
    for (i, c) in text.iter().enumerate() {
        if *c == '.' {
            dot = Some(i);
        }
    }
    dot
}
