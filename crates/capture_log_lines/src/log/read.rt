//! A line, read.
ghost use Rattle.std.specs.Prelude.{◌≡◌, ◌≤◌, length, IfOk};
ghost use Rattle.capture_log_lines.specs.log.Lines.{filled, name_in, user_in, headed, line_in};

use crate::log::event::event;
use crate::log::limits::LONGEST_LINE;
use crate::log::line::Line;
use afp_base::{Bytes, OutOfMemory};
use line_words::{first_word, has_byte, hex_array, is_ascii, is_word, parts_at};
use std::alloc::Global;

/// A name: one word.
fn name(alloc: Global, text: &[u8]) -> Result<Option<Bytes>, OutOfMemory>
    ensures { IfOk result (λ name. name ≡ name_in text.now) }
{
    if is_word(text) {
        Ok(Some(Bytes::of(alloc, text)?))
    } else {
        Ok(None)
    }
}

/// A password of at most 8 bytes, filled up with zero bytes.
fn filled(password: &[u8]) -> [u8; 8]
    requires { length password.now ≤ 8 }
    ensures { result ≡ filled password.now }
{
    let mut bytes = [0; 8];
    bytes[..password.len()].copy_from_slice(password);
    bytes
}

/// A name and a password.
fn user(alloc: Global, text: &[u8]) -> Result<Option<Line>, OutOfMemory>
    ensures { IfOk result (λ line. line ≡ user_in text.now) }
{
    if !is_word(text) || !has_byte(text, b':') {
        return Ok(None);
    }
    let (name, password) = parts_at(text, b':');
    if password.len() > 8 || !is_ascii(password) {
        return Ok(None);
    }
    let password = filled(password);
    Ok(Some(Line::User {
        name: Bytes::of(alloc, name)?,
        password,
    }))
}

/// A line that begins with this word.
fn headed(alloc: Global, word: &[u8], rest: &[u8]) -> Result<Option<Line>, OutOfMemory>
    ensures { IfOk result (λ line. line ≡ headed word.now rest.now) }
{
    if word == b"at".as_slice() {
        return event(alloc, rest);
    }
    if word == b"afp-capture".as_slice() {
        return Ok(if rest == b"1".as_slice() {
            Some(Line::Title)
        } else {
            None
        });
    }
    if word == b"server".as_slice() {
        return Ok(name(alloc, rest)?.map(Line::Server));
    }
    if word == b"signature".as_slice() {
        return Ok(hex_array(rest).map(Line::Signature));
    }
    if word == b"user".as_slice() {
        return user(alloc, rest);
    }
    if word == b"volume".as_slice() {
        return Ok(name(alloc, rest)?.map(Line::Volume));
    }
    if word == b"key".as_slice() {
        return Ok(hex_array(rest).map(Line::Key));
    }
    Ok(None)
}

/// What a line says, without its newline; none where it has none of the forms, or is too long.
pub fn read_line(alloc: Global, line: &[u8]) -> Result<Option<Line>, OutOfMemory>
    ensures { IfOk result (λ found. found ≡ line_in line.now) }
{
    if line.len() > LONGEST_LINE {
        return Ok(None);
    }
    if line == b"end".as_slice() {
        return Ok(Some(Line::End));
    }
    let (word, rest) = first_word(line);
    headed(alloc, word, rest)
}
