//! What happened on a connection.
ghost use Rattle.std.specs.Prelude.{◌≡◌, IfOk};
ghost use Rattle.std.specs.List.{before_first, after_first};
ghost use Rattle.capture_log_lines.specs.log.Lines.{link_in, bytes_in, what_in, moment_then, event_in};
ghost use Rattle.afp_base.specs.Limits.{last_moment};
ghost use Rattle.line_words.specs.Numbers.{number_in};
ghost use Rattle.line_words.specs.Words.{is_space};

use crate::log::limits::LAST_LINK;
use crate::log::line::{Line, What};
use afp_base::{Moment, OutOfMemory};
use line_words::{first_word, hex_bytes, number};
use std::alloc::Global;

/// The number of a connection.
fn link_of(word: &[u8]) -> Option<u32>
    ensures { result ≡ link_in word.now }
{
    if word == b"0".as_slice() {
        return None;
    }
    match number(word, u64::from(LAST_LINK)) {
        Some(link) => Some(link as u32),
        None => None,
    }
}

/// A moment.
fn moment_of(word: &[u8]) -> Option<Moment>
    ensures { result ≡ number_in last_moment word.now }
{
    match number(word, u64::from(Moment::LAST)) {
        Some(seconds) => Moment::new(seconds as u32),
        None => None,
    }
}

/// Bytes that came, or that were answered.
fn bytes_moved(alloc: Global, word: &[u8], rest: &[u8]) -> Result<Option<What>, OutOfMemory>
    ensures { IfOk result (λ what. what ≡ bytes_in word.now rest.now) }
{
    if word == b"in".as_slice() {
        return Ok(hex_bytes(alloc, rest)?.map(What::In));
    }
    if word == b"out".as_slice() {
        return Ok(hex_bytes(alloc, rest)?.map(What::Out));
    }
    Ok(None)
}

/// What happened.
fn what_of(alloc: Global, text: &[u8]) -> Result<Option<What>, OutOfMemory>
    ensures { IfOk result (λ what. what ≡ what_in text.now) }
{
    if text == b"quiet".as_slice() {
        return Ok(Some(What::Quiet));
    }
    if text == b"lost".as_slice() {
        return Ok(Some(What::Lost));
    }
    let (word, rest) = first_word(text);
    bytes_moved(alloc, word, rest)
}

/// What happened on this connection, behind the moment.
fn at_link(alloc: Global, link: u32, text: &[u8]) -> Result<Option<Line>, OutOfMemory>
    ensures { IfOk result (λ line. line ≡ moment_then link (number_in last_moment (before_first is_space text.now)) (after_first is_space text.now)) }
{
    let (word, rest) = first_word(text);
    match moment_of(word) {
        Some(moment) => Ok(what_of(alloc, rest)?.map(|what| Line::At { link, moment, what })),
        None => Ok(None),
    }
}

/// What happened at a moment on a connection.
pub fn event(alloc: Global, text: &[u8]) -> Result<Option<Line>, OutOfMemory>
    ensures { IfOk result (λ line. line ≡ event_in text.now) }
{
    let (word, rest) = first_word(text);
    match link_of(word) {
        Some(link) => at_link(alloc, link, rest),
        None => Ok(None),
    }
}
