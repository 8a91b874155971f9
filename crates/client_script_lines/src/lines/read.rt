//! A line, read.
ghost use Rattle.std.specs.Prelude.{◌≡◌, List, ℕ, None, Some, IfOk, if◌then◌else◌, Err};
ghost use Rattle.client_script_lines.specs.declared.lines.line.LineFault.{LineFault};
ghost use Rattle.client_script_lines.specs.declared.lines.line.ScriptLine.TheVariants as lines;
ghost use Rattle.client_script_lines.specs.lines.Lines.{path_in, target_in, bytes_in, hex_in, text_in, number_in, first, rest, moves_in, put_in, note_in, unpack_in, range_in, path_line, headed, line_in};

use crate::lines::element::{is_bytes, is_deep_path, is_hex, is_path, is_text};
use crate::lines::limits::{LAST_ID, LAST_PLACE, LAST_REFERENCE, LONGEST_LINE};
use crate::lines::line::{LineFault, ScriptLine};
use afp_base::{Bytes, OutOfMemory};
use line_words::{first_word, padded_number};
use std::alloc::Global;

/// The word, where it has its form.
fn word_if(alloc: Global, fits: bool, word: &[u8]) -> Result<Option<Bytes>, OutOfMemory>
    ensures { IfOk result (λ found. found ≡ (if fits then Some word.now else None)) }
{
    if fits {
        Ok(Some(Bytes::of(alloc, word)?))
    } else {
        Ok(None)
    }
}

fn path(alloc: Global, word: &[u8]) -> Result<Option<Bytes>, OutOfMemory>
    ensures { IfOk result (λ found. found ≡ path_in word.now) }
{
    word_if(alloc, is_path(alloc, word)?, word)
}

fn target(alloc: Global, word: &[u8]) -> Result<Option<Bytes>, OutOfMemory>
    ensures { IfOk result (λ found. found ≡ target_in word.now) }
{
    word_if(alloc, is_deep_path(alloc, word)?, word)
}

fn piece(alloc: Global, word: &[u8]) -> Result<Option<Bytes>, OutOfMemory>
    ensures { IfOk result (λ found. found ≡ bytes_in word.now) }
{
    word_if(alloc, is_bytes(alloc, word)?, word)
}

fn digits(alloc: Global, word: &[u8]) -> Result<Option<Bytes>, OutOfMemory>
    ensures { IfOk result (λ found. found ≡ hex_in word.now) }
{
    word_if(alloc, is_hex(alloc, word)?, word)
}

fn volume(alloc: Global, word: &[u8]) -> Result<Option<Bytes>, OutOfMemory>
    ensures { IfOk result (λ found. found ≡ text_in word.now) }
{
    word_if(alloc, is_text(alloc, word)?, word)
}

fn text(alloc: Global, word: &[u8]) -> Result<Option<Bytes>, OutOfMemory>
    ensures { IfOk result (λ found. found ≡ text_in word.now) }
{
    word_if(alloc, is_text(alloc, word)?, word)
}

/// A number of at most so much.
fn number(alloc: Global, word: &[u8], most: u64) -> Result<Option<Bytes>, OutOfMemory>
    ensures { IfOk result (λ found. found ≡ number_in most word.now) }
{
    word_if(alloc, padded_number(word, most).is_some(), word)
}

/// A path, and a target.
#[derive(Drop)]
struct Moves {
    path: Bytes,
    target: Bytes,
}

fn path_and_target(alloc: Global, text: &[u8]) -> Result<Option<Moves>, OutOfMemory>
    ensures { IfOk result (λ found. found ≡ moves_in text.now) }
{
    let (word, more) = first_word(text);
    let Some(path) = path(alloc, word)? else {
        return Ok(None);
    };
    match target(alloc, more)? {
        Some(target) => Ok(Some(Moves { path, target })),
        None => Ok(None),
    }
}

fn put(alloc: Global, text: &[u8]) -> Result<Option<ScriptLine>, OutOfMemory>
    ensures { IfOk result (λ line. line ≡ put_in text.now) }
{
    let (word, more) = first_word(text);
    let Some(path) = path(alloc, word)? else {
        return Ok(None);
    };
    match piece(alloc, more)? {
        Some(piece) => Ok(Some(ScriptLine::Put { path, piece })),
        None => Ok(None),
    }
}

fn note(alloc: Global, line: &[u8]) -> Result<Option<ScriptLine>, OutOfMemory>
    ensures { IfOk result (λ found. found ≡ note_in line.now) }
{
    let (word, more) = first_word(line);
    let Some(path) = path(alloc, word)? else {
        return Ok(None);
    };
    match text(alloc, more)? {
        Some(text) => Ok(Some(ScriptLine::Note { path, text })),
        None => Ok(None),
    }
}

fn unpack(alloc: Global, text: &[u8]) -> Result<Option<ScriptLine>, OutOfMemory>
    ensures { IfOk result (λ line. line ≡ unpack_in text.now) }
{
    let (word, more) = first_word(text);
    let Some(path) = path(alloc, word)? else {
        return Ok(None);
    };
    match digits(alloc, more)? {
        Some(piece) => Ok(Some(ScriptLine::Unpack { path, piece })),
        None => Ok(None),
    }
}

/// A range of a fork.
#[derive(Drop)]
struct Range {
    reference: Bytes,
    from: Bytes,
    size: Bytes,
}

fn reference_and_sizes(alloc: Global, text: &[u8]) -> Result<Option<Range>, OutOfMemory>
    ensures { IfOk result (λ found. found ≡ range_in text.now) }
{
    let (word, more) = first_word(text);
    let Some(reference) = number(alloc, word, LAST_REFERENCE)? else {
        return Ok(None);
    };
    let (word, more) = first_word(more);
    let Some(from) = number(alloc, word, LAST_PLACE)? else {
        return Ok(None);
    };
    match number(alloc, more, LAST_PLACE)? {
        Some(size) => Ok(Some(Range {
            reference,
            from,
            size,
        })),
        None => Ok(None),
    }
}

/// A line of a command and a path.
fn path_line(alloc: Global, word: &[u8], text: &[u8]) -> Result<Option<ScriptLine>, OutOfMemory>
    ensures { IfOk result (λ line. line ≡ path_line word.now text.now) }
{
    if word == b"mkdir".as_slice() {
        return Ok(path(alloc, text)?.map(|path| ScriptLine::Mkdir { path }));
    }
    if word == b"get".as_slice() {
        return Ok(path(alloc, text)?.map(|path| ScriptLine::Get { path }));
    }
    if word == b"ls".as_slice() {
        return Ok(path(alloc, text)?.map(|path| ScriptLine::Ls { path }));
    }
    if word == b"rm".as_slice() {
        return Ok(path(alloc, text)?.map(|path| ScriptLine::Rm { path }));
    }
    if word == b"hold".as_slice() {
        return Ok(path(alloc, text)?.map(|path| ScriptLine::Hold { path }));
    }
    if word == b"id".as_slice() {
        return Ok(path(alloc, text)?.map(|path| ScriptLine::Id { path }));
    }
    if word == b"show".as_slice() {
        return Ok(path(alloc, text)?.map(|path| ScriptLine::Show { path }));
    }
    if word == b"pack".as_slice() {
        return Ok(path(alloc, text)?.map(|path| ScriptLine::Pack { path }));
    }
    Ok(None)
}

fn moved(two: Moves) -> ScriptLine
    ensures { result ≡ lines.Mv two.path two.target }
{
    ScriptLine::Mv {
        path: two.path,
        target: two.target,
    }
}

fn copied(two: Moves) -> ScriptLine
    ensures { result ≡ lines.Cp two.path two.target }
{
    ScriptLine::Cp {
        path: two.path,
        target: two.target,
    }
}

fn swapped(two: Moves) -> ScriptLine
    ensures { result ≡ lines.Swap two.path two.target }
{
    ScriptLine::Swap {
        path: two.path,
        target: two.target,
    }
}

fn locked(range: Range) -> ScriptLine
    ensures { result ≡ lines.Lock range.reference range.from range.size }
{
    ScriptLine::Lock {
        reference: range.reference,
        from: range.from,
        length: range.size,
    }
}

fn unlocked(range: Range) -> ScriptLine
    ensures { result ≡ lines.Unlock range.reference range.from range.size }
{
    ScriptLine::Unlock {
        reference: range.reference,
        from: range.from,
        length: range.size,
    }
}

/// A line that begins with this word.
fn headed(alloc: Global, word: &[u8], text: &[u8]) -> Result<Option<ScriptLine>, OutOfMemory>
    ensures { IfOk result (λ line. line ≡ headed word.now text.now) }
{
    if word == b"mount".as_slice() {
        return Ok(volume(alloc, text)?.map(|volume| ScriptLine::Mount { volume }));
    }
    if word == b"put".as_slice() {
        return put(alloc, text);
    }
    if word == b"mv".as_slice() {
        return Ok(path_and_target(alloc, text)?.map(moved));
    }
    if word == b"cp".as_slice() {
        return Ok(path_and_target(alloc, text)?.map(copied));
    }
    if word == b"swap".as_slice() {
        return Ok(path_and_target(alloc, text)?.map(swapped));
    }
    if word == b"lock".as_slice() {
        return Ok(reference_and_sizes(alloc, text)?.map(locked));
    }
    if word == b"unlock".as_slice() {
        return Ok(reference_and_sizes(alloc, text)?.map(unlocked));
    }
    if word == b"drop".as_slice() {
        return Ok(number(alloc, text, LAST_REFERENCE)?.map(|reference| ScriptLine::Drop {
            reference,
        }));
    }
    if word == b"find".as_slice() {
        return Ok(number(alloc, text, LAST_ID)?.map(|id| ScriptLine::Find { id }));
    }
    if word == b"note".as_slice() {
        return note(alloc, text);
    }
    if word == b"unpack".as_slice() {
        return unpack(alloc, text);
    }
    path_line(alloc, word, text)
}

/// What a line says, without its newline; `None` where it has none of the forms, or is too long.
fn found_in(alloc: Global, line: &[u8]) -> Result<Option<ScriptLine>, OutOfMemory>
    ensures { IfOk result (λ found. found ≡ line_in line.now) }
{
    if line.len() > LONGEST_LINE {
        return Ok(None);
    }
    if line == b"bye".as_slice() {
        return Ok(Some(ScriptLine::Bye));
    }
    let (word, text) = first_word(line);
    headed(alloc, word, text)
}

/// What a line of a script says, without its newline. It is bad where it has none of the forms.
pub fn read_line(alloc: Global, line: &[u8]) -> Result<ScriptLine, LineFault>
    ensures line { IfOk result (λ read. line_in line.now ≡ Some read) }
    ensures bad { result ≡ Err LineFault.Bad → line_in line.now ≡ None }
{
    match found_in(alloc, line)? {
        Some(read) => Ok(read),
        None => Err(LineFault::Bad),
    }
}
