//! The lines of a script.
use afp_base::{Bytes, OutOfMemory};
use client_script_lines::{LineFault, ScriptLine, read_line};
use std::alloc::Global;
use test_lines::lines::{LineResult, bytes_of, digits_of};

/// Appends a word as it stands in the line.
fn put_word(alloc: Global, text: &mut String, word: &Bytes) -> Result<(), OutOfMemory> {
    text.push(' ')?;
    match str::from_utf8(word.as_slice()) {
        Ok(word) => text.push_str(word)?,
        Err(_) => text.push_str(digits_of(alloc, word.as_slice())?.as_str())?,
    }
    Ok(())
}

/// The command, and its words.
fn told(alloc: Global, command: &str, words: &[&Bytes]) -> Result<LineResult, OutOfMemory> {
    let mut text = String::from_str(alloc, command)?;
    for word in words {
        put_word(alloc, &mut text, word)?;
    }
    Ok(LineResult::Text(text))
}

/// What a line of two words or three says.
fn told_line(alloc: Global, line: &ScriptLine) -> Result<LineResult, OutOfMemory> {
    match line {
        ScriptLine::Mount { volume } => told(alloc, "mount", &[volume]),
        ScriptLine::Mkdir { path } => told(alloc, "mkdir", &[path]),
        ScriptLine::Put { path, piece } => told(alloc, "put", &[path, piece]),
        ScriptLine::Get { path } => told(alloc, "get", &[path]),
        ScriptLine::Ls { path } => told(alloc, "ls", &[path]),
        ScriptLine::Mv { path, target } => told(alloc, "mv", &[path, target]),
        ScriptLine::Cp { path, target } => told(alloc, "cp", &[path, target]),
        ScriptLine::Swap { path, target } => told(alloc, "swap", &[path, target]),
        ScriptLine::Rm { path } => told(alloc, "rm", &[path]),
        other => told_other(alloc, other),
    }
}

/// What another line says.
fn told_other(alloc: Global, line: &ScriptLine) -> Result<LineResult, OutOfMemory> {
    match line {
        ScriptLine::Hold { path } => told(alloc, "hold", &[path]),
        ScriptLine::Lock {
            reference,
            from,
            length,
        } => told(alloc, "lock", &[reference, from, length]),
        ScriptLine::Unlock {
            reference,
            from,
            length,
        } => told(alloc, "unlock", &[reference, from, length]),
        ScriptLine::Drop { reference } => told(alloc, "drop", &[reference]),
        ScriptLine::Id { path } => told(alloc, "id", &[path]),
        ScriptLine::Find { id } => told(alloc, "find", &[id]),
        ScriptLine::Note { path, text } => told(alloc, "note", &[path, text]),
        ScriptLine::Show { path } => told(alloc, "show", &[path]),
        ScriptLine::Pack { path } => told(alloc, "pack", &[path]),
        ScriptLine::Unpack { path, piece } => told(alloc, "unpack", &[path, piece]),
        ScriptLine::Bye => told(alloc, "bye", &[]),
        _ => Ok(LineResult::Nothing),
    }
}

fn read(alloc: Global, line: &[u8]) -> Result<Option<LineResult>, OutOfMemory> {
    match read_line(alloc, line) {
        Ok(read) => Ok(Some(told_line(alloc, &read)?)),
        Err(LineFault::Bad) => Ok(Some(LineResult::Word("bad"))),
        Err(LineFault::Memory) => Err(OutOfMemory),
    }
}

/// `script WORD..`.
pub fn script(alloc: Global, words: &[&str]) -> Result<Option<LineResult>, OutOfMemory> {
    let mut line = Bytes::new(alloc);
    for (index, word) in words.iter().skip(1).enumerate() {
        if index > 0 {
            line.extend(b" ")?;
        }
        line.extend(word.as_bytes())?;
    }
    read(alloc, line.as_slice())
}

/// `line BYTES`.
pub fn line(alloc: Global, words: &[&str]) -> Result<Option<LineResult>, OutOfMemory> {
    let [_, bytes] = words else {
        return Ok(None);
    };
    read(alloc, bytes_of(alloc, bytes).as_slice())
}
