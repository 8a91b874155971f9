//! The words of a line that a person types.
use crate::words::Flags;
use afp_base::OutOfMemory;
use std::alloc::Global;

/// What stands of a word.
#[derive(Drop)]
struct Reading {
    words: Vec<String>,
    word: String,
    is_open: bool,
    is_quoted: bool,
    is_escaped: bool,
}

/// Ends the word that stands, where one does.
fn end_word(alloc: Global, reading: &mut Reading) -> Result<(), OutOfMemory> {
    if reading.is_open {
        let word = String::from_str(alloc, reading.word.as_str())?;
        reading.words.push(word)?;
        reading.word.clear();
        reading.is_open = false;
    }
    Ok(())
}

/// Puts a letter that stands for itself.
fn put_letter(reading: &mut Reading, letter: char) -> Result<(), OutOfMemory> {
    reading.word.push(letter)?;
    reading.is_open = true;
    reading.is_escaped = false;
    Ok(())
}

/// Whether a letter parts words.
fn is_space(letter: char) -> bool {
    letter == ' ' || letter == '\t' || letter == '\r' || letter == '\n'
}

/// Reads a letter.
fn take_letter(alloc: Global, reading: &mut Reading, letter: char) -> Result<(), OutOfMemory> {
    if reading.is_escaped {
        return put_letter(reading, letter);
    }
    if letter == '\\' {
        reading.is_escaped = true;
        return Ok(());
    }
    if letter == '"' {
        reading.is_quoted = !reading.is_quoted;
        reading.is_open = true;
        return Ok(());
    }
    if is_space(letter) && !reading.is_quoted {
        return end_word(alloc, reading);
    }
    put_letter(reading, letter)
}

/// The words of a line: parted by spaces, a word with spaces in double quotes, a `\` before a letter that stands for itself.
pub(crate) fn words_of(alloc: Global, line: &str) -> Result<Vec<String>, OutOfMemory> {
    let mut reading = Reading {
        words: Vec::new(alloc),
        word: String::new(alloc),
        is_open: false,
        is_quoted: false,
        is_escaped: false,
    };
    for letter in line.chars() {
        take_letter(alloc, &mut reading, letter)?;
    }
    end_word(alloc, &mut reading)?;
    let Reading { words, .. } = reading;
    Ok(words)
}

/// Whether a word of a line says how a command is done.
fn is_flags(word: &str) -> bool {
    word.starts_with('-') && word.len() > 1
}

/// What these letters say beside those before them.
fn flags_with(flags: Flags, word: &str) -> Flags {
    Flags {
        long: flags.long || word.contains('l'),
        deep: flags.deep || word.contains('r') || word.contains('R'),
        go_on: flags.go_on || word.contains('c'),
    }
}

/// How a command is done, by the words behind its name that begin with `-`, and the others.
pub(crate) fn flags_and_words<'a>(
    alloc: Global,
    words: &'a [String],
) -> Result<(Flags, Vec<&'a str>), OutOfMemory> {
    let mut flags = Flags {
        long: false,
        deep: false,
        go_on: false,
    };
    let mut rest = Vec::new(alloc);
    for word in words {
        let word = word.as_str();
        if is_flags(word) {
            flags = flags_with(flags, word);
        } else {
            rest.push(word)?;
        }
    }
    Ok((flags, rest))
}
