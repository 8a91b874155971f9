//! Why a line of a script is bad, and what was expected.

use afp_base::OutOfMemory;
use client_script_lines::LONGEST_LINE;
use std::alloc::Global;
use std::str;

/// All commands of a script.
const COMMANDS: &str =
    "mount, mkdir, put, get, ls, mv,\n  cp, swap, rm, hold, lock, unlock, drop, id, find, note, show, pack,\n  unpack, bye";

/// What stands behind a PATH.
const PATH: &str = "PATH is /, or names of 1 to 255 bytes from the root, parted by /";

/// The form of a command's line, and what its words are.
fn form_of(command: &str) -> Option<(&'static str, &'static str)> {
    match command {
        "mount" => Some(("mount VOLUME", "VOLUME has 1 to 255 bytes")),
        "mkdir" => Some(("mkdir PATH", PATH)),
        "put" => Some(("put PATH BYTES", PATH)),
        "get" => Some(("get PATH", PATH)),
        "ls" => Some(("ls PATH", PATH)),
        "mv" => Some((
            "mv PATH PATH",
            "the second PATH ends in the new name, so it is not /",
        )),
        "cp" => Some((
            "cp PATH PATH",
            "the second PATH ends in the new name, so it is not /",
        )),
        "swap" => Some(("swap PATH PATH", "the second PATH is not /")),
        "rm" => Some(("rm PATH", PATH)),
        "hold" => Some(("hold PATH", PATH)),
        "lock" => Some((
            "lock N FROM LENGTH",
            "N is a number below 65536, FROM and LENGTH are below 2^63",
        )),
        "unlock" => Some((
            "unlock N FROM LENGTH",
            "N is a number below 65536, FROM and LENGTH are below 2^63",
        )),
        "drop" => Some(("drop N", "N is a number below 65536")),
        "id" => Some(("id PATH", PATH)),
        "find" => Some(("find ID", "ID is a number below 2^32")),
        "note" => Some(("note PATH TEXT", "TEXT has 1 to 255 bytes")),
        "show" => Some(("show PATH", PATH)),
        "pack" => Some(("pack PATH", PATH)),
        "unpack" => Some((
            "unpack PATH HEX",
            "HEX is bytes, of two hexadecimal digits each",
        )),
        "bye" => Some(("bye", "nothing stands behind it")),
        _ => None,
    }
}

/// Appends what was expected in place of a line.
fn put_expected(text: &mut String, line: &str) -> Result<(), OutOfMemory> {
    if line.ends_with('\r') {
        text.push_str("  it ends with a carriage return; expected is a newline alone\n")?;
        return Ok(());
    }
    let command = line.split_once(' ').map_or(line, |parts| parts.0);
    match form_of(command) {
        Some((form, words)) => write!(
            text,
            "  expected: {form}\n  {words}; one space stands between words, and %20 for one within a word\n"
        )?,
        None => write!(text, "  expected at its beginning is one of {COMMANDS}\n")?,
    }
    Ok(())
}

/// What a person is told of a bad line of a script, by its number from 1, and its bytes without a newline, where they are known.
pub fn explain_line(
    alloc: Global,
    number: u64,
    line: Option<&[u8]>,
) -> Result<String, OutOfMemory> {
    let mut text = String::new(alloc);
    write!(text, "error: line {number} of the script")?;
    let Some(bytes) = line else {
        text.push_str(" has no form of a command\n")?;
        return Ok(text);
    };
    if bytes.len() > LONGEST_LINE {
        write!(text, " has more than {LONGEST_LINE} bytes\n")?;
        return Ok(text);
    }
    match str::from_utf8(bytes) {
        Ok("") => text.push_str(" is empty; expected is a command, and no line without one\n")?,
        Ok(line) => {
            write!(text, " is '{}'\n", line.trim_end())?;
            put_expected(&mut text, line)?;
        }
        Err(_) => text.push_str(" is not UTF-8; such a byte is written as %XX\n")?,
    }
    Ok(text)
}
