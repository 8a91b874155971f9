//! Which word of the command line is wrong, why, and what to write instead.

use crate::client::{is_login, matches_in};
use afp_base::OutOfMemory;
use capture_made::MOST_STEPS;
use clap::ArgMatches;
use clap::error::ErrorKind;
use line_words::padded_number;
use std::alloc::Global;

/// What stands under each text.
const USAGE: &str = "\
usage: afptool client [--user NAME:PASSWORD] HOST[:PORT] < SCRIPT
       afptool replay < CAPTURE
       afptool check < BYTES
       afptool parcel < FILE
       afptool make N K
       afptool tally N K
       afptool drill N K
afptool --help says what each does.
";

/// Appends what is wrong with a number of calls, or with the number before it.
fn put_numbers(
    text: &mut String,
    name: &str,
    number: &str,
    steps: &str,
) -> Result<(), OutOfMemory> {
    if padded_number(number.as_bytes(), u64::MAX).is_none() {
        write!(
            text,
            "error: '{number}', the N of {name}, is no number in decimal digits below 2^64\n"
        )?;
    }
    if padded_number(steps.as_bytes(), u64::from(MOST_STEPS)).is_none() {
        write!(
            text,
            "error: '{steps}', the K of {name}, is no number in decimal digits of at most {MOST_STEPS}\n"
        )?;
    }
    Ok(())
}

/// Appends what is wrong with the words behind a command that takes two numbers.
fn put_made(text: &mut String, name: &str, words: &[String]) -> Result<(), OutOfMemory> {
    match words {
        [number, steps] => put_numbers(text, name, number.as_str(), steps.as_str()),
        [_, _, word, ..] => {
            write!(
                text,
                "error: '{word}' is one word too many: {name} takes N and K alone\n"
            )?;
            Ok(())
        }
        _ => {
            write!(
                text,
                "error: {name} takes two numbers, N and K, as in: afptool {name} 7 100\n"
            )?;
            Ok(())
        }
    }
}

/// Appends what is wrong with the words behind a command that takes none.
fn put_bare(text: &mut String, name: &str, words: &[String]) -> Result<(), OutOfMemory> {
    if let [word, ..] = words {
        write!(
            text,
            "error: '{word}' is one word too many: {name} reads standard input, as in: afptool {name} < FILE\n"
        )?;
    }
    Ok(())
}

/// Appends what is wrong with a user.
fn put_user(text: &mut String, user: &str) -> Result<(), OutOfMemory> {
    let name = user.split_once(':').map_or(user, |parts| parts.0);
    if !user.contains(':') {
        text.push_str(
            "error: what stands behind --user has no ':', which parts a name from its password, as in --user ann:secret\n",
        )?;
    } else if is_login(name) {
        text.push_str("error: the password behind --user has more than 8 bytes\n")?;
    } else {
        write!(
            text,
            "error: '{name}', the name behind --user, is none of 1 to 31 printable ASCII characters\n"
        )?;
    }
    Ok(())
}

/// Appends what is wrong with words of `client` that its command takes.
fn put_values(text: &mut String, matches: &ArgMatches<'_>) -> Result<(), OutOfMemory> {
    match matches.get_str("user") {
        Some(user) => put_user(text, user),
        None => Ok(()),
    }
}

/// Appends what is wrong with the words behind `client`.
fn put_client(alloc: Global, text: &mut String, words: &[String]) -> Result<(), OutOfMemory> {
    match matches_in(alloc, words) {
        Ok(matches) => put_values(text, &matches),
        Err(error) if error.kind() == ErrorKind::MissingRequiredArgument => {
            text.push_str(
                "error: the server's address is missing: client takes HOST or HOST:PORT, as in: afptool client localhost:5548\n",
            )?;
            Ok(())
        }
        Err(error) => {
            let said = format!(in alloc; "{error}")?;
            match said.as_str().split_once('\n') {
                Some((first, _)) => write!(text, "{first}\n")?,
                None => write!(text, "{said}\n")?,
            }
            Ok(())
        }
    }
}

/// Appends what is wrong with the words.
fn put_fault(alloc: Global, text: &mut String, words: &[String]) -> Result<(), OutOfMemory> {
    let [first, rest @ ..] = words else {
        return Ok(());
    };
    match first.as_str() {
        "client" => put_client(alloc, text, rest),
        "replay" | "check" | "parcel" => put_bare(text, first.as_str(), rest),
        "make" | "tally" | "drill" => put_made(text, first.as_str(), rest),
        other => {
            write!(text, "error: '{other}' is no command of afptool\n")?;
            Ok(())
        }
    }
}

/// What a person is told of words that ask nothing, in lines: which word is wrong and why, and the usage.
pub fn explain_words(alloc: Global, words: &[String]) -> Result<String, OutOfMemory> {
    let mut text = String::new(alloc);
    put_fault(alloc, &mut text, words)?;
    text.push_str(USAGE)?;
    Ok(text)
}
