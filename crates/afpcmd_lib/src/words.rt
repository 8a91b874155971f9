//! What the words of the command line say.
ghost use Rattle.std.specs.Prelude.{◌≡◌, ◌≢◌, ◌||◌, [], map, option_map, Some, IfOk, IsErrOf, codes};
ghost use Rattle.std.specs.String.{string_bytes};
ghost use Rattle.clap.specs.Simple.{matches_of};
ghost use Rattle.clap.specs.Walk.{all_of, first_of, rows_of};
ghost use Rattle.clap.specs.Words.{fault_of, found_of, kind_of};
ghost use Rattle.afpcmd_lib.specs.Command.{client_app};
ghost use Rattle.afpcmd_lib.specs.Words.{IsSaid, is_set};

use crate::command::matches_in;
use crate::place::{Place, is_url, read_place};
use afp_base::OutOfMemory;
use clap::error::ErrorKind;
use clap::{ArgMatches, Error};
use std::alloc::Global;

/// How a command is done.
#[derive(Clone, Copy, Debug, PartialEq, Eq)]
pub struct Flags {
    /// With sizes and dates.
    pub long: bool,
    /// A folder and all in it.
    pub deep: bool,
    /// It goes on where a copy stopped.
    pub go_on: bool,
}

/// What the words say: as whom, the port, the password's file, the commands' file, for how many seconds a server that is away is dialled,
/// whether no progress is shown, how a command is done, and its words, or a server alone.
#[derive(Drop)]
pub struct Words<'a> {
    pub user: Option<&'a str>,
    pub port: Option<&'a str>,
    pub password_file: Option<&'a str>,
    pub batch: Option<&'a str>,
    pub wait: Option<&'a str>,
    pub quiet: bool,
    pub flags: Flags,
    pub words: Vec<&'a str>,
}

/// Why the words say nothing.
#[derive(Clone, Copy, Debug, PartialEq, Eq)]
pub enum WordFault {
    /// They are not the words of the command line.
    Bad,
    /// There was no memory.
    Memory,
}

/// What a person is told of words that say nothing, and whether they asked for it, as by `--help`.
#[derive(Drop)]
pub struct Explained {
    pub text: String,
    pub asked: bool,
}

/// Examples, which stand behind the help.
const EXAMPLES: &str = "
Examples:
  afpcmd --user ann mac.local                          reads commands: a prompt on a terminal
  afpcmd ls -l afp://ann@mac.local/Share/letters       lists a folder
  afpcmd get -r afp://ann@mac.local/Share/letters .    fetches a folder and all in it
  afpcmd put report.pdf afp://ann@mac.local/Share/     puts a file
The password is AFPCMD_PASSWORD, or the first line of --password-file's FILE.
";

/// The value of a name.
fn value_in<'a>(matches: &ArgMatches<'a>, name: &str) -> Option<&'a str>
    ensures { option_map (λ text. text.now) result ≡ first_of name.now (rows_of (found_of matches.now)) }
{
    matches.get_str(name)
}

/// Whether a letter stands there.
fn is_set(matches: &ArgMatches<'_>, name: &str) -> bool
    ensures { result ≡ is_set name.now (rows_of (found_of matches.now)) }
{
    matches.get_count(name) > 0
}

/// How a command is done.
fn flags_in(matches: &ArgMatches<'_>) -> Flags
    ensures long { result.long ≡ is_set (codes "long") (rows_of (found_of matches.now)) }
    ensures deep { result.deep ≡ (is_set (codes "deep") (rows_of (found_of matches.now)) || is_set (codes "all") (rows_of (found_of matches.now))) }
    ensures go_on { result.go_on ≡ is_set (codes "go-on") (rows_of (found_of matches.now)) }
{
    Flags {
        long: is_set(matches, "long"),
        deep: is_set(matches, "deep") || is_set(matches, "all"),
        go_on: is_set(matches, "go-on"),
    }
}

/// The words of the command, lent.
fn lent_in<'m, 'a>(matches: &'m ArgMatches<'a>) -> Option<&'m [&'a str]>
    ensures { option_map (λ words. map (λ word. word.now) words.now) result ≡ all_of (codes "words") (rows_of (found_of matches.now)) }
{
    matches.get_strs("words")
}

/// A copy of these words.
fn copied<'a>(alloc: Global, words: &[&'a str]) -> Result<Vec<&'a str>, WordFault>
    ensures { IfOk result (λ found. map (λ word. word.now) found.items ≡ map (λ word. word.now) words.now) }
{
    match Vec::from_slice(alloc, words) {
        Ok(found) => Ok(found),
        Err(_) => Err(WordFault::Memory),
    }
}

/// The words of the command.
fn words_in<'a>(alloc: Global, matches: &ArgMatches<'a>) -> Result<Vec<&'a str>, WordFault>
    ensures { IfOk result (λ found. all_of (codes "words") (rows_of (found_of matches.now)) ≡ Some (map (λ word. word.now) found.items)) }
{
    match lent_in(matches) {
        Some(words) => copied(alloc, words),
        None => Err(WordFault::Bad),
    }
}

/// What the matches say.
fn said_in<'a>(alloc: Global, matches: &ArgMatches<'a>) -> Result<Words<'a>, WordFault>
    ensures { IfOk result (λ said. IsSaid (rows_of (found_of matches.now)) said) }
{
    let words = words_in(alloc, matches)?;
    Ok(Words {
        user: value_in(matches, "user"),
        port: value_in(matches, "port"),
        password_file: value_in(matches, "password-file"),
        batch: value_in(matches, "batch"),
        wait: value_in(matches, "wait"),
        quiet: is_set(matches, "quiet"),
        flags: flags_in(matches),
        words,
    })
}

/// What an error of the command line comes to.
fn fault_of_error(error: &Error) -> WordFault
    ensures { result ≡ WordFault.Bad → kind_of error.now ≢ ErrorKind.OutOfMemory }
{
    match error.kind() {
        ErrorKind::OutOfMemory => WordFault::Memory,
        _ => WordFault::Bad,
    }
}

/// What the words behind the program's name say.
pub fn read_words<'a>(alloc: Global, words: &'a [String]) -> Result<Words<'a>, WordFault>
    ensures { IfOk result (λ said. IsSaid (matches_of client_app (map (λ word. string_bytes word) words.entry.now)) said) }
{
    match matches_in(alloc, words) {
        Ok(matches) => said_in(alloc, &matches),
        Err(error) => Err(fault_of_error(&error)),
    }
}

/// What is told of an error of the command line.
fn told_of(alloc: Global, error: &Error) -> Result<Explained, OutOfMemory> {
    let is_help = error.kind() == ErrorKind::DisplayHelp;
    let examples = if is_help { EXAMPLES } else { "" };
    Ok(Explained {
        text: format!(in alloc; "{error}{examples}")?,
        asked: is_help || error.kind() == ErrorKind::DisplayVersion,
    })
}

/// What a person is told of words that say nothing, or that ask for help.
pub fn explain(alloc: Global, words: &[String]) -> Result<Option<Explained>, OutOfMemory> {
    match matches_in(alloc, words) {
        Ok(_) => Ok(None),
        Err(error) => {
            let told = told_of(alloc, &error)?;
            Ok(Some(told))
        }
    }
}

/// The place that the words name: the first that is an `afp://` one, or the one word.
pub fn place_in(alloc: Global, words: &[&str]) -> Result<Option<Place>, OutOfMemory> {
    for word in words {
        if is_url(word) {
            return read_place(alloc, word);
        }
    }
    match words {
        [word] => read_place(alloc, word),
        _ => Ok(None),
    }
}

/// A word of a command: of an `afp://` one its path, from above the volumes.
fn command_word(alloc: Global, word: &str) -> Result<Option<String>, OutOfMemory> {
    if !is_url(word) {
        return Ok(Some(String::from_str(alloc, word)?));
    }
    match read_place(alloc, word)? {
        Some(place) => {
            let path = place.path.as_str();
            Ok(Some(format!(in alloc; "/{path}")?))
        }
        None => Ok(None),
    }
}

/// The words of a command, with paths in place of `afp://` words; none where one of these says no place.
pub fn command_words(alloc: Global, words: &[&str]) -> Result<Option<Vec<String>>, OutOfMemory> {
    let mut found = Vec::new(alloc);
    for word in words {
        match command_word(alloc, word)? {
            Some(word) => found.push(word)?,
            None => return Ok(None),
        }
    }
    Ok(Some(found))
}
