//! What a person is told of words that say nothing.
ghost use Rattle.std.specs.Prelude.{◌≡◌, ◌⊎◌, List, map, true, None, IfOk, IfSome};
ghost use Rattle.std.specs.String.{string_bytes};
ghost use Rattle.clap.specs.Faults.{fault_of};
ghost use Rattle.clap.specs.Kinds.{IsAmong};
ghost use Rattle.clap.specs.Words.{kind_of};
ghost use Rattle.afpd_lib.specs.words.Command.{server_app};
ghost use Rattle.afpd_lib.specs.words.Words.{SaysWords, WordValues};

use crate::words::command::matches_in;
use crate::words::read::{WordFault, numbers_in, read_words, signature_in, users_in};
use afp_base::OutOfMemory;
use clap::error::ErrorKind;
use clap::{ArgMatches, Error};
use std::alloc::Global;

/// What a person is told, in lines; and whether they asked for it, as by `--help` or `--version`: then it is no mistake.
#[derive(Drop)]
pub struct Explained {
    pub text: String,
    pub asked: bool,
}

/// Whether help or the version was asked for.
fn is_asked(error: &Error) -> bool
    ensures { result ≡ true → (kind_of error.now ≡ ErrorKind.DisplayHelp) ⊎ (kind_of error.now ≡ ErrorKind.DisplayVersion) }
{
    error.kind() == ErrorKind::DisplayHelp || error.kind() == ErrorKind::DisplayVersion
}

/// Which value says nothing, of words that the command takes.
fn wrong_value(alloc: Global, matches: &ArgMatches<'_>) -> &'static str {
    if signature_in(matches).is_err() {
        return "error: --signature takes 32 hexadecimal digits\n";
    }
    if users_in(alloc, matches).is_err() {
        return "error: --users takes NAME:PASSWORD,.. with passwords of at most 8 bytes\n";
    }
    "error: a volume is NAME=PLACE, where PLACE is memory or the name of a file\n"
}

/// What is told of an error of the command.
fn told_of(alloc: Global, error: &Error) -> Result<Explained, OutOfMemory>
    ensures { IfOk result (λ told. told.asked ≡ true → (kind_of error.now ≡ ErrorKind.DisplayHelp) ⊎ (kind_of error.now ≡ ErrorKind.DisplayVersion)) }
{
    let text = format!(in alloc; "{error}")?;
    Ok(Explained {
        text,
        asked: is_asked(error),
    })
}

/// What is told of words that say nothing.
fn explain_bad(alloc: Global, words: &[String]) -> Result<Explained, OutOfMemory>
    ensures { IfOk result (λ told. told.asked ≡ true → IsAmong ErrorKind.DisplayHelp (fault_of server_app (map (λ word. string_bytes word) words.now)) ⊎ IsAmong ErrorKind.DisplayVersion (fault_of server_app (map (λ word. string_bytes word) words.now))) }
{
    match matches_in(alloc, words) {
        Err(error) => told_of(alloc, &error),
        Ok(matches) => {
            let text = String::from_str(alloc, wrong_value(alloc, &matches))?;
            Ok(Explained { text, asked: false })
        }
    }
}

/// What a person is told of the words: nothing exactly where they say what a server is to do.
pub fn explain(alloc: Global, words: &[String]) -> Result<Option<Explained>, OutOfMemory>
    ensures good { IfOk result (λ told. told ≡ None → (values : WordValues) × SaysWords (map (λ word. string_bytes word) words.now) values) }
    ensures bad { IfOk result (λ told. IfSome told (λ _. (values : WordValues) → SaysWords (map (λ word. string_bytes word) words.now) values → ⊥)) }
    ensures asked { IfOk result (λ told. IfSome told (λ e. e.asked ≡ true → IsAmong ErrorKind.DisplayHelp (fault_of server_app (map (λ word. string_bytes word) words.now)) ⊎ IsAmong ErrorKind.DisplayVersion (fault_of server_app (map (λ word. string_bytes word) words.now)))) }
{
    if let Err(fault) = read_words(alloc, words) {
        return match fault {
            WordFault::Memory => Err(OutOfMemory),
            WordFault::Bad => {
                let told = explain_bad(alloc, words)?;
                Ok(Some(told))
            }
        };
    }
    Ok(None)
}
