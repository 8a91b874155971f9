//! The command line, as `clap` reads it.
ghost use Rattle.std.specs.Prelude.{◌≡◌, IfOk, map, false};
ghost use Rattle.std.specs.String.{string_bytes};
ghost use Rattle.clap.specs.Simple.{matches_of};
ghost use Rattle.clap.specs.Words.{app_of, fault_of, found_of};
ghost use Rattle.clap.specs.Kinds.{FailsBy};
ghost use Rattle.clap.specs.Walk.{rows_of, rule_of};
ghost use Rattle.afpcmd_lib.specs.Command.{client_app, flag_rule, value_rule, wait_rule, words_rule};

use clap::builder::ValueParser;
use clap::{Arg, ArgAction, ArgMatches, Command, Error};
use std::alloc::{AllocError, Global};

/// The version that `--version` prints.
const VERSION: &str = "0.1";

/// An option with a value.
fn value<'a>(alloc: Global, name: &'a str, shown: &'a str, help: &'a str) -> Arg<'a>
    ensures rule { rule_of result ≡ value_rule name.entry.now }
    ensures local { result.global ≡ false }
{
    Arg::new(alloc, name)
        .long(name)
        .action(ArgAction::Set)
        .value_name(shown)
        .help(help)
}

/// For how long a server that is away is dialled.
fn wait<'a>(alloc: Global) -> Arg<'a>
    ensures rule { rule_of result ≡ wait_rule }
    ensures local { result.global ≡ false }
{
    Arg::new(alloc, "wait")
        .long("wait")
        .action(ArgAction::Set)
        .value_parser(ValueParser::Unsigned(0, 86_400))
        .value_name("S")
        .help("For how many seconds a server that is away is dialled; none: 60, once it was there")
}

/// A letter that says how a command is done.
fn flag<'a>(alloc: Global, name: &'a str, letter: char, help: &'a str) -> Arg<'a>
    ensures rule { rule_of result ≡ flag_rule name.entry.now letter }
    ensures local { result.global ≡ false }
{
    Arg::new(alloc, name)
        .short(letter)
        .action(ArgAction::Count)
        .help(help)
}

/// The words of the command.
fn words<'a>(alloc: Global) -> Arg<'a>
    ensures rule { rule_of result ≡ words_rule }
    ensures local { result.global ≡ false }
{
    Arg::new(alloc, "words")
        .action(ArgAction::Append)
        .required(true)
        .value_name("HOST, or VERB with afp://HOST/VOLUME/PATH")
        .help("A server, whose commands are then read; or one command (help lists them)")
}

/// The command line.
fn client_command<'a>(alloc: Global) -> Result<Command<'a>, AllocError>
    ensures { IfOk result (λ c. app_of c ≡ client_app) }
{
    let command = Command::new(alloc, "afpcmd")
        .no_binary_name(true)
        .version(VERSION)
        .about("A file client of the Apple Filing Protocol 3.3")
        .arg(value(alloc, "user", "NAME", "As whom; none: as a guest"))?
        .arg(value(alloc, "port", "N", "The server's TCP port; none: 548"))?
        .arg(value(
            alloc,
            "password-file",
            "FILE",
            "The password is the first line of FILE, which nobody else may read",
        ))?
        .arg(value(alloc, "batch", "FILE", "Commands are read from FILE"))?
        .arg(wait(alloc))?;
    let command = command
        .arg(flag(alloc, "quiet", 'q', "Shows no progress"))?
        .arg(flag(alloc, "long", 'l', "ls: sizes and dates"))?
        .arg(flag(alloc, "deep", 'r', "get, put: a folder and all in it"))?
        .arg(flag(alloc, "all", 'R', "ls: a folder and all in it"))?
        .arg(flag(
            alloc,
            "go-on",
            'c',
            "get, put: goes on where a copy stopped",
        ))?
        .arg(words(alloc))?;
    Ok(command)
}

/// What the words give by the command line.
pub(crate) fn matches_in<'a>(alloc: Global, words: &'a [String]) -> Result<ArgMatches<'a>, Error>
    ensures found { IfOk result (λ m. rows_of (found_of m) ≡ matches_of client_app (map (λ word. string_bytes word) words.entry.now)) }
    ensures fault { FailsBy (fault_of client_app (map (λ word. string_bytes word) words.entry.now)) result }
{
    let command = client_command(alloc)?;
    command.try_get_matches_from(words)
}
