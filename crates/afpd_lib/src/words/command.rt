//! The command, as `clap` reads it.
ghost use Rattle.std.specs.Prelude.{◌≡◌, IfOk, map, false};
ghost use Rattle.clap.specs.Simple.{matches_of};
ghost use Rattle.clap.specs.Words.{app_of, fault_of, found_of};
ghost use Rattle.clap.specs.Kinds.{FailsBy};
ghost use Rattle.clap.specs.Walk.{rows_of, rule_of};
ghost use Rattle.afpd_lib.specs.words.Command.{option_rule, server_app, users_rule, volumes_rule};
ghost use Rattle.std.specs.String.{string_bytes};

use clap::builder::ValueParser;
use clap::{Arg, ArgAction, ArgMatches, Command, Error};
use std::alloc::{AllocError, Global};

/// The version that `--version` prints.
const VERSION: &str = "0.1";

/// A word with a value and its default.
fn option<'a>(
    alloc: Global,
    name: &'a str,
    value: &'a str,
    default: &'a str,
    parser: ValueParser<'a>,
    help: &'a str,
) -> Arg<'a>
    ensures rule { rule_of result ≡ option_rule name.entry.now default.entry.now parser.entry }
    ensures local { result.global ≡ false }
{
    Arg::new(alloc, name)
        .long(name)
        .action(ArgAction::Set)
        .value_parser(parser)
        .default_value(default)
        .value_name(value)
        .help(help)
}

/// The users: none where the word is not there.
fn users<'a>(alloc: Global) -> Arg<'a>
    ensures rule { rule_of result ≡ users_rule }
    ensures local { result.global ≡ false }
{
    Arg::new(alloc, "users")
        .long("users")
        .action(ArgAction::Set)
        .value_name("LIST")
        .help("Users that may log in: NAME:PASSWORD,..")
}

/// The volumes, one at least.
fn volumes<'a>(alloc: Global) -> Arg<'a>
    ensures rule { rule_of result ≡ volumes_rule }
    ensures local { result.global ≡ false }
{
    Arg::new(alloc, "volumes")
        .action(ArgAction::Append)
        .required(true)
        .value_name("VOLUME=PLACE")
        .help("A volume's name and where it is kept: memory, or a file's name")
}

/// The command of the server.
fn server_command<'a>(alloc: Global) -> Result<Command<'a>, AllocError>
    ensures { IfOk result (λ c. app_of c ≡ server_app) }
{
    let command = Command::new(alloc, "afpd")
        .no_binary_name(true)
        .version(VERSION)
        .about("A file server of the Apple Filing Protocol 3.3")
        .arg(option(
            alloc,
            "server",
            "NAME",
            "Mac",
            ValueParser::String,
            "The server's name",
        ))?
        .arg(option(
            alloc,
            "signature",
            "HEX",
            "00000000000000000000000000000000",
            ValueParser::String,
            "The server's signature: 32 hexadecimal digits",
        ))?
        .arg(option(
            alloc,
            "message",
            "TEXT",
            "",
            ValueParser::String,
            "The server's message",
        ))?
        .arg(option(
            alloc,
            "port",
            "N",
            "548",
            ValueParser::Unsigned(0, 65_535),
            "The TCP port; 0: one that is free, which is told",
        ))?
        .arg(option(
            alloc,
            "workers",
            "N",
            "4",
            ValueParser::Unsigned(1, 16),
            "How many workers there are, each of which serves one link at a time; a further link waits",
        ))?;
    let command = command
        .arg(option(
            alloc,
            "links",
            "N",
            "0",
            ValueParser::Unsigned(0, 1_000_000),
            "After how many links each worker ends; the server ends when all have; 0: never",
        ))?
        .arg(option(
            alloc,
            "turns",
            "N",
            "9223372036854775807",
            ValueParser::Unsigned(0, 9_223_372_036_854_775_807),
            "The most bytes and quiets of a link",
        ))?
        .arg(users(alloc))?
        .arg(volumes(alloc))?;
    Ok(command)
}

/// What the words give by the command.
pub(crate) fn matches_in<'a>(alloc: Global, words: &'a [String]) -> Result<ArgMatches<'a>, Error>
    ensures found { IfOk result (λ m. rows_of (found_of m) ≡ matches_of server_app (map (λ word. string_bytes word) words.entry.now)) }
    ensures fault { FailsBy (fault_of server_app (map (λ word. string_bytes word) words.entry.now)) result }
{
    let command = server_command(alloc)?;
    command.try_get_matches_from(words)
}
