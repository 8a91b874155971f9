//! The command, as `clap` reads it.
ghost use Rattle.std.specs.Prelude.{◌≡◌, IfOk, map, false};
ghost use Rattle.std.specs.String.{string_bytes};
ghost use Rattle.clap.specs.Simple.{matches_of};
ghost use Rattle.clap.specs.Words.{app_of, fault_of, found_of};
ghost use Rattle.clap.specs.Kinds.{FailsBy};
ghost use Rattle.clap.specs.Walk.{rows_of, rule_of};
ghost use Rattle.afptool_lib.specs.client.Command.{address_rule, client_app, user_rule};

use clap::{Arg, ArgAction, ArgMatches, Command, Error};
use std::alloc::{AllocError, Global};

/// As whom to log in.
fn user<'a>(alloc: Global) -> Arg<'a>
    ensures rule { rule_of result ≡ user_rule }
    ensures local { result.global ≡ false }
{
    Arg::new(alloc, "user")
        .long("user")
        .action(ArgAction::Set)
        .value_name("NAME:PASSWORD")
}

/// Where the server is.
fn address<'a>(alloc: Global) -> Arg<'a>
    ensures rule { rule_of result ≡ address_rule }
    ensures local { result.global ≡ false }
{
    Arg::new(alloc, "address")
        .action(ArgAction::Set)
        .required(true)
        .value_name("ADDRESS")
}

/// The command.
fn client_command<'a>(alloc: Global) -> Result<Command<'a>, AllocError>
    ensures { IfOk result (λ c. app_of c ≡ client_app) }
{
    let command = Command::new(alloc, "client")
        .no_binary_name(true)
        .disable_help_flag(true)
        .arg(user(alloc))?
        .arg(address(alloc))?;
    Ok(command)
}

/// What the words give by the command.
pub(crate) fn matches_in<'a>(alloc: Global, words: &'a [String]) -> Result<ArgMatches<'a>, Error>
    ensures found { IfOk result (λ m. rows_of (found_of m) ≡ matches_of client_app (map (λ word. string_bytes word) words.entry.now)) }
    ensures fault { FailsBy (fault_of client_app (map (λ word. string_bytes word) words.entry.now)) result }
{
    let command = client_command(alloc)?;
    command.try_get_matches_from(words)
}
