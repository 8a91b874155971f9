//! What the words say.
ghost use Rattle.std.specs.Prelude.{◌≡◌, ◌≢◌, map, option_map, true, None, IfErr, IfOk, IfSome};
ghost use Rattle.std.specs.String.{string_bytes};
ghost use Rattle.clap.specs.Walk.{first_of, rows_of};
ghost use Rattle.clap.specs.Words.{found_of, kind_of};
ghost use Rattle.afp_client.specs.session.Opening.{FitsLogin};
ghost use Rattle.afptool_lib.specs.client.Words.{addresses_in, asks_client, client_in, said_in, taken_in};

use crate::client::command::matches_in;
use crate::client::user::login_in;
use afp_base::{Bytes, OutOfMemory};
use afp_client::Login;
use clap::error::ErrorKind;
use clap::{ArgMatches, Error};
use std::alloc::Global;

/// As whom a client logs in, and the address of its server.
#[derive(Drop)]
pub struct ClientWords {
    pub login: Login,
    pub address: Bytes,
}

/// The value of a name.
fn text_in<'a>(matches: &ArgMatches<'a>, name: &str) -> Option<&'a str>
    ensures { option_map (λ text. text.now) result ≡ first_of name.now (rows_of (found_of matches.now)) }
{
    matches.get_str(name)
}

/// What the matches say.
fn said_in(alloc: Global, matches: &ArgMatches<'_>) -> Result<Option<ClientWords>, OutOfMemory>
    ensures said { IfOk result (λ client. client ≡ said_in (rows_of (found_of matches.now))) }
    ensures fits { IfOk result (λ client. IfSome client (λ c. FitsLogin c.login)) }
{
    let Some(login) = login_in(alloc, text_in(matches, "user"))? else {
        return Ok(None);
    };
    let Some(address) = text_in(matches, "address") else {
        return Ok(None);
    };
    let address = Bytes::of(alloc, address.as_bytes())?;
    Ok(Some(ClientWords { login, address }))
}

/// What words come to that the command refuses: nothing is said, but where there was no memory.
fn refused_by(error: &Error) -> Result<Option<ClientWords>, OutOfMemory>
    ensures { IfOk result (λ client. (client ≡ None) × (kind_of error.now ≢ ErrorKind.OutOfMemory)) }
{
    match error.kind() {
        ErrorKind::OutOfMemory => Err(OutOfMemory),
        _ => Ok(None),
    }
}

/// What the words behind the command's name say.
fn taken_in(alloc: Global, words: &[String]) -> Result<Option<ClientWords>, OutOfMemory>
    ensures taken { IfOk result (λ client. client ≡ taken_in (map (λ word. string_bytes word) words.now)) }
    ensures fits { IfOk result (λ client. IfSome client (λ c. FitsLogin c.login)) }
{
    match matches_in(alloc, words) {
        Ok(matches) => said_in(alloc, &matches),
        Err(error) => refused_by(&error),
    }
}

/// What the words behind the program's name say, where they are those of `client`: as whom to log in, and where. The one error is want of
/// memory.
pub fn client_words(alloc: Global, words: &[String]) -> Result<Option<ClientWords>, OutOfMemory>
    ensures client { IfOk result (λ client. client ≡ client_in (map (λ word. string_bytes word) words.now)) }
    ensures memory { IfErr result (λ fault. asks_client (map (λ word. string_bytes word) words.now) ≡ true) }
    ensures fits { IfOk result (λ client. IfSome client (λ c. FitsLogin c.login)) }
{
    match words {
        [] => Ok(None),
        [first, rest @ ..] => {
            if first.as_bytes() == b"client".as_slice() {
                taken_in(alloc, rest)
            } else {
                Ok(None)
            }
        }
    }
}

/// The addresses that the words behind the program's name say, in order: that of `client`, or none.
pub fn addresses(alloc: Global, words: &[String]) -> Result<Vec<Bytes>, OutOfMemory>
    ensures { IfOk result (λ found. found.items ≡ addresses_in (client_in (map (λ word. string_bytes word) words.now))) }
{
    let mut found = Vec::new(alloc);
    if let Some(client) = client_words(alloc, words)? {
        let ClientWords { address, .. } = client;
        found.push(address)?;
    }
    Ok(found)
}
