//! What the words say.
ghost use Rattle.std.specs.Prelude.{◌≡◌, ◌≢◌, ℕ, List, ◌≤◌, ◌<◌, ◌^◌, codes, map, option_map, None, Some, Ok, IfOk, IsErrOf, MatchResult};
ghost use Rattle.std.specs.String.{string_bytes};
ghost use Rattle.clap.specs.Simple.{matches_of};
ghost use Rattle.clap.specs.Walk.{all_of, first_of, rows_of};
ghost use Rattle.clap.specs.Words.{found_of, kind_of};
ghost use Rattle.hex.specs.Hex.{decode_sized};
ghost use Rattle.afpd_lib.specs.words.Words.{IsNumber, SaysRows, SaysUsers, SaysWords, WordValues, least_workers, most_links, most_workers, port_limit, turns_limit};
ghost use Rattle.afpd_lib.specs.words.Users.{UserValue};
ghost use Rattle.afpd_lib.specs.words.Places.{AreVolumes, VolumeValue};
ghost use Rattle.afpd_lib.specs.words.lemma.Values.{user_value, volume_value, values_of, SaysNumbers, NumberValues};

use crate::words::command::matches_in;
use crate::words::number::number_of;
use crate::words::place::{VolumeWord, volumes_of};
use crate::words::users::{UserWord, users_of};
use clap::error::ErrorKind;
use clap::{ArgMatches, Error};
use std::alloc::Global;
use thiserror::Error;

/// Why the words say nothing.
#[derive(Clone, Copy, Debug, PartialEq, Eq, Error)]
pub enum WordFault {
    /// They are not the words of the command line.
    #[error("the command line is faulty")]
    Bad,
    /// There was no memory.
    #[error("out of memory")]
    Memory,
}

/// What the words say: the server's name, its signature, its message and its users; its TCP port, how many links it serves side by side,
/// after how many it ends (0: never), and the most bytes and quiets of each; and its volumes, one at least.
#[derive(Drop)]
pub struct ServerWords<'a> {
    pub server: &'a str,
    pub signature: [u8; 16],
    pub message: &'a str,
    pub users: Vec<UserWord<'a>>,
    pub port: u16,
    pub workers: u8,
    pub links: u64,
    pub turns: u64,
    pub volumes: Vec<VolumeWord<'a>>,
}

/// The numbers among them.
#[derive(Clone, Copy)]
pub(crate) struct Numbers {
    port: u16,
    workers: u8,
    links: u64,
    turns: u64,
}

/// The value of a name.
fn text_in<'a>(matches: &ArgMatches<'a>, name: &str) -> Result<&'a str, WordFault>
    ensures { MatchResult result (λ text. first_of name.now (rows_of (found_of matches.now)) ≡ Some text.now)
        (λ fault. first_of name.now (rows_of (found_of matches.now)) ≡ None) }
{
    match matches.get_str(name) {
        Some(text) => Ok(text),
        None => Err(WordFault::Bad),
    }
}

/// The number of a name, within its range.
fn number_in(matches: &ArgMatches<'_>, name: &str, least: u64, most: u64) -> Result<u64, WordFault>
    ensures found { IfOk result (λ number. IsNumber (rows_of (found_of matches.now)) name.now number × (least ≤ number) × (number ≤ most)) }
    ensures bad { IsErrOf result WordFault.Bad → (number : ℕ) → IsNumber (rows_of (found_of matches.now)) name.now number → least ≤ number → number ≤ most → ⊥ }
{
    let text = text_in(matches, name)?;
    let number = number_of(text)?;
    if number < least || number > most {
        return Err(WordFault::Bad);
    }
    Ok(number)
}

/// The numbers.
pub(crate) fn numbers_in(matches: &ArgMatches<'_>) -> Result<Numbers, WordFault>
    ensures found { IfOk result (λ numbers. SaysNumbers (rows_of (found_of matches.now)) (record { port = numbers.port; workers = numbers.workers; links = numbers.links; turns = numbers.turns })) }
    ensures bad { IsErrOf result WordFault.Bad → (values : NumberValues) → SaysNumbers (rows_of (found_of matches.now)) values → ⊥ }
{
    let port = number_in(matches, "port", 0, 65_535)?;
    let workers = number_in(matches, "workers", 1, 16)?;
    let links = number_in(matches, "links", 0, 1_000_000)?;
    let turns = number_in(matches, "turns", 0, 9_223_372_036_854_775_807)?;
    Ok(Numbers {
        port: port as u16,
        workers: workers as u8,
        links,
        turns,
    })
}

/// The signature.
pub(crate) fn signature_in(matches: &ArgMatches<'_>) -> Result<[u8; 16], WordFault>
    ensures found { IfOk result (λ signature. (hex : List ℕ) × (first_of (codes "signature") (rows_of (found_of matches.now)) ≡ Some hex) × (decode_sized hex 16 ≡ Ok signature)) }
    ensures bad { IsErrOf result WordFault.Bad → (hex : List ℕ) (signature : List ℕ) → first_of (codes "signature") (rows_of (found_of matches.now)) ≡ Some hex → decode_sized hex 16 ≡ Ok signature → ⊥ }
{
    let text = text_in(matches, "signature")?;
    let mut signature = [0; 16];
    match hex::decode_to_slice(text, &mut signature) {
        Ok(()) => Ok(signature),
        Err(_) => Err(WordFault::Bad),
    }
}

/// The users.
pub(crate) fn users_in<'a>(
    alloc: Global,
    matches: &ArgMatches<'a>,
) -> Result<Vec<UserWord<'a>>, WordFault>
    ensures found { IfOk result (λ users. SaysUsers (first_of (codes "users") (rows_of (found_of matches.now))) (map user_value users.items)) }
    ensures bad { IsErrOf result WordFault.Bad → (values : List UserValue) → SaysUsers (first_of (codes "users") (rows_of (found_of matches.now))) values → ⊥ }
{
    match matches.get_str("users") {
        Some(text) => users_of(alloc, text),
        None => Ok(Vec::new(alloc)),
    }
}

/// The volumes.
fn volumes_in<'a>(alloc: Global, matches: &ArgMatches<'a>) -> Result<Vec<VolumeWord<'a>>, WordFault>
    ensures found { IfOk result (λ volumes. (words : List (List ℕ)) × (all_of (codes "volumes") (rows_of (found_of matches.now)) ≡ Some words) × AreVolumes words (map volume_value volumes.items)) }
    ensures bad { IsErrOf result WordFault.Bad → (words : List (List ℕ)) (values : List VolumeValue) → all_of (codes "volumes") (rows_of (found_of matches.now)) ≡ Some words → AreVolumes words values → ⊥ }
{
    match matches.get_strs("volumes") {
        Some(words) => volumes_of(alloc, words),
        None => Err(WordFault::Bad),
    }
}

/// What an error of the command comes to.
fn fault_of(error: &Error) -> WordFault
    ensures { result ≡ WordFault.Bad → kind_of error.now ≢ ErrorKind.OutOfMemory }
{
    match error.kind() {
        ErrorKind::OutOfMemory => WordFault::Memory,
        _ => WordFault::Bad,
    }
}

/// What the matches say.
fn words_in<'a>(alloc: Global, matches: &ArgMatches<'a>) -> Result<ServerWords<'a>, WordFault>
    ensures found { IfOk result (λ said. SaysRows (rows_of (found_of matches.now)) (values_of said)) }
    ensures bad { IsErrOf result WordFault.Bad → (values : WordValues) → SaysRows (rows_of (found_of matches.now)) values → ⊥ }
{
    let server = text_in(matches, "server")?;
    let message = text_in(matches, "message")?;
    let signature = signature_in(matches)?;
    let numbers = numbers_in(matches)?;
    let users = users_in(alloc, matches)?;
    let volumes = volumes_in(alloc, matches)?;
    Ok(ServerWords {
        server,
        signature,
        message,
        users,
        port: numbers.port,
        workers: numbers.workers,
        links: numbers.links,
        turns: numbers.turns,
        volumes,
    })
}

/// What the words of the command line say.
pub fn read_words<'a>(alloc: Global, words: &'a [String]) -> Result<ServerWords<'a>, WordFault>
    ensures found { IfOk result (λ said. SaysWords (map (λ word. string_bytes word) words.entry.now) (values_of said)) }
    ensures bad { IsErrOf result WordFault.Bad → (values : WordValues) → SaysWords (map (λ word. string_bytes word) words.entry.now) values → ⊥ }
{
    match matches_in(alloc, words) {
        Ok(matches) => words_in(alloc, &matches),
        Err(error) => Err(fault_of(&error)),
    }
}
