//! The kinds of cases.
use crate::{base, frames, names, parameters, replies, requests, sessions};
use std::alloc::Global;
use test_lines::{CaseFault, TriesCases};

/// The words that begin a case.
pub const KINDS: [&str; 22] = [
    "code",
    "moment",
    "bytes",
    "scan",
    "frames",
    "frames_cut",
    "written",
    "fed",
    "options",
    "pulse",
    "ids",
    "attention",
    "name",
    "path",
    "characters",
    "byte",
    "parameters",
    "values",
    "request",
    "fields",
    "reply",
    "entries",
];

/// What comes of a case of codes, moments, bytes and cursors.
fn base_case(alloc: Global, kind: &str, words: &[&str]) -> Result<String, CaseFault> {
    match kind {
        "code" => base::code(alloc, words),
        "moment" => base::moment(alloc, words),
        "bytes" => base::bytes(alloc, words),
        "scan" => base::scan(alloc, words),
        _ => frame_case(alloc, kind, words),
    }
}

/// What comes of a case of frames.
fn frame_case(alloc: Global, kind: &str, words: &[&str]) -> Result<String, CaseFault> {
    match kind {
        "frames" => frames::frames(alloc, words),
        "frames_cut" => frames::frames_cut(alloc, words),
        "written" => frames::written(alloc, words),
        "fed" => frames::fed(alloc, words),
        _ => session_case(alloc, kind, words),
    }
}

/// What comes of a case of sessions.
fn session_case(alloc: Global, kind: &str, words: &[&str]) -> Result<String, CaseFault> {
    match kind {
        "options" => sessions::options(alloc, words),
        "pulse" => sessions::pulse(alloc, words),
        "ids" => sessions::ids(alloc, words),
        "attention" => sessions::attention(alloc, words),
        _ => name_case(alloc, kind, words),
    }
}

/// What comes of a case of names and paths.
fn name_case(alloc: Global, kind: &str, words: &[&str]) -> Result<String, CaseFault> {
    match kind {
        "name" => names::name(alloc, words),
        "path" => names::path(alloc, words),
        "characters" => names::characters(alloc, words),
        "byte" => names::byte(alloc, words),
        _ => call_case(alloc, kind, words),
    }
}

/// What comes of a case of requests, replies and their parameters.
fn call_case(alloc: Global, kind: &str, words: &[&str]) -> Result<String, CaseFault> {
    match kind {
        "parameters" => parameters::parameters(alloc, words),
        "values" => parameters::values(alloc, words),
        "request" => requests::request(alloc, words),
        "fields" => requests::fields(alloc, words),
        "reply" => replies::reply(alloc, words),
        "entries" => replies::entries(alloc, words),
        _ => Err(CaseFault::Word),
    }
}

/// The cases of the protocol, which leave nothing behind.
#[derive(Drop)]
pub struct Protocol;

impl TriesCases for Protocol {
    fn case(&mut self, alloc: Global, kind: &str, words: &[&str]) -> Result<String, CaseFault> {
        base_case(alloc, kind, words)
    }
}
