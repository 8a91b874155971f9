//! The kinds of cases.
use crate::houses;
use crate::server::{Server, ask, at, counts, new_server};
use crate::whole::served;
use std::alloc::Global;
use test_lines::{CaseFault, TriesCases};

/// The words that begin a case.
pub const KINDS: [&str; 9] = [
    "house",
    "house_copied",
    "status",
    "volumes",
    "server",
    "at",
    "ask",
    "counts",
    "served",
];

/// What comes of a case of what a server is set up with, or of a whole link.
fn house_case(alloc: Global, kind: &str, words: &[&str]) -> Result<String, CaseFault> {
    match kind {
        "house" => houses::house(alloc, words),
        "house_copied" => houses::house_copied(alloc, words),
        "status" => houses::status(alloc, words),
        "volumes" => houses::volumes(alloc, words),
        "served" => served(alloc, words),
        _ => Err(CaseFault::Word),
    }
}

impl TriesCases for Server {
    fn case(&mut self, alloc: Global, kind: &str, words: &[&str]) -> Result<String, CaseFault> {
        match kind {
            "server" => new_server(alloc, self, words),
            "at" => at(alloc, self, words),
            "ask" => ask(alloc, self, words),
            "counts" => counts(alloc, self, words),
            _ => house_case(alloc, kind, words),
        }
    }
}
