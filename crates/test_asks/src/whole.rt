//! Whole links, each to a server of its own.
ghost use Rattle.std.specs.Prelude.{◌≤◌, length, IfOk};
ghost use Rattle.afp_outside.specs.ends.Tape.{IsFreshTape};

use crate::server::{Server, put_counts};
use afp_base::{Bytes, Moment, NO_LIMIT, OutOfMemory};
use afp_outside::{OpenGate, TapeLink};
use afp_server::{LinkEnd, serve_link};
use std::alloc::Global;
use test_lines::cases::{CaseFault, bytes_of, put_bad, word_of};

/// A link in memory through which the bytes come, in a first read of so many, and then as many as there is room for.
fn tape_of(alloc: Global, made: Moment, bytes: &[u8], first: usize) -> Result<TapeLink, OutOfMemory>
    ensures { IfOk result IsFreshTape }
{
    let reads = vec![in alloc; first]?;
    let coming = Bytes::of(alloc, bytes)?;
    TapeLink::new(
        alloc,
        made,
        coming,
        reads,
        Vec::new(alloc),
        Vec::new(alloc),
        Vec::new(alloc),
    )
}

fn put_end(text: &mut String, end: LinkEnd) -> Result<(), CaseFault> {
    match end {
        LinkEnd::Closed => text.push_str("closed")?,
        LinkEnd::Ended => text.push_str("ended")?,
        LinkEnd::Cut { at } => write!(text, "cut {at}")?,
        LinkEnd::Bad(bad) => put_bad(text, bad)?,
        _ => return Err(CaseFault::Word),
    }
    Ok(())
}

fn run_text(alloc: Global, written: &[u8], end: LinkEnd) -> Result<String, CaseFault> {
    let mut text = word_of(alloc, written)?;
    text.push(' ')?;
    put_end(&mut text, end)?;
    Ok(text)
}

fn serve(
    alloc: Global,
    server: &mut Server,
    bytes: &[u8],
    first: usize,
) -> Result<String, CaseFault> {
    let mut link = tape_of(alloc, server.now, bytes, first)?;
    let end = serve_link(
        alloc,
        &server.house,
        &mut link,
        &mut server.teller,
        &OpenGate,
        NO_LIMIT,
    );
    run_text(alloc, link.written(), end)
}

/// The same, and the server's counts.
fn go_and_count(
    alloc: Global,
    server: &mut Server,
    bytes: &[u8],
    first: usize,
) -> Result<String, CaseFault>
    requires { first ≤ length bytes.now }
{
    let mut text = serve(alloc, server, bytes, first)?;
    text.push(' ')?;
    put_counts(&server.teller, &mut text)?;
    Ok(text)
}

/// What a server writes to a link of which so many bytes come first, why the link ends, and the server's counts.
fn run(alloc: Global, bytes: &[u8], first: usize) -> Result<String, CaseFault>
    requires { first ≤ length bytes.now }
{
    match Server::new(alloc) {
        Ok(mut server) => go_and_count(alloc, &mut server, bytes, first),
        Err(fault) => Err(fault),
    }
}

/// The place where the bytes were cut, where the result of them is another.
fn differs(alloc: Global, bytes: &[u8], text: &str) -> Result<Option<usize>, CaseFault> {
    for first in 1..bytes.len() {
        if run(alloc, bytes, first)?.as_str() != text {
            return Ok(Some(first));
        }
    }
    Ok(None)
}

fn at_each_place(alloc: Global, bytes: &[u8]) -> Result<String, CaseFault> {
    let mut text = run(alloc, bytes, bytes.len())?;
    if let Some(first) = differs(alloc, bytes, text.as_str())? {
        write!(text, " but not where it is cut at {first}")?;
    }
    Ok(text)
}

/// `served BYTES`: what a server writes to a link through which the bytes come, why the link ends, and the counts then; the
/// same, wherever the first read ends.
pub fn served(alloc: Global, words: &[&str]) -> Result<String, CaseFault> {
    let [bytes] = words else {
        return Err(CaseFault::Word);
    };
    at_each_place(alloc, bytes_of(alloc, bytes)?.as_slice())
}
