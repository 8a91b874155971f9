//! Replies of the Apple Filing Protocol.
ghost use Rattle.afp_replies.specs.Replies.{IsShown};

use crate::fields::values_text;
use afp_base::{Bytes, Code};
use afp_replies::{ListEntry, Reply, ReplyFault, ReplyKind, read_reply, write_reply};
use std::alloc::Global;
use test_lines::cases::{CaseFault, bits_of, bytes_of, text_of, word_of};

fn fault_of(alloc: Global, fault: ReplyFault) -> Result<String, CaseFault> {
    match fault {
        ReplyFault::Bad { at } => Ok(format!(in alloc; "bad {at}")?),
        ReplyFault::Memory => Err(CaseFault::Memory),
    }
}

fn written(alloc: Global, reply: &Reply) -> Result<String, CaseFault>
    requires { IsShown reply.now }
{
    let mut out = Bytes::new(alloc);
    write_reply(reply, &mut out)?;
    word_of(alloc, out.as_slice())
}

fn written_again(
    alloc: Global,
    kind: &ReplyKind,
    code: Code,
    bytes: &[u8],
) -> Result<String, CaseFault> {
    match read_reply(alloc, kind, code, bytes) {
        Ok(reply) => written(alloc, &reply),
        Err(fault) => fault_of(alloc, fault),
    }
}

fn kind_of(command: &str, bits: &str, dir_bits: &str) -> Result<ReplyKind, CaseFault> {
    Ok(ReplyKind {
        command: command.parse::<u8>()?,
        bits: bits_of(bits)?,
        dir_bits: bits_of(dir_bits)?,
    })
}

fn code_of(word: &str) -> Result<Code, CaseFault> {
    match Code::of(word.parse::<i32>()?) {
        Some(code) => Ok(code),
        None => Err(CaseFault::Word),
    }
}

/// `reply COMMAND BITS DIRBITS CODE BYTES`: the reply to a request with that command and those bits, written again; or
/// where the bytes are bad.
pub fn reply(alloc: Global, words: &[&str]) -> Result<String, CaseFault> {
    let [command, bits, dir_bits, code, bytes] = words else {
        return Err(CaseFault::Word);
    };
    let kind = kind_of(command, bits, dir_bits)?;
    let code = code_of(code)?;
    written_again(alloc, &kind, code, bytes_of(alloc, bytes)?.as_slice())
}

fn entries_text(alloc: Global, rows: &[ListEntry], text: &mut String) -> Result<(), CaseFault> {
    for entry in rows {
        text.push_str("; ")?;
        values_text(alloc, &entry.values, text)?;
    }
    Ok(())
}

fn list_text(alloc: Global, reply: &Reply) -> Result<String, CaseFault> {
    match reply {
        Reply::List { wide, rows, .. } => {
            let mut text = text_of(alloc, if *wide { "wide" } else { "narrow" })?;
            entries_text(alloc, rows.as_slice(), &mut text)?;
            Ok(text)
        }
        _ => text_of(alloc, "no list"),
    }
}

/// `entries COMMAND BITS DIRBITS BYTES`: whether the entries of that list have wide lengths, and their values that are not
/// zero, in order.
pub fn entries(alloc: Global, words: &[&str]) -> Result<String, CaseFault> {
    let [command, bits, dir_bits, bytes] = words else {
        return Err(CaseFault::Word);
    };
    let kind = kind_of(command, bits, dir_bits)?;
    match read_reply(alloc, &kind, Code::Ok, bytes_of(alloc, bytes)?.as_slice()) {
        Ok(reply) => list_text(alloc, &reply),
        Err(fault) => fault_of(alloc, fault),
    }
}
