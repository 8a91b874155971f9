//! Requests of the Apple Filing Protocol.
ghost use Rattle.afp_calls_grammar.specs.grammar.Call.{IsSpellable};

use crate::fields::{put_bytes, put_numbers};
use crate::names::steps_of;
use afp_base::Bytes;
use afp_calls::{Call, ReadFault, read_call, write_call};
use std::alloc::Global;
use test_lines::cases::{CaseFault, bytes_of, put_word, text_of, word_of};

fn fault_of(fault: ReadFault) -> &'static str {
    match fault {
        ReadFault::NotSupported => "not supported",
        ReadFault::Param => "param",
        ReadFault::Memory => "no memory",
    }
}

fn written(alloc: Global, call: &Call, enclosed: bool) -> Result<String, CaseFault>
    requires { IsSpellable call.now }
{
    let mut written = Bytes::new(alloc);
    let mut beside = Bytes::new(alloc);
    write_call(alloc, call, &mut written, &mut beside)?;
    both(alloc, written.as_slice(), beside.as_slice(), enclosed)
}

fn read(alloc: Global, block: &[u8], enclosed: Option<&[u8]>) -> Result<String, CaseFault> {
    match read_call(alloc, block, enclosed) {
        Ok(call) => written(alloc, &call, enclosed.is_some()),
        Err(fault) => text_of(alloc, fault_of(fault)),
    }
}

fn both(alloc: Global, block: &[u8], data: &[u8], enclosed: bool) -> Result<String, CaseFault> {
    let mut text = word_of(alloc, block)?;
    if enclosed || !data.is_empty() {
        text.push(' ')?;
        put_word(alloc, &mut text, data)?;
    }
    Ok(text)
}

/// `request BLOCK`, in a Write frame `request BLOCK DATA`: the canonical block of the request, and in a Write frame what
/// comes with it there; or why they spell no request.
pub fn request(alloc: Global, words: &[&str]) -> Result<String, CaseFault> {
    match words {
        [block] => read(alloc, bytes_of(alloc, block)?.as_slice(), None),
        [block, data] => with_data(alloc, bytes_of(alloc, block)?.as_slice(), data),
        _ => Err(CaseFault::Word),
    }
}

fn with_data(alloc: Global, block: &[u8], data: &str) -> Result<String, CaseFault> {
    read(alloc, block, Some(bytes_of(alloc, data)?.as_slice()))
}

/// The fields of some calls, where they are not 0.
fn fields_text(alloc: Global, call: &Call, text: &mut String) -> Result<(), CaseFault> {
    match call {
        Call::Read {
            reference,
            offset,
            count,
            mask,
            character,
        } => put_numbers(
            text,
            &[
                ("reference", i64::from(reference.0)),
                ("offset", i64::from(*offset)),
                ("count", i64::from(*count)),
                ("mask", i64::from(*mask)),
                ("character", i64::from(*character)),
            ],
        ),
        Call::ByteRangeLock { offset, length, .. } => put_numbers(
            text,
            &[
                ("offset", i64::from(*offset)),
                ("length", i64::from(*length)),
            ],
        ),
        Call::Write { piece, .. } => put_bytes(alloc, text, "piece", piece.as_slice()),
        Call::CreateFile { path, .. } => {
            text.push_str(" path ")?;
            text.push_str(steps_of(alloc, path)?.as_str())?;
            Ok(())
        }
        _ => Err(CaseFault::Word),
    }
}

fn told(alloc: Global, call: &Call) -> Result<String, CaseFault> {
    let mut text = text_of(alloc, "has")?;
    fields_text(alloc, call, &mut text)?;
    Ok(text)
}

fn fields_in(alloc: Global, block: &[u8], enclosed: Option<&[u8]>) -> Result<String, CaseFault> {
    match read_call(alloc, block, enclosed) {
        Ok(call) => told(alloc, &call),
        Err(fault) => text_of(alloc, fault_of(fault)),
    }
}

/// `fields BLOCK`, or `fields BLOCK DATA`: those fields of FPRead, FPByteRangeLock, FPWrite or FPCreateFile that are not 0.
pub fn fields(alloc: Global, words: &[&str]) -> Result<String, CaseFault> {
    match words {
        [block] => fields_in(alloc, bytes_of(alloc, block)?.as_slice(), None),
        [block, data] => fields_with(alloc, bytes_of(alloc, block)?.as_slice(), data),
        _ => Err(CaseFault::Word),
    }
}

fn fields_with(alloc: Global, block: &[u8], data: &str) -> Result<String, CaseFault> {
    fields_in(alloc, block, Some(bytes_of(alloc, data)?.as_slice()))
}
