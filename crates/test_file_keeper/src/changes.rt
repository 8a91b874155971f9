//! The changes that lines name.
use crate::line::Span;
use afp_base::{Bytes, OutOfMemory};
use record_keeper::{Change, RecordKey};
use std::alloc::Global;
use test_lines::lines::owned;

/// The key that hexadecimal digits spell.
pub fn key_of(alloc: Global, digits: &str) -> Result<RecordKey, OutOfMemory> {
    Ok(RecordKey::new(owned(alloc, digits)?))
}

/// A put of a value at a key.
pub fn put(alloc: Global, key: &str, value: &str) -> Result<Change, OutOfMemory> {
    Ok(Change::Put {
        key: key_of(alloc, key)?,
        value: owned(alloc, value)?,
    })
}

/// The removal of a key.
pub fn removal(alloc: Global, key: &str) -> Result<Change, OutOfMemory> {
    Ok(Change::Remove {
        key: key_of(alloc, key)?,
    })
}

/// A value of so many bytes: those of the turn, again and again.
fn value_of(alloc: Global, size: u64, turn: u64) -> Result<Bytes, OutOfMemory> {
    let mut bytes = Vec::new(alloc);
    let word = turn.to_be_bytes();
    for i in 0..size {
        bytes.push(word[(i % 8) as usize])?;
    }
    Bytes::of(alloc, bytes.as_slice())
}

/// A put at the key of a number.
pub fn numbered(alloc: Global, number: u64, span: Span) -> Result<Change, OutOfMemory> {
    Ok(Change::Put {
        key: RecordKey::new(Bytes::of(alloc, &number.to_be_bytes())?),
        value: value_of(alloc, span.size, span.turn)?,
    })
}

/// Puts at each key of a span.
pub fn fill(alloc: Global, changes: &mut Vec<Change>, span: Span) -> Result<(), OutOfMemory> {
    for i in 0..span.count {
        changes.push(numbered(alloc, span.first.wrapping_add(i), span)?)?;
    }
    Ok(())
}
