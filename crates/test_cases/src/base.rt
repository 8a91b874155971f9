//! Codes, moments, bytes, and cursors over bytes.
ghost use Rattle.std.specs.Prelude.{◌≡◌, ◌+◌, ◌≤◌, length, true};

use afp_base::{Bytes, Code, Moment, Scan, Short};
use std::alloc::Global;
use test_lines::cases::{CaseFault, bytes_of, owned, put_word, text_of, word_of};

/// `code NUMBER`: the number of the code that has this one, or `none`.
pub fn code(alloc: Global, words: &[&str]) -> Result<String, CaseFault> {
    let [number] = words else {
        return Err(CaseFault::Word);
    };
    match Code::of(number.parse::<i32>()?) {
        Some(code) => {
            let number = code.number();
            Ok(format!(in alloc; "{number}")?)
        }
        None => text_of(alloc, "none"),
    }
}

/// `moment SECONDS`: the seconds of the moment, or `none`.
pub fn moment(alloc: Global, words: &[&str]) -> Result<String, CaseFault> {
    let [seconds] = words else {
        return Err(CaseFault::Word);
    };
    match Moment::new(seconds.parse::<u32>()?) {
        Some(moment) => {
            let seconds = moment.seconds();
            Ok(format!(in alloc; "{seconds}")?)
        }
        None => text_of(alloc, "none"),
    }
}

fn is_inside(bytes: &[u8], at: usize, piece: &[u8]) -> bool
    ensures { result ≡ true → at + length piece.now ≤ length bytes.now }
{
    at <= bytes.len() && piece.len() <= bytes.len() - at
}

/// Appends the bytes with a piece in place of those from this one on, and the first so many of them.
fn put_changed(
    alloc: Global,
    text: &mut String,
    bytes: &mut Bytes,
    at: usize,
    piece: &[u8],
    first: usize,
) -> Result<(), CaseFault> {
    if !is_inside(bytes.as_slice(), at, piece) {
        return Err(CaseFault::Word);
    }
    bytes.put(at, piece);
    put_word(alloc, text, bytes.as_slice())?;
    text.push(' ')?;
    bytes.truncate(first);
    put_word(alloc, text, bytes.as_slice())
}

/// `bytes FRONT BACK AT PIECE FIRST`: a copy of two pieces, one behind the other; these with another piece at a place; and
/// the first so many of them.
pub fn bytes(alloc: Global, words: &[&str]) -> Result<String, CaseFault> {
    let [front, back, at, piece, first] = words else {
        return Err(CaseFault::Word);
    };
    let mut bytes = owned(alloc, front)?;
    bytes.extend(bytes_of(alloc, back)?.as_slice())?;
    let mut text = word_of(alloc, bytes.copy()?.as_slice())?;
    text.push(' ')?;
    let piece = bytes_of(alloc, piece)?;
    let (at, first) = (at.parse::<usize>()?, first.parse::<usize>()?);
    put_changed(alloc, &mut text, &mut bytes, at, piece.as_slice(), first)?;
    Ok(text)
}

/// The next number of this kind.
fn number_at(scan: &mut Scan<'_>, kind: &str) -> Result<Result<u64, Short>, CaseFault> {
    match kind {
        "u8" => Ok(scan.u8().map(u64::from)),
        "u16" => Ok(scan.u16().map(u64::from)),
        "u32" => Ok(scan.u32().map(u64::from)),
        "u64" => Ok(scan.u64()),
        _ => Err(CaseFault::Word),
    }
}

/// Appends what the cursor reads next, or the place where bytes lack.
fn put_read(
    alloc: Global,
    text: &mut String,
    scan: &mut Scan<'_>,
    kind: &str,
) -> Result<(), CaseFault> {
    if let Ok(count) = kind.parse::<usize>() {
        match scan.bytes(count) {
            Ok(piece) => return put_word(alloc, text, piece),
            Err(Short { at }) => write!(text, "short {at}")?,
        }
        return Ok(());
    }
    match number_at(scan, kind)? {
        Ok(number) => write!(text, "{number}")?,
        Err(Short { at }) => write!(text, "short {at}")?,
    }
    Ok(())
}

/// `scan BYTES KIND..`: what a cursor reads in turn, numbers `u8`, `u16`, `u32` and `u64` or so many bytes.
pub fn scan(alloc: Global, words: &[&str]) -> Result<String, CaseFault> {
    let [bytes, kinds @ ..] = words else {
        return Err(CaseFault::Word);
    };
    let bytes = bytes_of(alloc, bytes)?;
    let mut scan = Scan::new(bytes.as_slice());
    let mut text = String::new(alloc);
    for kind in kinds {
        if !text.as_str().is_empty() {
            text.push(' ')?;
        }
        put_read(alloc, &mut text, &mut scan, kind)?;
    }
    Ok(text)
}
