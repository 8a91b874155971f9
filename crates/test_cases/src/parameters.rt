//! Blocks of parameters of volumes, files and directories.
ghost use Rattle.std.specs.Prelude.{◌≤◌};
ghost use Rattle.afp_bitmap.specs.Bits.{IsWithin, mask_of};

use crate::fields::values_text;
use afp_base::{Bytes, Code};
use afp_bitmap::{DirBits, FileBits, ParamFault, Values, VolumeBits, put_params, read_params};
use std::alloc::Global;
use test_lines::cases::{CaseFault, bits_of, bytes_of, text_of, word_of};

/// What is asked of a volume (kind 0), a file (1) or a directory (2).
#[derive(Clone, Copy)]
struct Asked {
    kind: u8,
    bits: u16,
    ghost known: { kind ≤ 2 },
    ghost within: { IsWithin (mask_of kind) bits },
}

/// What is asked, where these bits may be.
fn asked_of(kind: &str, bits: u16) -> Result<Option<Asked>, CaseFault> {
    match kind {
        "volume" => Ok(volume(VolumeBits::new(bits))),
        "file" => Ok(file(FileBits::new(bits))),
        "directory" => Ok(directory(DirBits::new(bits))),
        _ => Err(CaseFault::Word),
    }
}

fn volume(bits: Result<VolumeBits, Code>) -> Option<Asked> {
    match bits {
        Ok(bits) => Some(Asked {
            kind: 0,
            bits: bits.get(),
        }),
        Err(_) => None,
    }
}

fn file(bits: Result<FileBits, Code>) -> Option<Asked> {
    match bits {
        Ok(bits) => Some(Asked {
            kind: 1,
            bits: bits.get(),
        }),
        Err(_) => None,
    }
}

fn directory(bits: Result<DirBits, Code>) -> Option<Asked> {
    match bits {
        Ok(bits) => Some(Asked {
            kind: 2,
            bits: bits.get(),
        }),
        Err(_) => None,
    }
}

fn fault_of(alloc: Global, fault: ParamFault) -> Result<String, CaseFault> {
    match fault {
        ParamFault::Bad { at } => Ok(format!(in alloc; "bad {at}")?),
        ParamFault::Memory => Err(CaseFault::Memory),
    }
}

/// The block of the values that were read, put behind a byte that stands there already.
fn block_text(alloc: Global, asked: Asked, bytes: &[u8]) -> Result<String, CaseFault> {
    let mut out = Bytes::new(alloc);
    out.extend(b"\xee")?;
    match read_params(alloc, asked.bits, asked.kind, bytes) {
        Ok(values) => put_params(asked.bits, &values, &mut out)?,
        Err(fault) => return fault_of(alloc, fault),
    }
    match out.as_slice() {
        [0xee, block @ ..] => word_of(alloc, block),
        _ => text_of(alloc, "what stood there is lost"),
    }
}

/// `parameters KIND BITS BYTES`: the block of the values that the bytes are the block of; or `bits`, where these may not be
/// asked, or where the bytes are bad.
pub fn parameters(alloc: Global, words: &[&str]) -> Result<String, CaseFault> {
    let [kind, bits, bytes] = words else {
        return Err(CaseFault::Word);
    };
    match asked_of(kind, bits_of(bits)?)? {
        Some(asked) => block_text(alloc, asked, bytes_of(alloc, bytes)?.as_slice()),
        None => text_of(alloc, "bits"),
    }
}

fn values_in(alloc: Global, asked: Asked, bytes: &[u8]) -> Result<String, CaseFault> {
    match read_params(alloc, asked.bits, asked.kind, bytes) {
        Ok(values) => told(alloc, &values),
        Err(fault) => fault_of(alloc, fault),
    }
}

fn told(alloc: Global, values: &Values) -> Result<String, CaseFault> {
    let mut text = String::new(alloc);
    values_text(alloc, values, &mut text)?;
    Ok(text)
}

/// `values KIND BITS BYTES`: those values that are not zero.
pub fn values(alloc: Global, words: &[&str]) -> Result<String, CaseFault> {
    let [kind, bits, bytes] = words else {
        return Err(CaseFault::Word);
    };
    match asked_of(kind, bits_of(bits)?)? {
        Some(asked) => values_in(alloc, asked, bytes_of(alloc, bytes)?.as_slice()),
        None => text_of(alloc, "bits"),
    }
}
