//! The calls of a made capture, one function for each. The one error is want of memory.
ghost use Rattle.std.specs.Prelude.{◌≡◌, ◌≤◌, ◌+◌, ◌%◌, [], ◌∷◌, length, IfOk};
ghost use Rattle.afp_names.specs.Path.{canonical_path};
ghost use Rattle.afp_calls_grammar.specs.grammar.Call.{IsSpellable};
ghost use Rattle.capture_made.specs.requests.Requests.{path, name, reference, create_file, delete, rename, open_fork, close_fork, lock, write, enumerate, call_of, login, open_volume};
ghost use Rattle.capture_made.specs.requests.lemma.Letters.{letter};

use afp_base::{Bytes, ForkRef, NodeId, OutOfMemory, VolumeId};
use afp_calls::Call;
use afp_calls_grammar::Piece;
use afp_names::{Path, UTF8_NAMES};
use std::alloc::Global;

/// The volume.
const VOLUME: VolumeId = VolumeId(1);

/// Its root.
const ROOT: NodeId = NodeId(2);

/// The path that bytes spell.
fn path_of(alloc: Global, text: &[u8]) -> Result<Path, OutOfMemory>
    requires { length text.now ≤ 2 }
    ensures { IfOk result (λ found. found ≡ path text.now) }
{
    match Path::read(alloc, UTF8_NAMES, text) {
        Ok(path) => Ok(path),
        Err(_) => Err(OutOfMemory),
    }
}

/// The path to one of the eight files.
fn path_to(alloc: Global, number: u64) -> Result<Path, OutOfMemory>
    ensures { IfOk result (λ found. found ≡ path (name number)) }
{
    let text = [b'n', b'0' + (number % 8) as u8];
    path_of(alloc, &text)
}

/// One of the eight references.
fn reference_of(number: u64) -> ForkRef
    ensures { result ≡ reference number }
{
    ForkRef(1 + (number % 8) as u16)
}

/// FPCreateFile, which leaves a file that is there.
fn create_file(alloc: Global, a: u64) -> Result<Call<'static>, OutOfMemory>
    ensures call { IfOk result (λ call. call ≡ create_file a) }
    ensures spellable { IfOk result (λ call. IsSpellable call) }
{
    Ok(Call::CreateFile {
        flag: 0,
        volume: VOLUME,
        dir: ROOT,
        path: path_to(alloc, a)?,
    })
}

/// FPDelete.
fn delete(alloc: Global, a: u64) -> Result<Call<'static>, OutOfMemory>
    ensures call { IfOk result (λ call. call ≡ delete a) }
    ensures spellable { IfOk result (λ call. IsSpellable call) }
{
    Ok(Call::Delete {
        volume: VOLUME,
        dir: ROOT,
        path: path_to(alloc, a)?,
    })
}

/// FPRename.
fn rename(alloc: Global, a: u64, b: u64) -> Result<Call<'static>, OutOfMemory>
    ensures call { IfOk result (λ call. call ≡ rename a b) }
    ensures spellable { IfOk result (λ call. IsSpellable call) }
{
    Ok(Call::Rename {
        volume: VOLUME,
        dir: ROOT,
        path: path_to(alloc, a)?,
        new_path: path_to(alloc, b)?,
    })
}

/// FPOpenFork of a data fork.
fn open_fork(alloc: Global, a: u64, b: u64) -> Result<Call<'static>, OutOfMemory>
    ensures call { IfOk result (λ call. call ≡ open_fork a b) }
    ensures spellable { IfOk result (λ call. IsSpellable call) }
{
    Ok(Call::OpenFork {
        flag: 0,
        volume: VOLUME,
        dir: ROOT,
        bits: 0,
        mode: (a % 4 + 16 * (b % 4)) as u16,
        path: path_to(alloc, a)?,
    })
}

/// FPCloseFork.
fn close_fork(a: u64) -> Call<'static>
    ensures call { result ≡ close_fork a }
    ensures spellable { IsSpellable result }
{
    Call::CloseFork {
        reference: reference_of(a),
    }
}

/// FPByteRangeLock of four bytes.
fn lock(a: u64, b: u64) -> Call<'static>
    ensures call { result ≡ lock a b }
    ensures spellable { IsSpellable result }
{
    Call::ByteRangeLock {
        flags: 0,
        reference: reference_of(a),
        offset: (b % 8) as i32,
        length: 4,
    }
}

/// One of the eight bytes that are written, by its place.
fn letter_at(place: u64) -> &'static [u8]
    ensures { result.now ≡ letter place }
{
    if place == 0 {
        b"a"
    } else if place == 1 {
        b"b"
    } else if place == 2 {
        b"c"
    } else if place == 3 {
        b"d"
    } else if place == 4 {
        b"e"
    } else if place == 5 {
        b"f"
    } else if place == 6 {
        b"g"
    } else {
        b"h"
    }
}

/// The byte that is written, by the number that was drawn for it.
#[tactic(auto, using(crate::proofs::OfRequests::LetterLemmas::drawn_letter))]
fn drawn_letter(number: u64) -> &'static [u8]
    ensures { result.now ≡ (0x61 + number % 8) ∷ [] }
{
    letter_at(number % 8)
}

/// FPWrite of one byte, behind the fork's end.
fn write(a: u64, b: u64) -> Call<'static>
    ensures call { result ≡ write a b }
    ensures spellable { IsSpellable result }
{
    Call::Write {
        flag: 0x80,
        reference: reference_of(a),
        offset: 0,
        count: 1,
        piece: Piece::new(drawn_letter(b)),
    }
}

/// FPEnumerateExt2 of the root.
fn enumerate(alloc: Global) -> Result<Call<'static>, OutOfMemory>
    ensures call { IfOk result (λ call. call ≡ enumerate) }
    ensures spellable { IfOk result (λ call. IsSpellable call) }
{
    Ok(Call::EnumerateExt2 {
        volume: VOLUME,
        dir: ROOT,
        file_bits: 0x0140,
        dir_bits: 0x0140,
        count: 16,
        start: 1,
        size: 4096,
        path: path_of(alloc, b"")?,
    })
}

/// The call of a step, by the numbers that were drawn for it. The one error is want of memory.
pub fn call_of(alloc: Global, o: u64, a: u64, b: u64) -> Result<Call<'static>, OutOfMemory>
    ensures call { IfOk result (λ call. call ≡ call_of o a b) }
    ensures spellable { IfOk result (λ call. IsSpellable call) }
{
    if o == 0 {
        create_file(alloc, a)
    } else if o == 1 {
        delete(alloc, a)
    } else if o == 2 {
        rename(alloc, a, b)
    } else if o == 3 {
        open_fork(alloc, a, b)
    } else if o == 4 {
        Ok(close_fork(a))
    } else if o == 5 {
        Ok(lock(a, b))
    } else if o == 6 {
        Ok(write(a, b))
    } else {
        enumerate(alloc)
    }
}

/// FPLogin without a user.
pub(crate) fn login(alloc: Global) -> Result<Call<'static>, OutOfMemory>
    ensures call { IfOk result (λ call. call ≡ login) }
    ensures spellable { IfOk result (λ call. IsSpellable call) }
{
    Ok(Call::Login {
        version: Bytes::of(alloc, b"AFP3.3")?,
        uam: Bytes::of(alloc, b"No User Authent")?,
        tail: Bytes::new(alloc),
    })
}

/// FPOpenVol, which asks the volume's id. The one error is want of memory.
pub fn open_volume_call(alloc: Global) -> Result<Call<'static>, OutOfMemory>
    ensures call { IfOk result (λ call. call ≡ open_volume) }
    ensures spellable { IfOk result (λ call. IsSpellable call) }
{
    Ok(Call::OpenVol {
        bits: 0x20,
        name: Bytes::of(alloc, b"Share")?,
    })
}
