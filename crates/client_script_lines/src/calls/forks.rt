//! Requests about open forks.
ghost use Rattle.std.specs.Prelude.{◌≡◌, ◌<◌, ◌≤◌, ◌^◌, length, IfOk};
ghost use Rattle.client_script_lines.specs.calls.Asked.{IsAskable};
ghost use Rattle.client_script_lines.specs.calls.Places.{IsPlace, longest_place};
ghost use Rattle.client_script_lines.specs.calls.Requests.{close_fork, lock, open_fork, open_resource_fork, read, unlock, write};

use crate::calls::path::{ROOT, path_of};
use afp_base::{ForkRef, OutOfMemory, VolumeId};
use afp_calls_grammar::{Call, Piece};
use std::alloc::Global;

/// FPOpenFork of a data fork.
#[tactic(auto, using(crate::proofs::OfCalls::AskableLemmas::askable_open_fork))]
pub fn open_fork(
    alloc: Global,
    volume: VolumeId,
    mode: u16,
    path: &[u8],
) -> Result<Call<'static>, OutOfMemory>
    requires { IsPlace path.now }
    ensures call { IfOk result (λ call. call ≡ open_fork volume mode path.now) }
    ensures askable { IfOk result (λ call. IsAskable call) }
{
    Ok(Call::OpenFork {
        flag: 0,
        volume,
        dir: ROOT,
        bits: 0,
        mode,
        path: path_of(alloc, path)?,
    })
}

/// FPOpenFork of a resource fork.
#[tactic(auto, using(crate::proofs::OfCalls::AskableLemmas::askable_open_fork))]
pub fn open_resource_fork(
    alloc: Global,
    volume: VolumeId,
    mode: u16,
    path: &[u8],
) -> Result<Call<'static>, OutOfMemory>
    requires { IsPlace path.now }
    ensures call { IfOk result (λ call. call ≡ open_resource_fork volume mode path.now) }
    ensures askable { IfOk result (λ call. IsAskable call) }
{
    Ok(Call::OpenFork {
        flag: 0x80,
        volume,
        dir: ROOT,
        bits: 0,
        mode,
        path: path_of(alloc, path)?,
    })
}

/// FPWrite at a fork's start.
#[tactic(auto, using(crate::proofs::OfCalls::AskableLemmas::askable_write))]
pub fn write<'a>(reference: ForkRef, piece: &'a [u8]) -> Call<'a>
    requires { length piece.now ≤ longest_place }
    ensures call { result ≡ write reference piece.now }
    ensures askable { IsAskable result }
{
    Call::Write {
        flag: 0,
        reference,
        offset: 0,
        count: piece.len() as u32,
        piece: Piece::new(piece),
    }
}

/// FPRead of 65,536 bytes from this one on.
#[tactic(auto, using(crate::proofs::OfCalls::AskableLemmas::askable_read))]
pub fn read(reference: ForkRef, from: u32) -> Call<'static>
    requires { from < 2 ^ 31 }
    ensures call { result ≡ read reference from }
    ensures askable { IsAskable result }
{
    Call::Read {
        reference,
        offset: from as i32,
        count: 65_536,
        mask: 0,
        character: 0,
    }
}

/// FPCloseFork.
#[tactic(auto, using(crate::proofs::OfCalls::AskableLemmas::askable_close_fork))]
pub fn close_fork(reference: ForkRef) -> Call<'static>
    ensures call { result ≡ close_fork reference }
    ensures askable { IsAskable result }
{
    Call::CloseFork { reference }
}

/// FPByteRangeLockExt of a range from the fork's start.
#[tactic(auto, using(crate::proofs::OfCalls::AskableLemmas::askable_lock))]
pub fn lock(reference: ForkRef, from: u64, size: u64) -> Call<'static>
    requires from { from < 2 ^ 63 }
    requires size { size < 2 ^ 63 }
    ensures call { result ≡ lock reference from size }
    ensures askable { IsAskable result }
{
    Call::ByteRangeLockExt {
        flags: 0,
        reference,
        offset: from as i64,
        length: size as i64,
    }
}

/// The same, which unlocks it.
#[tactic(auto, using(crate::proofs::OfCalls::AskableLemmas::askable_lock))]
pub fn unlock(reference: ForkRef, from: u64, size: u64) -> Call<'static>
    requires from { from < 2 ^ 63 }
    requires size { size < 2 ^ 63 }
    ensures call { result ≡ unlock reference from size }
    ensures askable { IsAskable result }
{
    Call::ByteRangeLockExt {
        flags: 1,
        reference,
        offset: from as i64,
        length: size as i64,
    }
}
