//! What a read and a write of 64 KiB take in a fork.
use crate::watch::{each, scattered, spent};
use afp_base::{Bytes, MOST_FORK_BYTES, OutOfMemory, limits_are_told};
use fork_bytes::Fork;
use std::alloc::Global;
use std::io;
use std::io::ErrorKind;

/// How often each is done.
const CALLS: u32 = 1000;

/// The bytes of a read and of a write.
const PIECE: u32 = 65_536;

fn piece(alloc: Global, byte: u8) -> Result<Bytes, OutOfMemory> {
    let mut piece = Bytes::new(alloc);
    for _turn in 0..PIECE / 256 {
        piece.extend(&[byte; 256])?;
    }
    Ok(piece)
}

/// Writes a piece. It tells whether it lies within the largest fork.
fn write(alloc: Global, fork: &mut Fork, from: u64, piece: &[u8]) -> Result<bool, OutOfMemory> {
    limits_are_told();
    if from > MOST_FORK_BYTES || piece.len() as u64 > MOST_FORK_BYTES - from {
        return Ok(false);
    }
    let plan = fork.plan_write(alloc, from, piece)?;
    fork.apply(plan);
    Ok(true)
}

/// A fork of so many pieces.
pub fn fork(alloc: Global, pieces: u32) -> Result<Fork, OutOfMemory> {
    let mut fork = Fork::new(alloc);
    let piece = piece(alloc, 1)?;
    for number in 0..pieces {
        let _ = write(
            alloc,
            &mut fork,
            u64::from(number) * u64::from(PIECE),
            piece.as_slice(),
        )?;
    }
    Ok(fork)
}

/// The place of a piece: somewhere in a fork, or always in its middle.
fn place(fork: &Fork, turn: u32, jumps: bool) -> u64 {
    let pieces = (fork.len() / u64::from(PIECE) % 65536) as u32;
    let number = if jumps {
        scattered(turn, pieces)
    } else {
        pieces / 2
    };
    u64::from(number) * u64::from(PIECE)
}

fn read_once(fork: &Fork, from: u64, out: &mut Bytes) -> io::Result<u32> {
    out.truncate(0);
    match fork.read(from, PIECE, out) {
        Ok(()) => Ok(u32::from(out.as_slice().len() == PIECE as usize)),
        Err(OutOfMemory) => Err(io::Error::from(ErrorKind::OutOfMemory)),
    }
}

/// A read. The places jump about, or are one.
pub fn reads(rt: &HostRuntime, fork: &Fork, jumps: bool) -> io::Result<u64> {
    let mut out = Bytes::new(rt.alloc());
    let since = spent(rt)?;
    let mut done: u32 = 0;
    for turn in 0..CALLS {
        done = done.saturating_add(read_once(fork, place(fork, turn, jumps), &mut out)?);
    }
    each(rt, since, CALLS, done)
}

fn write_once(rt: &HostRuntime, fork: &mut Fork, from: u64, piece: &[u8]) -> io::Result<u32> {
    match write(rt.alloc(), fork, from, piece) {
        Ok(done) => Ok(u32::from(done)),
        Err(OutOfMemory) => Err(io::Error::from(ErrorKind::OutOfMemory)),
    }
}

/// Writes a piece at each turn, one of two that differ.
fn write_all(
    rt: &HostRuntime,
    fork: &mut Fork,
    jumps: bool,
    odd: &[u8],
    even: &[u8],
) -> io::Result<u32> {
    let mut done: u32 = 0;
    for turn in 0..CALLS {
        let from = place(fork, turn, jumps);
        let piece = if turn % 2 == 0 { even } else { odd };
        done = done.saturating_add(write_once(rt, fork, from, piece)?);
    }
    Ok(done)
}

/// A write over bytes that differ from it. The places jump about, or are one.
pub fn writes(rt: &HostRuntime, fork: &mut Fork, jumps: bool) -> io::Result<u64> {
    let (Ok(odd), Ok(even)) = (piece(rt.alloc(), 3), piece(rt.alloc(), 2)) else {
        return Err(io::Error::from(ErrorKind::OutOfMemory));
    };
    let since = spent(rt)?;
    let done = write_all(rt, fork, jumps, odd.as_slice(), even.as_slice())?;
    each(rt, since, CALLS, done)
}
