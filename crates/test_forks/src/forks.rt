//! The bytes of a fork.
ghost use Rattle.std.specs.Prelude.{ℕ, List, IfOk};
ghost use Rattle.fork_bytes.specs.Plan.{IsForkPlan};

use crate::line::{Kind, Line};
use afp_base::{Bytes, MOST_FORK_BYTES, OutOfMemory, limits_are_told};
use fork_bytes::{Fork, ForkPlan};
use std::alloc::Global;
use test_lines::lines::bytes_of;

/// The plan of a write of bytes; of no bytes, where they would lie behind the largest fork.
fn plan(alloc: Global, fork: &Fork, from: u64, piece: &[u8]) -> Result<ForkPlan, OutOfMemory>
    ensures { IfOk result (λ plan. (after : List ℕ) × IsForkPlan fork.now after plan) }
{
    limits_are_told();
    if from > MOST_FORK_BYTES || piece.len() as u64 > MOST_FORK_BYTES - from {
        return fork.plan_write(alloc, 0, &[]);
    }
    fork.plan_write(alloc, from, piece)
}

/// Writes bytes, and tells how many blocks differ.
fn write(alloc: Global, fork: &mut Fork, from: u64, digits: &str) -> Result<usize, OutOfMemory> {
    let piece = bytes_of(alloc, digits);
    let plan = plan(alloc, fork, from, piece.as_slice())?;
    let count = plan.count();
    fork.apply(plan);
    Ok(count)
}

/// What is told of a plan: the index of the first block that differs, or how many bytes it has, the length, or whether it writes.
fn told_of(plan: &ForkPlan, kind: Kind) -> u64 {
    match kind {
        Kind::PlanLength => plan.len(),
        Kind::PlanWrites => u64::from(plan.writes()),
        _ => {
            if plan.count() == 0 {
                return 0;
            }
            let (index, bytes) = plan.change(0);
            if kind == Kind::PlanIndex {
                u64::from(index)
            } else {
                bytes.len() as u64
            }
        }
    }
}

/// What is told of the plan of a write that is not carried out.
pub fn planned(alloc: Global, fork: &Fork, line: &Line<'_>) -> Result<u64, OutOfMemory> {
    let piece = bytes_of(alloc, line.text);
    let plan = plan(alloc, fork, line.numbers[0], piece.as_slice())?;
    Ok(told_of(&plan, line.kind))
}

/// Sets the length, and tells how many blocks differ.
fn resize(alloc: Global, fork: &mut Fork, len: u64) -> Result<usize, OutOfMemory> {
    limits_are_told();
    if len > MOST_FORK_BYTES {
        return Ok(0);
    }
    let plan = fork.plan_set_length(alloc, len)?;
    let count = plan.count();
    fork.apply(plan);
    Ok(count)
}

/// Changes the fork, and tells how many blocks differ.
pub fn change(alloc: Global, fork: &mut Fork, line: &Line<'_>) -> Result<usize, OutOfMemory> {
    match line.kind {
        Kind::Write => write(alloc, fork, line.numbers[0], line.text),
        _ => resize(alloc, fork, line.numbers[0]),
    }
}

/// At most 10 bytes from a place on, or the line that begins there.
pub fn read(alloc: Global, fork: &Fork, line: &Line<'_>) -> Result<Bytes, OutOfMemory> {
    let mut out = Bytes::new(alloc);
    if line.kind == Kind::Read {
        fork.read(line.numbers[0], 10, &mut out)?;
    } else {
        fork.read_line(line.numbers[0], 10, 0x7f, 0x0d, &mut out)?;
    }
    Ok(out)
}

/// What is counted of a fork: its blocks, a copy's bytes, or the lines that stop at their character.
pub fn count(alloc: Global, fork: &Fork, line: &Line<'_>) -> Result<u64, OutOfMemory> {
    match line.kind {
        Kind::Blocks => Ok(fork.blocks().len() as u64),
        Kind::CopyLength => Ok(fork.copy(alloc)?.len()),
        _ => {
            let mut out = Bytes::new(alloc);
            let stopped = fork.read_line(line.numbers[0], 10, 0x7f, 0x0d, &mut out)?;
            Ok(u64::from(stopped))
        }
    }
}
