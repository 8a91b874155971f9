//! Byte-range locks.
use crate::keys::{fork, range, reference};
use crate::line::{Kind, Line};
use range_locks::{LockFault, Locks, NotLocked, Range};

/// How a lock went.
pub fn lock_word(done: Result<(), LockFault>) -> &'static str {
    match done {
        Ok(()) => "locked",
        Err(LockFault::Locked) => "another's",
        Err(LockFault::Overlap) => "overlaps",
        Err(LockFault::Full) => "full",
        Err(LockFault::Memory) => "no memory",
    }
}

/// How an unlock went.
pub fn unlock_word(done: Result<(), NotLocked>) -> &'static str {
    match done {
        Ok(()) => "unlocked",
        Err(NotLocked) => "not locked",
    }
}

/// Locks so many single bytes, each two behind the one before it, up to the first that is refused.
fn lock_many(locks: &mut Locks, line: &Line<'_>) -> Result<(), LockFault> {
    for k in 0..line.numbers[2] % 65536 {
        let byte = range(2 * k, 2 * k);
        locks.lock(&fork(line.numbers[0]), reference(line.numbers[1]), byte)?;
    }
    Ok(())
}

/// Changes the locks.
pub fn change(locks: &mut Locks, line: &Line<'_>) -> &'static str {
    let [first, second, from, to] = line.numbers;
    match line.kind {
        Kind::Lock => lock_word(locks.lock(&fork(first), reference(second), range(from, to))),
        Kind::LockMany => lock_word(lock_many(locks, line)),
        Kind::Unlock => unlock_word(locks.unlock(&fork(first), reference(second), range(from, to))),
        Kind::ForgetLocks => {
            locks.forget(reference(first));
            "gone"
        }
        _ => {
            locks.swap(&fork(first), &fork(second));
            "exchanged"
        }
    }
}

/// Whether another reference's lock meets a range.
pub fn blocked(locks: &Locks, line: &Line<'_>) -> bool {
    let [node, r, from, to] = line.numbers;
    let range: Range = range(from, to);
    locks.blocks(&fork(node), reference(r), &range)
}

/// How many locks a fork has.
pub fn intervals(locks: &Locks, line: &Line<'_>) -> usize {
    locks.intervals(&fork(line.numbers[0])).len()
}
