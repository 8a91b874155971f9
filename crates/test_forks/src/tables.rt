//! The table of open forks.
use crate::keys::{fork, mode, range, reference};
use crate::line::{Kind, Line};
use crate::locks::{lock_word, unlock_word};
use afp_base::{ForkRef, MOST_OPENS, SessionNumber, VolumeId};
use fork_table::{ForkTable, OpenFault};

/// Why a fork is not opened.
pub fn fault_word(fault: OpenFault) -> &'static str {
    match fault {
        OpenFault::Deny => "denied",
        OpenFault::TooMany => "too many",
        OpenFault::Memory => "no memory",
    }
}

/// Opens a fork for a session.
pub fn open(table: &mut ForkTable, line: &Line<'_>) -> Result<ForkRef, OpenFault> {
    let [session, node, bits, _] = line.numbers;
    if table.count() >= MOST_OPENS {
        return Err(OpenFault::TooMany);
    }
    table.open(SessionNumber(session), fork(node), mode(bits))
}

/// Opens a fork so many times: the last reference, where they rise from 1.
pub fn open_many(table: &mut ForkTable, line: &Line<'_>) -> Result<ForkRef, OpenFault> {
    let mut last = ForkRef(0);
    for number in 1..line.numbers[3].saturating_add(1) {
        let r = open(table, line)?;
        if u64::from(r.0) != number {
            return Ok(r);
        }
        last = r;
    }
    Ok(last)
}

fn lock(
    table: &mut ForkTable,
    session: SessionNumber,
    r: ForkRef,
    from: u64,
    to: u64,
) -> &'static str {
    if table.get(session, r).is_none() {
        return "not open";
    }
    lock_word(table.lock(r, range(from, to)))
}

fn unlock(
    table: &mut ForkTable,
    session: SessionNumber,
    r: ForkRef,
    from: u64,
    to: u64,
) -> &'static str {
    if table.get(session, r).is_none() {
        return "not open";
    }
    unlock_word(table.unlock(r, range(from, to)))
}

/// Changes the table.
pub fn change(table: &mut ForkTable, line: &Line<'_>) -> &'static str {
    let [first, second, from, to] = line.numbers;
    let session = SessionNumber(first);
    match line.kind {
        Kind::OwnLock => lock(table, session, reference(second), from, to),
        Kind::OwnUnlock => unlock(table, session, reference(second), from, to),
        Kind::Close => {
            table.close(reference(first));
            "closed"
        }
        Kind::CloseVolume => {
            table.close_volume(session, VolumeId(1));
            "closed"
        }
        Kind::CloseSession => {
            table.close_session(session);
            "closed"
        }
        _ => {
            table.swap(&fork(first), &fork(second));
            "exchanged"
        }
    }
}

fn blocked(table: &ForkTable, line: &Line<'_>) -> bool {
    let [session, r, from, to] = line.numbers;
    let r = reference(r);
    if table.get(SessionNumber(session), r).is_none() {
        return false;
    }
    let range = range(from, to);
    table.blocks(r, &range)
}

/// Whether a fork of that node of volume 1 is open: its data fork at 0, its resource fork at 1, either at other numbers.
fn opened(table: &ForkTable, line: &Line<'_>) -> bool {
    let [node, which, _, _] = line.numbers;
    let node = fork(node).node;
    let opens = table.on(VolumeId(1));
    match which {
        0 => opens.has_fork(node, false),
        1 => opens.has_fork(node, true),
        _ => opens.has_node(node),
    }
}

/// What is asked of the table, and is so or not.
pub fn asked(table: &ForkTable, line: &Line<'_>) -> bool {
    let [first, second, _, _] = line.numbers;
    match line.kind {
        Kind::Get => table.get(SessionNumber(first), reference(second)).is_some(),
        Kind::Busy => table.busy(&fork(first)),
        Kind::MayOpen => table.may_open(&fork(first), &mode(second)),
        Kind::Opened => opened(table, line),
        _ => blocked(table, line),
    }
}
