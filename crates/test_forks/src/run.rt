//! What comes of lines.
use crate::line::{Kind, Line, line_of};
use crate::{forks, locks, opens, tables};
use afp_base::OutOfMemory;
use deny_modes::Opens;
use fork_bytes::Fork;
use fork_table::ForkTable;
use range_locks::Locks;
use std::alloc::Global;
use test_lines::{AnswersLines, LineResult};

/// A fork, opens, locks and a table of open forks. None knows of another.
#[derive(Drop)]
pub struct Run {
    fork: Fork,
    opens: Opens,
    locks: Locks,
    table: ForkTable,
}

fn yes(holds: bool) -> LineResult {
    LineResult::Word(if holds { "yes" } else { "no" })
}

/// What comes of a line on the bytes of a fork.
fn of_fork(alloc: Global, fork: &mut Fork, line: &Line<'_>) -> Result<LineResult, OutOfMemory> {
    match line.kind {
        Kind::Write | Kind::Resize => Ok(LineResult::Number(
            forks::change(alloc, fork, line)? as u64,
        )),
        Kind::Read | Kind::Line => Ok(LineResult::Bytes(forks::read(alloc, fork, line)?)),
        Kind::Stopped | Kind::Blocks | Kind::CopyLength => {
            Ok(LineResult::Number(forks::count(alloc, fork, line)?))
        }
        _ => Ok(LineResult::Number(forks::planned(alloc, fork, line)?)),
    }
}

/// What comes of a line on the opens.
fn of_opens(opens: &mut Opens, line: &Line<'_>) -> Result<LineResult, OutOfMemory> {
    match line.kind {
        Kind::May => Ok(yes(opens::may(opens, line))),
        Kind::Counter => match opens::counter(opens, line) {
            Some(count) => Ok(LineResult::Number(count)),
            None => Ok(LineResult::Nothing),
        },
        _ => Ok(yes(opens::change(opens, line)?)),
    }
}

/// What comes of a line on the locks.
fn of_locks(locks: &mut Locks, line: &Line<'_>) -> LineResult {
    match line.kind {
        Kind::Blocked => yes(locks::blocked(locks, line)),
        Kind::Intervals => LineResult::Number(locks::intervals(locks, line) as u64),
        _ => LineResult::Word(locks::change(locks, line)),
    }
}

/// What comes of an open.
fn of_open(table: &mut ForkTable, line: &Line<'_>) -> LineResult {
    let opened = if line.kind == Kind::Open {
        tables::open(table, line)
    } else {
        tables::open_many(table, line)
    };
    match opened {
        Ok(r) => LineResult::Number(u64::from(r.0)),
        Err(fault) => LineResult::Word(tables::fault_word(fault)),
    }
}

/// What comes of a line on the table of open forks.
fn of_table(table: &mut ForkTable, line: &Line<'_>) -> LineResult {
    match line.kind {
        Kind::Open | Kind::OpenMany => of_open(table, line),
        Kind::Get | Kind::Busy | Kind::MayOpen | Kind::Opened | Kind::OwnBlocked => {
            yes(tables::asked(table, line))
        }
        _ => LineResult::Word(tables::change(table, line)),
    }
}

impl Run {
    pub fn new(alloc: Global) -> Run {
        Run {
            fork: Fork::new(alloc),
            opens: Opens::new(alloc),
            locks: Locks::new(alloc),
            table: ForkTable::new(alloc),
        }
    }

    /// What comes of a line.
    fn run(&mut self, alloc: Global, line: &Line<'_>) -> Result<LineResult, OutOfMemory> {
        match line.kind {
            Kind::New => {
                *self = Run::new(alloc);
                Ok(LineResult::Nothing)
            }
            Kind::May | Kind::Note | Kind::Forget | Kind::Counter | Kind::SwapOpens => {
                of_opens(&mut self.opens, line)
            }
            Kind::Lock
            | Kind::LockMany
            | Kind::Unlock
            | Kind::Blocked
            | Kind::Intervals
            | Kind::ForgetLocks
            | Kind::SwapLocks => Ok(of_locks(&mut self.locks, line)),
            Kind::Write
            | Kind::Resize
            | Kind::PlanIndex
            | Kind::PlanBytes
            | Kind::PlanLength
            | Kind::PlanWrites
            | Kind::Read
            | Kind::Line
            | Kind::Stopped
            | Kind::Blocks
            | Kind::CopyLength => of_fork(alloc, &mut self.fork, line),
            _ => Ok(of_table(&mut self.table, line)),
        }
    }
}

impl AnswersLines for Run {
    fn answer(&mut self, alloc: Global, words: &[&str]) -> Result<Option<LineResult>, OutOfMemory> {
        match line_of(words) {
            Some(line) => Ok(Some(self.run(alloc, &line)?)),
            None => Ok(None),
        }
    }
}
