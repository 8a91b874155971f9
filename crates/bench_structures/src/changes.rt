//! What changes of a volume take.
use crate::volume::{ROOT, add, numbered, rename};
use crate::watch::{each, spent};
use afp_base::OutOfMemory;
use node_rows::Rows;
use std::io;
use std::io::ErrorKind;

/// How often each is done.
pub const CALLS: u32 = 400;

fn is_done(done: Result<bool, OutOfMemory>) -> io::Result<u32> {
    match done {
        Ok(done) => Ok(u32::from(done)),
        Err(OutOfMemory) => Err(io::Error::from(ErrorKind::OutOfMemory)),
    }
}

/// A name and its key made, as each of the changes does it.
pub fn names(rt: &HostRuntime) -> io::Result<u64> {
    let since = spent(rt)?;
    let mut done: u32 = 0;
    for number in 0..CALLS {
        let made = match numbered(rt.alloc(), 'n', number) {
            Ok(named) => Ok(named.is_some()),
            Err(error) => Err(error),
        };
        done = done.saturating_add(is_done(made)?);
    }
    each(rt, since, CALLS, done)
}

/// A node that comes last, or first.
pub fn create(rt: &HostRuntime, rows: &mut Rows, letter: char) -> io::Result<u64> {
    let since = spent(rt)?;
    let mut done: u32 = 0;
    for number in 0..CALLS {
        done = done.saturating_add(is_done(add(rt.alloc(), rows, letter, number))?);
    }
    each(rt, since, CALLS, done)
}

/// Another name for the last child of the root, or for the first, by which it stays at its place.
pub fn rename_child(
    rt: &HostRuntime,
    rows: &mut Rows,
    last: bool,
    letter: char,
) -> io::Result<u64> {
    let place = if last {
        rows.count().saturating_sub(2)
    } else {
        0
    };
    let since = spent(rt)?;
    let mut done: u32 = 0;
    for number in 0..CALLS {
        if let Some(id) = rows.nth(ROOT, place) {
            done = done.saturating_add(is_done(rename(rt.alloc(), rows, id, letter, number))?);
        }
    }
    each(rt, since, CALLS, done)
}

/// The last child of the root, or the first, goes.
pub fn remove(rt: &HostRuntime, rows: &mut Rows, last: bool) -> io::Result<u64> {
    let since = spent(rt)?;
    let mut done: u32 = 0;
    for _turn in 0..CALLS {
        let place = if last {
            rows.count().saturating_sub(2)
        } else {
            0
        };
        if let Some(id) = rows.nth(ROOT, place) {
            rows.remove(id);
            done = done.saturating_add(1);
        }
    }
    each(rt, since, CALLS, done)
}
