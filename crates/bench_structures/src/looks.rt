//! What looks into a volume take.
use crate::volume::ROOT;
use crate::watch::{each, scattered, spent};
use afp_base::{Bytes, NodeId};
use node_rows::Rows;
use std::alloc::Global;
use std::io;

/// How often each is asked.
const CALLS: u32 = 200_000;

/// How many keys are asked for.
const KEYS: usize = 4096;

fn children(rows: &Rows) -> u32 {
    (rows.count().saturating_sub(1) % 1_000_000) as u32
}

/// A node by its id. The ids jump about, or come in turn.
pub fn by_id(rt: &HostRuntime, rows: &Rows, jumps: bool) -> io::Result<u64> {
    let bound = children(rows).max(1);
    let since = spent(rt)?;
    let mut found: u32 = 0;
    for turn in 0..CALLS {
        let i = if jumps {
            scattered(turn, bound)
        } else {
            turn % bound
        };
        if rows.get(NodeId(i.saturating_add(17))).is_some() {
            found = found.saturating_add(1);
        }
    }
    each(rt, since, CALLS, found)
}

/// A node by its id, three times one after the other, as a call asks for it to judge, to tell its record and to change it. The ids jump about.
pub fn by_id_again(rt: &HostRuntime, rows: &Rows) -> io::Result<u64> {
    let bound = children(rows).max(1);
    let since = spent(rt)?;
    let mut found: u32 = 0;
    for turn in 0..CALLS {
        let i = scattered(turn / 3, bound);
        if rows.get(NodeId(i.saturating_add(17))).is_some() {
            found = found.saturating_add(1);
        }
    }
    each(rt, since, CALLS, found)
}

/// Keys of children of the root, in an order that jumps about, or from the first on.
fn keys(alloc: Global, rows: &Rows, jumps: bool) -> io::Result<Vec<Bytes>> {
    let mut keys = Vec::new(alloc);
    let all = rows.children();
    let bound = children(rows).max(1);
    for turn in 0..KEYS as u32 {
        let place = if jumps {
            scattered(turn, bound)
        } else {
            turn % bound
        };
        let i = 1 + place as usize;
        if i < all.len() {
            let mut key = Bytes::new(alloc);
            if key.extend(all[i].key.as_slice()).is_ok() {
                keys.push(key)?;
            }
        }
    }
    Ok(keys)
}

/// How many of the keys are a child's of the root.
fn found_by_key(rows: &Rows, keys: &[Bytes]) -> u32 {
    let mut found: u32 = 0;
    for key in keys {
        if rows.child(ROOT, key.as_slice()).is_some() {
            found = found.saturating_add(1);
        }
    }
    found
}

/// A node by its parent and the key of its name. The keys jump about, or come in turn.
pub fn by_key(rt: &HostRuntime, rows: &Rows, jumps: bool) -> io::Result<u64> {
    let keys = keys(rt.alloc(), rows, jumps)?;
    let since = spent(rt)?;
    let mut found: u32 = 0;
    for _turn in 0..CALLS / KEYS as u32 {
        found = found.saturating_add(found_by_key(rows, keys.as_slice()));
    }
    each(rt, since, CALLS / KEYS as u32 * KEYS as u32, found)
}

/// A child of the root by its place. The places jump about, or come in turn.
pub fn nth(rt: &HostRuntime, rows: &Rows, jumps: bool) -> io::Result<u64> {
    let bound = children(rows).max(1);
    let since = spent(rt)?;
    let mut found: u32 = 0;
    for turn in 0..CALLS {
        let i = if jumps {
            scattered(turn, bound)
        } else {
            turn % bound
        };
        if rows.nth(ROOT, i as usize).is_some() {
            found = found.saturating_add(1);
        }
    }
    each(rt, since, CALLS, found)
}

/// The place of a directory of the root behind others of its kind. How many others there are jumps about, or comes in turn.
pub fn place_behind(rt: &HostRuntime, rows: &Rows, jumps: bool) -> io::Result<u64> {
    let bound = children(rows).max(1);
    let since = spent(rt)?;
    let mut found: u32 = 0;
    for turn in 0..CALLS {
        let i = if jumps {
            scattered(turn, bound)
        } else {
            turn % bound
        };
        if rows.place_behind(ROOT, false, 0, i as usize).is_some() {
            found = found.saturating_add(1);
        }
    }
    each(rt, since, CALLS, found)
}
