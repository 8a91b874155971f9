//! Many nodes made, found, renamed and removed. Each tells how many.
use crate::volume::{add, move_to};
use afp_base::{NodeId, OutOfMemory};
use node_rows::{Node, Rows};
use std::alloc::Global;

/// Adds nodes to a directory, named by a word and their numbers from 0 on.
pub fn fill(
    alloc: Global,
    rows: &mut Rows,
    dir: NodeId,
    count: u32,
    word: &str,
) -> Result<u32, OutOfMemory> {
    let mut made: u32 = 0;
    for i in 0..count {
        let name = format!(in alloc; "{word}{i:05}")?;
        if add(alloc, rows, dir, name.as_str())?.is_some() {
            made = made.saturating_add(1);
        }
    }
    Ok(made)
}

/// Fills each child of a directory, from the first to the last.
pub fn fill_each(
    alloc: Global,
    rows: &mut Rows,
    dir: NodeId,
    count: u32,
    word: &str,
) -> Result<u32, OutOfMemory> {
    let mut made: u32 = 0;
    for i in 0..listed(rows, dir) {
        if let Some(child) = rows.nth(dir, i) {
            made = made.saturating_add(fill(alloc, rows, child, count, word)?);
        }
    }
    Ok(made)
}

/// Whether a node is found by its id, and by its parent and the key of its name.
fn is_found(alloc: Global, rows: &Rows, node: &Node) -> Result<bool, OutOfMemory> {
    let key = node.name.key(alloc)?;
    let child = rows.child(node.parent, key.as_slice());
    Ok(rows.get(node.id).is_some() && child == Some(node.id))
}

/// The nodes that are found.
pub fn found(alloc: Global, rows: &Rows) -> Result<u32, OutOfMemory> {
    let mut found: u32 = 0;
    for node in rows.nodes() {
        if is_found(alloc, rows, node)? {
            found = found.saturating_add(1);
        }
    }
    Ok(found)
}

/// The children of a directory, each asked for by its place.
pub fn listed(rows: &Rows, dir: NodeId) -> usize {
    for i in 0..rows.count() {
        if rows.nth(dir, i).is_none() {
            return i;
        }
    }
    rows.count()
}

/// Names the children of a directory by a word and their ids, from the last of them to the one at a place.
pub fn rename(
    alloc: Global,
    rows: &mut Rows,
    dir: NodeId,
    from: usize,
    word: &str,
) -> Result<u32, OutOfMemory> {
    let mut renamed: u32 = 0;
    for i in (from..listed(rows, dir)).rev() {
        if let Some(id) = rows.nth(dir, i) {
            let number = id.0;
            let name = format!(in alloc; "{word}{number:06}")?;
            if move_to(alloc, rows, id, dir, name.as_str())?.is_some() {
                renamed = renamed.saturating_add(1);
            }
        }
    }
    Ok(renamed)
}

/// Removes children of a directory, from the last to the one at a place.
pub fn clear(rows: &mut Rows, dir: NodeId, from: usize) -> u32 {
    let mut removed: u32 = 0;
    for i in (from..listed(rows, dir)).rev() {
        if let Some(id) = rows.nth(dir, i) {
            rows.remove(id);
            removed = removed.saturating_add(1);
        }
    }
    removed
}
