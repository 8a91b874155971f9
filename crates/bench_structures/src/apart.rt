//! What the standard library alone takes: the shift of a vector's tail, a halving, and a copy of bytes.
use crate::changes::CALLS;
use crate::volume::{ROOT, node};
use crate::watch::{each, scattered, spent};
use afp_base::{Bytes, NodeId};
use afp_names::Name;
use node_rows::{Child, Node};
use std::io;

/// The first element taken out and put in again.
fn shift<T: Drop>(rt: &HostRuntime, list: &mut Vec<T>) -> io::Result<u64> {
    let since = spent(rt)?;
    let mut done: u32 = 0;
    for _turn in 0..CALLS {
        if !list.is_empty() {
            let first = list.remove(0);
            list.insert(0, first)?;
            done = done.saturating_add(1);
        }
    }
    each(rt, since, CALLS, done)
}

/// In a vector of so many children.
pub fn children(rt: &HostRuntime, count: u32) -> io::Result<u64> {
    let mut list = Vec::new(rt.alloc());
    for number in 0..count {
        list.push(Child {
            parent: ROOT,
            key: Bytes::new(rt.alloc()),
            id: NodeId(number),
        })?;
    }
    shift(rt, &mut list)
}

/// A vector of so many nodes, by rising id.
fn nodes_of(rt: &HostRuntime, count: u32) -> io::Result<Vec<Node>> {
    let mut list = Vec::new(rt.alloc());
    for number in 0..count {
        if let Ok(name) = Name::new(rt.alloc(), b"n") {
            list.push(node(NodeId(number), ROOT, name))?;
        }
    }
    Ok(list)
}

/// In a vector of so many nodes.
pub fn nodes(rt: &HostRuntime, count: u32) -> io::Result<u64> {
    let mut list = nodes_of(rt, count)?;
    shift(rt, &mut list)
}

/// How often a place is sought by halving.
const LOOKS: u32 = 200_000;

fn place_of(list: &[Node], id: u32) -> usize {
    list.partition_point(|node| node.id.0 < id)
}

/// The place of a node by halving, in a vector of so many. The ids jump about.
pub fn halving(rt: &HostRuntime, count: u32) -> io::Result<u64> {
    let list = nodes_of(rt, count)?;
    let since = spent(rt)?;
    let mut done: u32 = 0;
    for turn in 0..LOOKS {
        let id = scattered(turn, count);
        if place_of(list.as_slice(), id) == id as usize {
            done = done.saturating_add(1);
        }
    }
    each(rt, since, LOOKS, done)
}

/// The bytes that are copied at a time.
const PIECE: usize = 65_536;

/// Copies a piece from a place of a list.
fn copy_piece(list: &[u8], from: usize, out: &mut Vec<u8>) -> io::Result<u32> {
    out.truncate(0);
    if list.len() < PIECE || from > list.len() - PIECE {
        return Ok(0);
    }
    out.extend_from_slice(&list[from..from + PIECE])?;
    Ok(1)
}

/// A list of bytes that has so many pieces.
fn bytes_of(rt: &HostRuntime, pieces: u32) -> io::Result<Vec<u8>> {
    let mut list: Vec<u8> = Vec::new(rt.alloc());
    for _turn in 0..pieces {
        list.extend_from_slice(&[1; PIECE])?;
    }
    Ok(list)
}

/// A copy of 64 KiB out of so many pieces. They jump about, or are always the one in the middle.
pub fn copies(rt: &HostRuntime, pieces: u32, jumps: bool) -> io::Result<u64> {
    let list = bytes_of(rt, pieces)?;
    let mut out = Vec::new(rt.alloc());
    let since = spent(rt)?;
    let mut done: u32 = 0;
    for turn in 0..CALLS {
        let number = if jumps {
            scattered(turn, pieces)
        } else {
            pieces / 2
        };
        let from = number as usize * PIECE;
        done = done.saturating_add(copy_piece(list.as_slice(), from, &mut out)?);
    }
    each(rt, since, CALLS, done)
}
