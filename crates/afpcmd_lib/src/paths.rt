//! Paths of the server, and paths that a person types.
//!
//! A person's path is names parted by `/`, of which the first is a volume's; each name is as the local name would be.
ghost use Rattle.std.specs.Prelude.{◌≡◌, IfOk};
ghost use Rattle.client_script_lines.specs.calls.Places.{IsPlace};

use crate::trouble::Trouble;
use afp_base::{Bytes, OutOfMemory, rest_of};
use afp_names::{Path, PathFault, UTF8_NAMES};
use client_files::server_name;
use line_words::parts_at;
use std::alloc::Global;

/// The most bytes of a path.
const LONGEST: usize = 4096;

/// A path in a volume: names in UTF-8, parted by zero bytes; none: the root.
#[derive(Drop)]
pub(crate) struct RemotePath {
    bytes: Bytes,
    ghost placed: { IsPlace bytes },
}

/// A path that the requests take.
fn placed(alloc: Global, text: Bytes) -> Result<Bytes, Trouble>
    ensures { IfOk result (λ place. IsPlace place) }
{
    if text.as_slice().len() > LONGEST {
        return Err(Trouble::Bad("the path is longer than 4,096 bytes"));
    }
    match Path::read(alloc, UTF8_NAMES, text.as_slice()) {
        Ok(_) => Ok(text),
        Err(fault) => match fault {
            PathFault::Memory => Err(Trouble::Memory),
            _ => Err(Trouble::Bad("a name of the path is longer than 255 bytes")),
        },
    }
}

impl RemotePath {
    /// The path of these bytes.
    pub(crate) fn read(alloc: Global, text: Bytes) -> Result<RemotePath, Trouble> {
        let bytes = placed(alloc, text)?;
        Ok(RemotePath { bytes })
    }

    /// Its bytes.
    pub(crate) fn as_slice(&self) -> &[u8]
        ensures { IsPlace result.now }
    {
        self.bytes.as_slice()
    }

    /// Whether it is the volume's root.
    pub(crate) fn is_root(&self) -> bool {
        self.bytes.as_slice().is_empty()
    }

    /// The path of a name of the server in this directory.
    pub(crate) fn join(&self, alloc: Global, name: &[u8]) -> Result<RemotePath, Trouble> {
        let text = joined(alloc, self.bytes.as_slice(), name)?;
        RemotePath::read(alloc, text)
    }

    /// The directory that this is in.
    pub(crate) fn parent(&self, alloc: Global) -> Result<RemotePath, Trouble> {
        let text = Bytes::of(alloc, parent_of(self.bytes.as_slice()))?;
        RemotePath::read(alloc, text)
    }

    /// Its last name, as a path.
    pub(crate) fn last(&self, alloc: Global) -> Result<RemotePath, Trouble> {
        let text = Bytes::of(alloc, last_of(self.bytes.as_slice()))?;
        RemotePath::read(alloc, text)
    }
}

/// The place of the last zero byte.
fn last_zero(bytes: &[u8]) -> Option<usize> {
    let mut last = None;
    for (at, byte) in bytes.iter().enumerate() {
        if *byte == 0 {
            last = Some(at);
        }
    }
    last
}

/// The bytes before a place, all where it lies behind them.
fn front_of(bytes: &[u8], to: usize) -> &[u8] {
    &bytes[..to.min(bytes.len())]
}

/// What stands before the last name.
pub(crate) fn parent_of(bytes: &[u8]) -> &[u8] {
    match last_zero(bytes) {
        Some(at) => front_of(bytes, at),
        None => front_of(bytes, 0),
    }
}

/// The last name.
pub(crate) fn last_of(bytes: &[u8]) -> &[u8] {
    match last_zero(bytes) {
        Some(at) => rest_of(rest_of(bytes, at), 1),
        None => bytes,
    }
}

/// The bytes of a path with a name behind it.
pub(crate) fn joined(alloc: Global, path: &[u8], name: &[u8]) -> Result<Bytes, OutOfMemory> {
    let mut out = Bytes::of(alloc, path)?;
    if !path.is_empty() {
        out.push_u8(0)?;
    }
    out.extend(name)?;
    Ok(out)
}

/// Appends a name that a person types, or goes up.
fn step(alloc: Global, path: &mut Bytes, name: &str) -> Result<(), OutOfMemory> {
    if name.is_empty() || name == "." {
        return Ok(());
    }
    let next = if name == ".." {
        Bytes::of(alloc, parent_of(path.as_slice()))?
    } else {
        let name = server_name(alloc, name.as_bytes())?;
        joined(alloc, path.as_slice(), name.as_slice())?
    };
    *path = next;
    Ok(())
}

/// The names of a path that a person types, from here.
pub(crate) fn typed(alloc: Global, here: &[u8], text: &str) -> Result<Bytes, OutOfMemory> {
    let mut path = if text.starts_with('/') {
        Bytes::new(alloc)
    } else {
        Bytes::of(alloc, here)?
    };
    for name in text.split('/') {
        step(alloc, &mut path, name)?;
    }
    Ok(path)
}

/// The volume that a path begins with, and the path in it.
pub(crate) fn volume_and_path(path: &[u8]) -> (&[u8], &[u8]) {
    parts_at(path, 0)
}
