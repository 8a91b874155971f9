//! The Finder information and the resource fork of a file, as a local header file `._NAME` beside it (AppleDouble).
ghost use Rattle.std.specs.Prelude.{◌≡◌, ◌≤◌, ◌<◌, length};

use crate::entries::Facts;
use afp_base::{Bytes, OutOfMemory, rest_of};
use afp_outside::{ReadResult, Sink, Source, Wrote};
use apple_double::{Parcel, Shape, parcel_size, write_parcel};
use std::alloc::Global;

/// The most reads of a header file.
const MOST_READS: u32 = 1 << 20;

/// A sink into memory.
#[derive(Drop)]
pub(crate) struct Gathered {
    pub(crate) bytes: Bytes,
    pub(crate) faults: u64,
}

impl Sink for Gathered {
    ghost use Rattle.std.specs.Prelude.{None};

    ghost sink_state = { λ a. record { written = None; faults = a.faults } };

    fn write(&mut self, piece: &[u8]) -> Wrote {
        match self.bytes.extend(piece) {
            Ok(()) => Wrote::Took(piece.len()),
            Err(_) => {
                self.faults = self.faults.saturating_add(1);
                Wrote::Failed
            }
        }
    }
}

/// A source out of memory.
#[derive(Drop)]
pub(crate) struct Held {
    bytes: Bytes,
    at: usize,
    ended: bool,
}

impl Held {
    /// A source of these bytes.
    pub(crate) fn new(bytes: Bytes) -> Held {
        Held {
            bytes,
            at: 0,
            ended: false,
        }
    }
}

/// Puts the first bytes of a piece into a room, as many as it has room for.
fn put_front(room: &mut [u8], piece: &[u8]) -> usize
    ensures size { length room.new ≡ length room.old }
    ensures most { result ≤ length room.old }
    ensures some { 0 < length room.old → 0 < length piece.now → 0 < result }
{
    let count = if piece.len() < room.len() {
        piece.len()
    } else {
        room.len()
    };
    room[..count].copy_from_slice(&piece[..count]);
    count
}

impl Source for Held {
    ghost use Rattle.std.specs.Prelude.{None};

    ghost source_state = { λ a. record { given = None; given_before = None; coming = None; ended = a.ended; faults = 0 } };

    fn read(&mut self, room: &mut [u8]) -> ReadResult {
        let rest = rest_of(self.bytes.as_slice(), self.at);
        if rest.is_empty() {
            self.ended = true;
            return ReadResult::End;
        }
        let count = put_front(room, rest);
        self.at = self.at.saturating_add(count);
        ReadResult::Got(count)
    }
}

/// Whether a file has more than its data fork says.
pub(crate) fn has_more(facts: &Facts) -> bool {
    facts.resource > 0 || facts.finder != [0; 32]
}

/// The bytes of the header file.
pub(crate) fn header_file(
    alloc: Global,
    facts: &Facts,
    resource: Bytes,
) -> Result<Bytes, OutOfMemory> {
    let parcel = Parcel {
        name: None,
        created: facts.created,
        modified: facts.modified,
        backup: facts.backup,
        finder: facts.finder,
        comment: None,
        data_fork: Bytes::new(alloc),
        resource_fork: resource,
    };
    if parcel_size(&parcel, Shape::Double) >= 1 << 32 {
        return Err(OutOfMemory);
    }
    let mut out = Bytes::new(alloc);
    match write_parcel(&parcel, Shape::Double, &mut out) {
        Ok(()) => Ok(out),
        Err(_) => Err(OutOfMemory),
    }
}

/// Reads a local file, which is to be short; none where it can't be read.
pub(crate) fn read_whole<S: Source>(
    alloc: Global,
    source: &mut S,
) -> Result<Option<Bytes>, OutOfMemory> {
    let mut out = Bytes::new(alloc);
    let mut room = [0u8; 4096];
    for _ in 0..MOST_READS {
        match source.read(&mut room) {
            ReadResult::Got(count) => out.extend(&room[..count])?,
            ReadResult::End => return Ok(Some(out)),
            _ => return Ok(None),
        }
    }
    Ok(None)
}
