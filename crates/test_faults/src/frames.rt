//! Frames, one behind the other as bytes.
use afp_base::{Bytes, OutOfMemory, rest_of};
use std::alloc::Global;

/// How many bytes a header has.
const HEADER: usize = 16;

/// An id that no request of a run has, as a frame has it.
const OTHER_ID: &[u8] = b"\x80\x00";

/// MiscErr, -5014, as a reply has it.
const MISC_ERR: &[u8] = b"\xff\xff\xec\x6a";

/// The bytes up to a place, or all of them.
fn front(bytes: &[u8], end: usize) -> &[u8] {
    &bytes[..end.min(bytes.len())]
}

/// How many bytes the frame has with which these begin, where all of it is there. Frames of a run are shorter than 65,536 bytes.
fn size_of(bytes: &[u8]) -> Option<usize> {
    if bytes.len() < HEADER {
        return None;
    }
    let size = HEADER + usize::from(bytes[10]) * 256 + usize::from(bytes[11]);
    if size > bytes.len() { None } else { Some(size) }
}

/// The place behind so many frames, or behind the last whole one.
fn place_behind(bytes: &[u8], frames: usize) -> usize {
    let mut at: usize = 0;
    for _ in 0..frames {
        match size_of(rest_of(bytes, at)) {
            Some(size) => at = at.saturating_add(size),
            None => return at,
        }
    }
    at
}

/// How many whole frames there are.
pub fn count(bytes: &[u8]) -> usize {
    let mut at: usize = 0;
    let mut frames: usize = 0;
    for _ in 0..bytes.len() {
        match size_of(rest_of(bytes, at)) {
            Some(size) => {
                at = at.saturating_add(size);
                frames = frames.saturating_add(1);
            }
            None => return frames,
        }
    }
    frames
}

/// The first so many frames.
pub fn first_of(bytes: &[u8], frames: usize) -> &[u8] {
    front(bytes, place_behind(bytes, frames))
}

/// What stands behind so many frames.
pub fn behind(bytes: &[u8], frames: usize) -> &[u8] {
    rest_of(bytes, place_behind(bytes, frames))
}

/// How many bytes each frame has.
pub fn sizes_of(alloc: Global, bytes: &[u8]) -> Result<Vec<usize>, OutOfMemory> {
    let mut sizes = Vec::new(alloc);
    for frame in 0..count(bytes) {
        sizes.push(first_of(behind(bytes, frame), 1).len())?;
    }
    Ok(sizes)
}

/// Whether this is one reply, which says MiscErr and has no block.
pub fn is_misc_err(reply: &[u8]) -> bool {
    reply.len() == HEADER && &reply[4..8] == MISC_ERR
}

/// Appends a frame with another id.
fn put_renamed(sent: &mut Bytes, frame: &[u8]) -> Result<(), OutOfMemory> {
    sent.extend(front(frame, 2))?;
    sent.extend(OTHER_ID)?;
    sent.extend(rest_of(frame, 4))
}

/// The frames, with the one behind the first so many also in front of itself, there under an id of its own.
pub fn sent_twice(alloc: Global, bytes: &[u8], frames: usize) -> Result<Bytes, OutOfMemory> {
    let mut sent = Bytes::of(alloc, first_of(bytes, frames))?;
    put_renamed(&mut sent, first_of(behind(bytes, frames), 1))?;
    sent.extend(behind(bytes, frames))?;
    Ok(sent)
}
