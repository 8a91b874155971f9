//! The frames of a whole stream.
ghost use Rattle.std.specs.Prelude.{◌≡◌, ◌+◌, ◌<◌, ◌^◌, ◌++◌, ◌∷◌, [], List, ℕ, length, flat_map, IfOk, OnOk, OnErr, IfNone};
ghost use Rattle.dsi_frame.specs.Buffered.{buffer_length};
ghost use Rattle.dsi_frame.specs.Deframe.{GivenOut, IsStream};
ghost use Rattle.dsi_frame.specs.lemma.GivenOut.{GivenOutTo};
ghost use Rattle.dsi_frame.specs.Frame.{frame_of};
ghost use Rattle.dsi_frame.specs.Stream.{IsUnfinished};

use crate::deframer::Deframer;
use crate::frame::{BadFrame, Head, Header};
use afp_base::{Bytes, OutOfMemory};
use std::alloc::Global;
use std::marker::Model;

/// A frame with its own payload.
///
/// Contracts see it as the frame.
#[derive(Debug, Drop)]
pub struct OwnedFrame {
    header: Header,
    payload: Bytes,
}

impl Model for OwnedFrame {
    ghost use Rattle.std.specs.Prelude.{◌≡◌, length};
    ghost use Rattle.dsi_frame.specs.Frame.{Frame, frame_of};

    ghost Value = { Frame };

    ghost view = { λ f. frame_of f.header f.payload };

    ghost invariant = { λ f. f.header.length ≡ length f.payload };
}

impl OwnedFrame {
    ghost use Rattle.dsi_frame.specs.Frame.{header_of};

    /// The fields of its first 16 bytes.
    pub fn header(&self) -> Header
        ensures { result ≡ header_of self.now }
    {
        self.header
    }

    /// The payload, lent.
    pub fn payload(&self) -> &[u8]
        ensures { result.now ≡ self.now.payload }
    {
        self.payload.as_slice()
    }
}

/// Frames in a row.
///
/// Contracts see them as a list.
#[derive(Debug, Drop)]
pub struct Frames(Vec<OwnedFrame>);

impl Model for Frames {
    ghost use Rattle.std.specs.Prelude.{List};
    ghost use Rattle.dsi_frame.specs.Frame.{Frame};

    ghost Value = { List Frame };

    ghost view = { λ f. f.0.items };
}

impl Frames {
    /// No frames. It takes no memory.
    pub fn new(alloc: Global) -> Frames
        ensures { result ≡ [] }
    {
        Frames(Vec::new(alloc))
    }

    /// Appends a frame with this header and payload. An error changes nothing.
    pub fn push(&mut self, alloc: Global, header: Header, payload: &[u8]) -> Result<(), OutOfMemory>
        requires { header.length ≡ length payload.now }
        ensures ok { OnOk result (self.new ≡ self.old ++ frame_of header payload.now ∷ []) }
        ensures err { OnErr result (self.new ≡ self.old) }
    {
        self.0.push(OwnedFrame {
            header,
            payload: Bytes::of(alloc, payload)?,
        })?;
        Ok(())
    }

    /// The frames, lent.
    pub fn as_slice(&self) -> &[OwnedFrame]
        ensures { result.now ≡ self.now }
    {
        self.0.as_slice()
    }
}

/// Where a stream ends: in a rest of so many bytes that is less than a frame, or at a bad header.
#[derive(Clone, Copy, Debug, PartialEq, Eq)]
pub enum StreamEnd {
    Rest(usize),
    Bad(BadFrame),
}

/// The frames of a stream, and where it ends.
#[derive(Debug, Drop)]
pub struct Stream {
    pub frames: Frames,
    pub end: StreamEnd,
}

// Gives out the whole frames at the front, up to less than a frame or to a bad header.
fn take_frames(
    alloc: Global,
    deframer: &mut Deframer,
    frames: &mut Frames,
) -> Result<Option<BadFrame>, OutOfMemory>
    ensures frames { IfOk result (λ bad. (bytes : List ℕ) → GivenOut bytes frames.old deframer.old
        → GivenOutTo bytes frames.new deframer.new bad) }
    ensures room { IfOk result (λ bad. IfNone bad (length deframer.new.rest < buffer_length)) }
    ensures unfinished { IfOk result (λ bad. IfNone bad (IsUnfinished deframer.new.rest)) }
    ensures end { IfOk result (λ bad. deframer.new.place + length deframer.new.rest
        ≡ deframer.old.place + length deframer.old.rest) }
{
    loop {
        match deframer.head() {
            Head::Whole(header) => {
                frames.push(alloc, header, deframer.payload())?;
                deframer.advance();
            }
            Head::NotYet => return Ok(None),
            Head::Bad(bad) => return Ok(Some(bad)),
        }
    }
}

// Gives out the frames that a piece makes whole.
fn take_piece(
    alloc: Global,
    deframer: &mut Deframer,
    frames: &mut Frames,
    piece: &[u8],
) -> Result<Option<BadFrame>, OutOfMemory>
    requires total { deframer.old.place + length deframer.old.rest + length piece.now < 2 ^ 64 }
    requires room { length deframer.old.rest < buffer_length }
    requires unfinished { IsUnfinished deframer.old.rest }
    ensures frames { IfOk result (λ bad. (bytes : List ℕ) → GivenOut bytes frames.old deframer.old
        → GivenOutTo (bytes ++ piece.now) frames.new deframer.new bad) }
    ensures room { IfOk result (λ bad. IfNone bad (length deframer.new.rest < buffer_length)) }
    ensures unfinished { IfOk result (λ bad. IfNone bad (IsUnfinished deframer.new.rest)) }
    ensures end { IfOk result (λ bad. IfNone bad (deframer.new.place + length deframer.new.rest
        ≡ deframer.old.place + length deframer.old.rest + length piece.now)) }
{
    let mut left = piece;
    while left.len() > 0 {
        let taken = deframer.feed(left);
        left = &left[taken..];
        if let Some(bad) = take_frames(alloc, deframer, frames)? {
            return Ok(Some(bad));
        }
    }
    Ok(None)
}

/// The frames of the stream that comes in these pieces, however it was cut, and where it ends. It has
/// fewer than 2^64 bytes.
pub fn read_stream(alloc: Global, pieces: &[Bytes]) -> Result<Stream, OutOfMemory>
    requires { length (flat_map (λ piece. piece) pieces.now) < 2 ^ 64 }
    ensures { IfOk result (λ s. IsStream (flat_map (λ piece. piece) pieces.now) s.frames s.end) }
{
    let mut deframer = Deframer::new(alloc)?;
    let mut frames = Frames::new(alloc);
    for piece in pieces {
        let end = take_piece(alloc, &mut deframer, &mut frames, piece.as_slice())?;
        if let Some(bad) = end {
            return Ok(Stream {
                frames,
                end: StreamEnd::Bad(bad),
            });
        }
    }
    Ok(Stream {
        frames,
        end: StreamEnd::Rest(deframer.rest()),
    })
}
