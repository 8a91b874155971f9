//! Frames of the Data Stream Interface.
ghost use Rattle.std.specs.Prelude.{◌≤◌, ◌<◌, ◌^◌, length};

use afp_base::{Bytes, MAX_PAYLOAD, OutOfMemory};
use dsi_frame::{
    Deframer, DsiCommand, Head, Header, OwnedFrame, Stream, StreamEnd, header_bytes, read_stream,
    write_frame,
};
use std::alloc::Global;
use test_lines::cases::{CaseFault, bytes_of, put_bad, put_word, text_of, word_of};

/// The most bytes of a stream of these cases.
const MOST: usize = 1 << 20;

/// The most bytes of a payload.
const MOST_PAYLOAD: usize = MAX_PAYLOAD as usize;

fn put_end(text: &mut String, end: StreamEnd) -> Result<(), CaseFault> {
    match end {
        StreamEnd::Rest(size) => write!(text, "rest {size}")?,
        StreamEnd::Bad(bad) => put_bad(text, bad)?,
    }
    Ok(())
}

fn frame_text(alloc: Global, frame: &OwnedFrame, text: &mut String) -> Result<(), CaseFault> {
    put_word(alloc, text, &header_bytes(&frame.header()))?;
    text.push(' ')?;
    put_word(alloc, text, frame.payload())?;
    text.push_str(" | ")?;
    Ok(())
}

fn stream_text(alloc: Global, stream: &Stream) -> Result<String, CaseFault> {
    let mut text = String::new(alloc);
    for frame in stream.frames.as_slice() {
        frame_text(alloc, frame, &mut text)?;
    }
    put_end(&mut text, stream.end)?;
    Ok(text)
}

/// The frames of bytes that come in three pieces.
fn cut_at(alloc: Global, bytes: &[u8], first: usize, second: usize) -> Result<Stream, OutOfMemory>
    requires first { first ≤ second }
    requires second { second ≤ length bytes.now }
    requires few { length bytes.now < 2 ^ 32 }
{
    let mut pieces = Vec::new(alloc);
    pieces.push(Bytes::of(alloc, &bytes[..first])?)?;
    pieces.push(Bytes::of(alloc, &bytes[first..second])?)?;
    pieces.push(Bytes::of(alloc, &bytes[second..])?)?;
    read_stream(alloc, pieces.as_slice())
}

/// What is told of them.
fn text_cut_at(
    alloc: Global,
    bytes: &[u8],
    first: usize,
    second: usize,
) -> Result<String, CaseFault>
    requires first { first ≤ second }
    requires second { second ≤ length bytes.now }
    requires few { length bytes.now < 2 ^ 32 }
{
    let stream = cut_at(alloc, bytes, first, second)?;
    stream_text(alloc, &stream)
}

/// `frames BYTES`: each frame, its header with reserved bytes 0 and its payload, and how many bytes of a rest stand behind
/// them, or why the next frame is bad.
pub fn frames(alloc: Global, words: &[&str]) -> Result<String, CaseFault> {
    let [bytes] = words else {
        return Err(CaseFault::Word);
    };
    let bytes = bytes_of(alloc, bytes)?;
    if bytes.len() > MOST {
        return Err(CaseFault::Word);
    }
    text_cut_at(alloc, bytes.as_slice(), 0, bytes.len())
}

/// What differs from the text, where the bytes are cut at this place and at a later one.
fn differs(
    alloc: Global,
    bytes: &[u8],
    first: usize,
    text: &str,
) -> Result<Option<usize>, CaseFault>
    requires first { first ≤ length bytes.now }
    requires few { length bytes.now < 2 ^ 32 }
{
    for second in first..=bytes.len() {
        if text_cut_at(alloc, bytes, first, second)?.as_str() != text {
            return Ok(Some(second));
        }
    }
    Ok(None)
}

/// The frames of the bytes, the same wherever these are cut in three.
fn always(alloc: Global, bytes: &[u8]) -> Result<String, CaseFault>
    requires { length bytes.now < 2 ^ 32 }
{
    let text = text_cut_at(alloc, bytes, 0, bytes.len())?;
    for first in 0..=bytes.len() {
        if let Some(second) = differs(alloc, bytes, first, text.as_str())? {
            return Ok(format!(in alloc; "others, cut at {first} and {second}")?);
        }
    }
    Ok(text)
}

/// `frames_cut BYTES`: the same, also where the bytes come in pieces, cut at any two places.
pub fn frames_cut(alloc: Global, words: &[&str]) -> Result<String, CaseFault> {
    let [bytes] = words else {
        return Err(CaseFault::Word);
    };
    let bytes = bytes_of(alloc, bytes)?;
    if bytes.len() > 200 {
        return text_of(alloc, "too long to be cut at each place");
    }
    always(alloc, bytes.as_slice())
}

/// The bytes of a reply to GetStatus with this payload.
fn write_reply(alloc: Global, id: u16, payload: &[u8]) -> Result<Bytes, CaseFault> {
    if payload.len() > MOST_PAYLOAD {
        return Err(CaseFault::Word);
    }
    let Ok(length) = u32::try_from(payload.len()) else {
        return Err(CaseFault::Word);
    };
    let header = Header {
        reply: true,
        command: DsiCommand::GetStatus,
        id,
        word: 0,
        length,
    };
    let mut out = Bytes::new(alloc);
    write_frame(&header, payload, &mut out)?;
    Ok(out)
}

/// `written ID PAYLOAD`: the frame of a reply to GetStatus.
pub fn written(alloc: Global, words: &[&str]) -> Result<String, CaseFault> {
    let [id, payload] = words else {
        return Err(CaseFault::Word);
    };
    let payload = bytes_of(alloc, payload)?;
    word_of(
        alloc,
        write_reply(alloc, id.parse::<u16>()?, payload.as_slice())?.as_slice(),
    )
}

/// Appends how many bytes of a piece were taken, the room and the rest behind it, and what then stands in front.
fn feed(text: &mut String, deframer: &mut Deframer, piece: &[u8]) -> Result<(), CaseFault> {
    if deframer.place() > MOST as u64 {
        return Err(CaseFault::Word);
    }
    if deframer.rest() > MOST {
        return Err(CaseFault::Word);
    }
    if piece.len() > MOST {
        return Err(CaseFault::Word);
    }
    let taken = deframer.feed(piece);
    let (room, rest) = (deframer.room(), deframer.rest());
    write!(text, "took {taken} room {room} rest {rest} ")?;
    match deframer.head() {
        Head::NotYet => text.push_str("not yet")?,
        Head::Bad(bad) => put_bad(text, bad)?,
        Head::Whole(_) => {
            let length = deframer.payload().len();
            deframer.advance();
            let (place, rest) = (deframer.place(), deframer.rest());
            write!(text, "whole {length}, then place {place} rest {rest}")?
        }
    }
    Ok(())
}

/// `fed PIECE..`: pieces that are fed one after the other; a whole frame in front is passed.
pub fn fed(alloc: Global, words: &[&str]) -> Result<String, CaseFault> {
    let mut deframer = Deframer::new(alloc)?;
    let mut text = String::new(alloc);
    for word in words {
        if !text.as_str().is_empty() {
            text.push_str(" | ")?;
        }
        let piece = bytes_of(alloc, word)?;
        feed(&mut text, &mut deframer, piece.as_slice())?;
    }
    Ok(text)
}
