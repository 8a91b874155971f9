//! A deframer: the frames of a stream that comes in pieces.
ghost use Rattle.std.specs.Prelude.{◌≡◌, ◌+◌, ◌-◌, ◌<◌, ◌≤◌, ◌^◌, ◌++◌, [], List, ℕ, length, take, drop, min, IfOk};
ghost use Rattle.afp_outside.specs.ends.Link.{Reads};
ghost use Rattle.afp_outside.specs.ends.Ready.{ReadsReady};
ghost use Rattle.dsi_frame.specs.Buffered.{Buffered, buffer_length};
ghost use Rattle.dsi_frame.specs.Deframe.{IsHead};
ghost use Rattle.dsi_frame.specs.Filling.{ReadsMore, ReadsMoreReady, TakesAtMost, TakesAtMostReady};
ghost use Rattle.dsi_frame.specs.Frame.{Frame, IsSpelling, payload_length_in};
ghost use Rattle.dsi_frame.specs.Stream.{Begins, HasFrame};
ghost use Rattle.dsi_frame.specs.lemma.BufferFilling.{Fills, FillsReady};

use crate::frame::{BadFrame, Head, numbers_in, read_header};
use afp_base::{MAX_PAYLOAD, Moment, OutOfMemory};
use afp_outside::{Link, ReadResult, ReadyLink, ReadyRead};
use std::alloc::Global;
use std::marker::Model;

/// Bytes of a header.
pub const HEADER_LENGTH: usize = 16;

/// Bytes of the buffer: the longest frame's.
const CAPACITY: usize = HEADER_LENGTH + MAX_PAYLOAD as usize;

// What stands at the front of these bytes of a stream, the first of them at `place`.
fn judge(bytes: &[u8], place: u64) -> Head
    requires { length bytes.now ≤ buffer_length }
    ensures head { IsHead (record { place = place; rest = bytes.now }) result }
    ensures room { result ≡ Head.NotYet → length bytes.now < buffer_length }
{
    if bytes.len() < HEADER_LENGTH {
        return Head::NotYet;
    }
    match read_header(bytes) {
        Err(reason) => Head::Bad(BadFrame { at: place, reason }),
        Ok(header) => {
            if bytes.len() - HEADER_LENGTH < header.length as usize {
                Head::NotYet
            } else {
                Head::Whole(header)
            }
        }
    }
}

// How long the payload of the whole frame is that the bytes begin with.
fn payload_length(bytes: &[u8]) -> usize
    requires { HasFrame bytes.now }
    ensures value { result ≡ payload_length_in bytes.now }
    ensures fits { HEADER_LENGTH + result ≤ length bytes.now }
{
    numbers_in(bytes).length as usize
}

// Moves the bytes `held` from `start` to the front.
fn move_to_front(buffer: &mut [u8], start: usize, held: usize)
    requires { start + held ≤ length buffer.old }
    ensures { take held buffer.new ≡ take held (drop start buffer.old) }
{
    for i in 0..held {
        buffer[i] = buffer[start + i];
    }
}

// Makes room for `more` bytes behind the bytes `held` from `start`, and answers where they begin then.
fn make_room(buffer: &mut [u8], start: usize, held: usize, more: usize) -> usize
    requires held { start + held ≤ length buffer.old }
    requires room { held + more ≤ length buffer.old }
    ensures room { result + held + more ≤ length buffer.old }
    ensures size { length buffer.new ≡ length buffer.old }
    ensures same { take held (drop result buffer.new) ≡ take held (drop start buffer.old) }
{
    if held == 0 {
        return 0;
    }
    if buffer.len() - start - held < more {
        move_to_front(buffer, start, held);
        return 0;
    }
    start
}

// Puts the piece behind the bytes `held` from `start`, and answers where they begin then.
fn put_behind(buffer: &mut [u8], start: usize, held: usize, piece: &[u8]) -> usize
    requires held { start + held ≤ length buffer.old }
    requires room { held + length piece.now ≤ length buffer.old }
    ensures room { result + (held + length piece.now) ≤ length buffer.old }
    ensures bytes { take (held + length piece.now) (drop result buffer.new) ≡ take held (drop start buffer.old) ++ piece.now }
{
    let start = make_room(buffer, start, held, piece.len());
    let end = start + held;
    buffer[end..end + piece.len()].copy_from_slice(piece);
    start
}

// Reads once, into the buffer from `end` on, and no further than `stop`.
fn read_into<L: Link>(link: &mut L, buffer: &mut [u8], end: usize, stop: usize) -> ReadResult
    requires some { end < stop }
    requires within { stop ≤ length buffer.old }
    ensures same { take end buffer.new ≡ take end buffer.old }
    ensures size { length buffer.new ≡ length buffer.old }
    ensures reads { Reads (L.link_state link.old) (take (stop - end) (drop end buffer.new)) result (L.link_state link.new) }
{
    link.read(&mut buffer[end..stop])
}

// Reads once, behind the bytes `held` from `start`, and answers where they begin then.
fn read_behind<L: Link>(
    link: &mut L,
    buffer: &mut [u8],
    start: usize,
    held: usize,
    most: usize,
) -> (usize, ReadResult)
    requires held { start + held ≤ length buffer.old }
    requires room { held < length buffer.old }
    requires most { 0 < most }
    ensures reads { Fills (take held (drop start buffer.old)) most (L.link_state link.old) result.1 result.0 held buffer.new (L.link_state link.new) }
{
    let size = (buffer.len() - held).min(most);
    let start = make_room(buffer, start, held, size);
    let behind = start + held;
    let gave = read_into(link, buffer, behind, behind + size);
    (start, gave)
}

// The same from a link that never waits.
fn read_ready_into<L: ReadyLink>(
    link: &mut L,
    buffer: &mut [u8],
    end: usize,
    stop: usize,
    now: Moment,
) -> ReadyRead
    requires some { end < stop }
    requires within { stop ≤ length buffer.old }
    ensures same { take end buffer.new ≡ take end buffer.old }
    ensures size { length buffer.new ≡ length buffer.old }
    ensures reads { ReadsReady (L.link_state link.old) (take (stop - end) (drop end buffer.new)) result (L.link_state link.new) }
{
    link.read_ready(&mut buffer[end..stop], now)
}

// The same, behind the bytes `held` from `start`.
fn read_ready_behind<L: ReadyLink>(
    link: &mut L,
    buffer: &mut [u8],
    start: usize,
    held: usize,
    most: usize,
    now: Moment,
) -> (usize, ReadyRead)
    requires held { start + held ≤ length buffer.old }
    requires room { held < length buffer.old }
    requires most { 0 < most }
    ensures reads { FillsReady (take held (drop start buffer.old)) most (L.link_state link.old) result.1 result.0 held buffer.new (L.link_state link.new) }
{
    let size = (buffer.len() - held).min(most);
    let start = make_room(buffer, start, held, size);
    let behind = start + held;
    let gave = read_ready_into(link, buffer, behind, behind + size, now);
    (start, gave)
}

/// The frames of a stream that comes in pieces. Its buffer holds the longest frame, 131,088 bytes.
///
/// Contracts see the place in the stream and the rest: the bytes fed that no frame given out has taken.
#[derive(Drop)]
pub struct Deframer {
    buffer: Vec<u8>,
    start: usize,
    held: usize,
    place: u64,
}

impl Model for Deframer {
    ghost use Rattle.std.specs.Prelude.{◌≡◌, ◌+◌, ◌<◌, ◌≤◌, ◌^◌, length, take, drop};
    ghost use Rattle.dsi_frame.specs.Buffered.{Buffered, buffer_length};

    ghost Value = { Buffered };

    ghost view = { λ d. record { place = d.place; rest = take d.held (drop d.start d.buffer.items) } };

    ghost invariant = { λ d. (d.start + d.held ≤ buffer_length) × (length d.buffer.items ≡ buffer_length) × (d.place + d.held < 2 ^ 64) };
}

impl Deframer {
    /// A deframer at the first byte of a stream. It takes its whole buffer here. The one error is want of memory.
    pub fn new(alloc: Global) -> Result<Deframer, OutOfMemory>
        ensures { IfOk result (λ d. d ≡ record { place = 0; rest = [] }) }
    {
        let buffer = vec![in alloc; 0u8; CAPACITY]?;
        Ok(Deframer {
            buffer,
            start: 0,
            held: 0,
            place: 0,
        })
    }

    /// Takes bytes of the piece, as many as the buffer has room for, and answers how many. Fewer than
    /// 2^64 bytes are fed in all.
    pub fn feed(&mut self, piece: &[u8]) -> usize
        requires { self.old.place + length self.old.rest + length piece.now < 2 ^ 64 }
        ensures taken { result ≡ min (length piece.now) (buffer_length - length self.old.rest) }
        ensures rest { self.new.rest ≡ self.old.rest ++ take result piece.now }
        ensures place { self.new.place ≡ self.old.place }
    {
        let taken = piece.len().min(CAPACITY - self.held);
        self.start = put_behind(
            self.buffer.as_mut_slice(),
            self.start,
            self.held,
            &piece[..taken],
        );
        self.held += taken;
        taken
    }

    /// Reads once, at most so many bytes, and no more than there is room for, straight into its buffer. Fewer than
    /// 2^64 bytes are fed in all.
    pub fn read_from<L: Link>(&mut self, link: &mut L, most: usize) -> ReadResult
        requires some { 0 < most }
        requires free { length self.old.rest < buffer_length }
        requires fits { self.old.place + length self.old.rest + most < 2 ^ 64 }
        ensures reads { ReadsMore self.old (L.link_state link.old) result self.new (L.link_state link.new) }
        ensures most { TakesAtMost result most }
    {
        let (start, gave) = read_behind(
            link,
            self.buffer.as_mut_slice(),
            self.start,
            self.held,
            most,
        );
        self.start = start;
        if let ReadResult::Got(n) = gave {
            self.held += n;
        }
        gave
    }

    /// Reads once without waiting, at most so many bytes, and no more than there is room for, straight into its buffer. Fewer
    /// than 2^64 bytes are fed in all.
    pub fn read_ready<L: ReadyLink>(&mut self, link: &mut L, most: usize, now: Moment) -> ReadyRead
        requires some { 0 < most }
        requires free { length self.old.rest < buffer_length }
        requires fits { self.old.place + length self.old.rest + most < 2 ^ 64 }
        ensures reads { ReadsMoreReady self.old (L.link_state link.old) result self.new (L.link_state link.new) }
        ensures most { TakesAtMostReady result most }
    {
        let (start, gave) = read_ready_behind(
            link,
            self.buffer.as_mut_slice(),
            self.start,
            self.held,
            most,
            now,
        );
        self.start = start;
        if let ReadyRead::Got(n) = gave {
            self.held += n;
        }
        gave
    }

    /// What stands at the front of the rest. Where that is less than a frame, there is room for more.
    pub fn head(&self) -> Head
        ensures head { IsHead self.now result }
        ensures room { result ≡ Head.NotYet → length self.now.rest < buffer_length }
    {
        judge(self.bytes(), self.place)
    }

    /// The payload of the whole frame at the front.
    pub fn payload(&self) -> &[u8]
        requires { HasFrame self.now.rest }
        ensures { (f : Frame) → Begins self.now.rest f → result.now ≡ f.payload }
    {
        let bytes = self.bytes();
        let length = payload_length(bytes);
        &bytes[HEADER_LENGTH..HEADER_LENGTH + length]
    }

    /// Gives out the whole frame at the front.
    pub fn advance(&mut self)
        requires { HasFrame self.old.rest }
        ensures { (f : Frame) (first more : List ℕ) → IsSpelling first f → self.old.rest ≡ first ++ more → self.new ≡ record { place = self.old.place + length first; rest = more } }
    {
        let length = HEADER_LENGTH + payload_length(self.bytes());
        self.start += length;
        self.held -= length;
        self.place += length as u64;
    }

    /// Begins another stream, at its first byte, in the same buffer: what was held is dropped.
    pub fn restart(&mut self)
        ensures { self.new ≡ record { place = 0; rest = [] } }
    {
        self.start = 0;
        self.held = 0;
        self.place = 0;
    }

    /// Goes on with another stream, of which this rest stood at this place, in the same buffer: what was held is dropped.
    pub fn resume(&mut self, place: u64, rest: &[u8])
        requires room { length rest.now ≤ buffer_length }
        requires total { place + length rest.now < 2 ^ 64 }
        ensures { self.new ≡ record { place = place; rest = rest.now } }
    {
        self.restart();
        self.start = put_behind(self.buffer.as_mut_slice(), 0, 0, rest);
        self.held = rest.len();
        self.place = place;
    }

    /// The bytes behind the frames given out.
    pub fn held_bytes(&self) -> &[u8]
        ensures bytes { result.now ≡ self.now.rest }
        ensures fits { length self.now.rest ≤ buffer_length }
    {
        self.bytes()
    }

    /// How many bytes stand behind the frames given out.
    pub fn rest(&self) -> usize
        ensures rest { result ≡ length self.now.rest }
        ensures fits { result ≤ buffer_length }
    {
        self.held
    }

    /// For how many bytes there is room.
    pub fn room(&self) -> usize
        ensures { result ≡ buffer_length - length self.now.rest }
    {
        CAPACITY - self.held
    }

    /// The place of the first byte that no frame given out has taken, in bytes from the stream's first.
    pub fn place(&self) -> u64
        ensures place { result ≡ self.now.place }
        ensures fits { self.now.place + length self.now.rest < 2 ^ 64 }
    {
        self.place
    }

    // The rest, lent.
    fn bytes(&self) -> &[u8]
        ensures bytes { result.now ≡ self.now.rest }
        ensures fits { length self.now.rest ≤ buffer_length }
    {
        &self.buffer[self.start..self.start + self.held]
    }
}
