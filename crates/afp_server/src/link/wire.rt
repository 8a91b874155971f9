//! A link as bytes that are fed to it.
ghost use Rattle.std.specs.Prelude.{◌≡◌, ◌≢◌, ◌+◌, ◌<◌, ◌≤◌, ◌^◌, ◌++◌, List, ℕ, [], length, None, Some, IfOk, IfNone, IfSome};
ghost use Rattle.afp_serial.specs.StatusBlock.{status_block};
ghost use Rattle.dsi_frame.specs.Buffered.{buffer_length};
ghost use Rattle.dsi_frame.specs.Deframe.{GivenOut};
ghost use Rattle.dsi_frame.specs.Frame.{Frame, frame_of, header_of};
ghost use Rattle.dsi_frame.specs.Stream.{Begins};
ghost use Rattle.afp_server.specs.link.Wire.{PartsBy};
ghost use Rattle.afp_server.specs.link.Tally.{no_tally};
ghost use Rattle.afp_server.specs.link.Wire.{FeedStart, FedSoFar, open_link};
ghost use Rattle.afp_server.specs.link.Wire.{Feeds, feed_point};
ghost use Rattle.afp_server.specs.link.lemma.Feeding.{FeedsFrame, Answers, end_of_frame};

use crate::link::reply::MOST_REPLY;
use crate::link::session::LinkSession;
use crate::link::stage::{FrameEnd, Stage};
use crate::link::tally::Tally;
use afp_base::{Bytes, LinkNumber, Moment, OutOfMemory};
use afp_outside::{Gate, OpenGate};
use afp_serial::{House, Teller};
use dsi_frame::{BadFrame, Deframer, Head, Header};
use std::alloc::Global;
use std::marker::Model;

/// Why a wire takes no more bytes.
#[derive(Clone, Copy, Debug, PartialEq, Eq)]
pub enum WireEnd {
    /// The client closed its session, or a call ended it.
    Closed,
    /// A frame has a bad header, or may not come where it came.
    Bad(BadFrame),
    /// The session has another link.
    Displaced,
    /// There was no memory.
    Memory,
}

/// A link as bytes that are fed to it: the replies go into a buffer of the caller's.
///
/// Contracts see the status block of its server, what it holds of the bytes fed, how far the link has come, the tally
/// of its last feed, and the end that was answered, if one was.
#[derive(Drop)]
pub struct Wire {
    deframer: Deframer,
    session: LinkSession,
    end: Option<WireEnd>,
}

impl Model for Wire {
    ghost use Rattle.afp_server.specs.link.Wire.{WireState};

    ghost Value = { WireState };

    ghost view = { λ w. record { block = w.session.block; held = w.deframer; stage = w.session.stage; tally = w.session.tally; end = w.end } };
}

impl Wire {
    /// A wire at its first byte. It takes all room that it needs here, but for the copies of calls.
    pub fn new(alloc: Global, house: &House, _now: Moment) -> Result<Wire, OutOfMemory>
        ensures { IfOk result (λ w. w ≡ record { block = status_block house.now; held = record { place = 0; rest = [] }; stage = Stage.Fresh; tally = no_tally; end = None }) }
    {
        Ok(Wire {
            deframer: Deframer::new(alloc)?,
            session: LinkSession::new(alloc, house)?,
            end: None,
        })
    }

    /// Takes the whole piece: handles each frame that is whole with it, in order, at this moment, and appends its
    /// reply to `out`. It says why the link ends, where it does; after that it takes and asks nothing, and says it
    /// again. `Memory`: there was none for the longest reply, or for a copy of a call; the frame was not handled.
    ///
    /// Fewer than 2^64 bytes are fed in all, and none after `lost`.
    pub fn feed<T: Teller>(
        &mut self,
        piece: &[u8],
        now: Moment,
        teller: &mut T,
        out: &mut Bytes,
    ) -> Option<WireEnd>
        requires live { IfNone self.old.end (self.old.stage ≢ Stage.Closing) }
        requires total { self.old.held.place + length self.old.held.rest + length piece.now < 2 ^ 64 }
        ensures fixed { T.fixed teller.new ≡ T.fixed teller.old }
        ensures block { self.new.block ≡ self.old.block }
        ensures end { self.new.end ≡ result }
        ensures live { IfNone self.new.end (self.new.stage ≢ Stage.Closing) }
        ensures total { self.new.held.place + length self.new.held.rest ≤ self.old.held.place + length self.old.held.rest + length piece.now }
        ensures again { IfSome self.old.end (λ end. (result ≡ Some end) × (self.new ≡ self.old) × (out.new ≡ out.old) × (T.shown teller.new ≡ T.shown teller.old)) }
        ensures feeds { IfNone self.old.end ((bytes : List ℕ) (past : List Frame) → GivenOut bytes past self.old.held
            → Feeds (record { block = self.old.block; now = now; bytes = bytes; past = past; stage = self.old.stage; out = out.old; shown = T.shown teller.old })
            (bytes ++ piece.now) result self.new.held (feed_point self.new.stage self.new.tally out.new (T.shown teller.new))) }
    {
        if let Some(end) = self.end {
            return Some(end);
        }
        self.session.begin_tally();
        let end = feed_piece(
            &mut self.deframer,
            &mut self.session,
            piece,
            now,
            teller,
            out,
        );
        self.end = end;
        end
    }

    /// The number of its link, as Opened told it: where a session is open, and was neither closed nor displaced.
    pub fn link(&self) -> Option<LinkNumber>
        ensures { result ≡ open_link self.now.stage }
    {
        self.session.open_link()
    }

    /// How many replies the last feed had, how many of them with a code other than 0, and whether each of its asks was
    /// answered.
    pub fn tally(&self) -> Tally
        ensures { result ≡ self.now.tally }
    {
        self.session.tally()
    }

    /// The link was lost: an open session that goes on asks Lost.
    pub fn lost<T: Teller>(&mut self, now: Moment, teller: &mut T)
        ensures fixed { T.fixed teller.new ≡ T.fixed teller.old }
        ensures parts { PartsBy self.old.stage now (T.shown teller.old) (T.shown teller.new) }
        ensures closed { self.new ≡ record self.old { stage = Stage.Closing } }
    {
        self.session.lose(now, teller);
    }
}

/// Feeds the whole piece, in turns where it is longer than the deframer's room, and handles each frame.
fn feed_piece<T: Teller>(
    deframer: &mut Deframer,
    session: &mut LinkSession,
    piece: &[u8],
    now: Moment,
    teller: &mut T,
    out: &mut Bytes,
) -> Option<WireEnd>
    requires live { session.old.stage ≢ Stage.Closing }
    requires total { deframer.old.place + length deframer.old.rest + length piece.now < 2 ^ 64 }
    ensures fixed { T.fixed teller.new ≡ T.fixed teller.old }
    ensures block { session.new.block ≡ session.old.block }
    ensures live { IfNone result (session.new.stage ≢ Stage.Closing) }
    ensures total { deframer.new.place + length deframer.new.rest ≤ deframer.old.place + length deframer.old.rest + length piece.now }
    ensures feeds { (start : FeedStart) → start.block ≡ session.old.block → start.now ≡ now
        → FedSoFar start start.bytes deframer.old (feed_point session.old.stage session.old.tally out.old (T.shown teller.old))
        → Feeds start (start.bytes ++ piece.now) result deframer.new (feed_point session.new.stage session.new.tally out.new (T.shown teller.new)) }
{
    let mut left = piece;
    loop {
        if let Some(end) = handle_frames(deframer, session, now, teller, out) {
            return Some(end);
        }
        if left.is_empty() {
            return None;
        }
        let taken = deframer.feed(left);
        left = &left[taken..];
    }
}

/// Handles every whole frame that is held, in order, and says why the link ends, where it does.
fn handle_frames<T: Teller>(
    deframer: &mut Deframer,
    session: &mut LinkSession,
    now: Moment,
    teller: &mut T,
    out: &mut Bytes,
) -> Option<WireEnd>
    requires { session.old.stage ≢ Stage.Closing }
    ensures fixed { T.fixed teller.new ≡ T.fixed teller.old }
    ensures block { session.new.block ≡ session.old.block }
    ensures live { IfNone result (session.new.stage ≢ Stage.Closing) }
    ensures room { IfNone result (length deframer.new.rest < buffer_length) }
    ensures total { deframer.new.place + length deframer.new.rest ≡ deframer.old.place + length deframer.old.rest }
    ensures feeds { (start : FeedStart) (bytes : List ℕ) → start.block ≡ session.old.block → start.now ≡ now
        → FedSoFar start bytes deframer.old (feed_point session.old.stage session.old.tally out.old (T.shown teller.old))
        → Feeds start bytes result deframer.new (feed_point session.new.stage session.new.tally out.new (T.shown teller.new)) }
{
    loop {
        match deframer.head() {
            Head::NotYet => return None,
            Head::Bad(bad) => return Some(WireEnd::Bad(bad)),
            Head::Whole(header) => {
                if let Some(end) = handle_frame(&header, deframer, session, now, teller, out) {
                    return Some(end);
                }
            }
        }
    }
}

/// Handles the whole frame at the front, and gives it out where the link goes on.
fn handle_frame<T: Teller>(
    header: &Header,
    deframer: &mut Deframer,
    session: &mut LinkSession,
    now: Moment,
    teller: &mut T,
    out: &mut Bytes,
) -> Option<WireEnd>
    requires whole { (f : Frame) × Begins deframer.old.rest f × (header.now ≡ header_of f) }
    requires live { session.old.stage ≢ Stage.Closing }
    ensures fixed { T.fixed teller.new ≡ T.fixed teller.old }
    ensures block { session.new.block ≡ session.old.block }
    ensures live { IfNone result (session.new.stage ≢ Stage.Closing) }
    ensures less { IfNone result (length deframer.new.rest < length deframer.old.rest) }
    ensures total { deframer.new.place + length deframer.new.rest ≡ deframer.old.place + length deframer.old.rest }
    ensures feeds { (start : FeedStart) (bytes : List ℕ) → start.block ≡ session.old.block → start.now ≡ now
        → FedSoFar start bytes deframer.old (feed_point session.old.stage session.old.tally out.old (T.shown teller.old))
        → FeedsFrame start bytes result deframer.new (feed_point session.new.stage session.new.tally out.new (T.shown teller.new)) }
{
    match answer(session, header, deframer.payload(), now, teller, out) {
        Err(_) => Some(WireEnd::Memory),
        Ok(None) => {
            deframer.advance();
            None
        }
        Ok(Some(end)) => Some(wire_end(end, deframer.place())),
    }
}

/// Handles a frame, and appends its reply to `out`. The room for it is taken before anything is asked.
fn answer<T: Teller>(
    session: &mut LinkSession,
    header: &Header,
    payload: &[u8],
    now: Moment,
    teller: &mut T,
    out: &mut Bytes,
) -> Result<Option<FrameEnd>, OutOfMemory>
    requires { session.old.stage ≢ Stage.Closing }
    ensures fixed { T.fixed teller.new ≡ T.fixed teller.old }
    ensures live { IfOk result (λ end. IfNone end (session.new.stage ≢ Stage.Closing)) }
    ensures answers { Answers now (frame_of header.now payload.now) session.old out.old (T.shown teller.old) result session.new out.new (T.shown teller.new) }
{
    let place = out.as_slice().len();
    if let Err(fault) = out.extend(session.room()) {
        return Err(fault);
    }
    let mut log = OpenGate.log();
    match session.handle(header, payload, now, teller, &OpenGate, &mut log) {
        Ok(end) => {
            end_with_reply(out, session);
            Ok(end)
        }
        Err(fault) => {
            out.truncate(place);
            Err(fault)
        }
    }
}

/// Puts the session's reply in place of the room that stands behind what `out` had.
fn end_with_reply(out: &mut Bytes, session: &LinkSession)
    requires { MOST_REPLY ≤ length out.old }
    ensures { (before room : List ℕ) → out.old ≡ before ++ room → length room ≡ MOST_REPLY → out.new ≡ before ++ session.now.reply }
{
    let place = out.as_slice().len() - MOST_REPLY;
    let end = place + session.reply_size();
    out.put(place, session.reply());
    out.truncate(end);
}

/// Why a wire ends, by the frame that ends it, which begins at this place.
fn wire_end(end: FrameEnd, at: u64) -> WireEnd
    ensures { result ≡ end_of_frame end at }
{
    match end {
        FrameEnd::Closed => WireEnd::Closed,
        FrameEnd::Displaced => WireEnd::Displaced,
        FrameEnd::Bad(reason) => WireEnd::Bad(BadFrame { at, reason }),
    }
}
