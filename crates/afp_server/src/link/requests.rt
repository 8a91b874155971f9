//! The requests that a link writes of its own: Tickles, and the Attention of a drain.
ghost use Rattle.std.specs.Prelude.{◌≡◌, ◌≤◌, ◌<◌, false, MatchBool, option_map};
ghost use Rattle.dsi_frame.specs.Frame.{canonical_frame, header_of};
ghost use Rattle.dsi_session.specs.Pulse.{tickle_limit, seconds_between};
ghost use Rattle.dsi_session.specs.RequestIds.{id_after};
ghost use Rattle.afp_server.specs.link.Requests.{no_requests, tickle, attention, is_over, is_first_told, is_tickle_due, request_at, requests_after};
ghost use Rattle.afp_server.specs.link.lemma.Requesting.{after_bytes, request_frame};

use afp_base::Moment;
use dsi_frame::{DsiCommand, HEADER_LENGTH, Header, header_bytes};
use dsi_session::{Due, Pulse, RequestIds};
use std::marker::Model;

/// Seconds from a drain's moment, after which it ends a link.
const DRAIN_LIMIT: u32 = 60;

/// What an Attention tells at a drain: the server shuts down, within 1 minute.
const DRAIN_ATTENTION: [u8; 2] = [0x80, 0x01];

/// The bytes of an Attention.
pub const ATTENTION_LENGTH: usize = HEADER_LENGTH + 2;

/// A request that is written at a quiet, with its id.
#[derive(Clone, Copy)]
pub enum Request {
    /// The server shuts down.
    Attention(u16),
    /// The server is there.
    Tickle(u16),
}

/// What decides the requests of a link.
///
/// Contracts see the moment of the last write, whether a drain was told, and the next id.
#[derive(Drop)]
pub struct LinkRequests {
    last_write: Moment,
    drain_told: bool,
    ids: RequestIds,
}

impl Model for LinkRequests {
    ghost use Rattle.afp_server.specs.link.Requests.{Requests};

    ghost Value = { Requests };

    ghost view = { λ r. record { last_write = r.last_write; drain_told = r.drain_told; next_id = r.ids } };
}

impl LinkRequests {
    /// Of a link that is served from now on: nothing was written, and no drain was told.
    pub fn new(now: Moment) -> LinkRequests
        ensures { result ≡ no_requests now }
    {
        LinkRequests {
            last_write: now,
            drain_told: false,
            ids: RequestIds::new(),
        }
    }

    /// These bytes of a reply are written now, or none.
    pub fn note_reply(&mut self, reply: &[u8], now: Moment)
        ensures { self.new ≡ after_bytes now reply.now self.old }
    {
        if !reply.is_empty() {
            self.last_write = now;
        }
    }

    /// The request that is to be written now, at a quiet at which this drain was told, or none: it counts as written.
    pub fn next(&mut self, now: Moment, drain: &Option<Moment>) -> Option<Request>
        ensures request { option_map request_frame result ≡ request_at now drain.now self.old }
        ensures after { self.new ≡ requests_after now drain.now self.old }
    {
        if self.is_first_told(drain) {
            self.drain_told = true;
            return Some(Request::Attention(self.take_id(now)));
        }
        if is_over(drain, now) {
            return None;
        }
        if self.is_tickle_due(now) {
            Some(Request::Tickle(self.take_id(now)))
        } else {
            None
        }
    }

    /// The id of a request that is written now.
    fn take_id(&mut self, now: Moment) -> u16
        ensures id { result ≡ self.old.next_id }
        ensures after { self.new ≡ record { last_write = now; drain_told = self.old.drain_told; next_id = id_after self.old.next_id } }
    {
        self.last_write = now;
        self.ids.next()
    }

    /// Whether this drain is the first one told.
    fn is_first_told(&self, drain: &Option<Moment>) -> bool
        ensures { result ≡ is_first_told drain.now self.now }
    {
        drain.is_some() && !self.drain_told
    }

    /// Whether a Tickle is due now.
    fn is_tickle_due(&self, now: Moment) -> bool
        ensures { result ≡ is_tickle_due now self.now }
    {
        is_due(self.last_write, now)
    }
}

/// Whether a link that was last written to at this moment is to be tickled now.
fn is_due(last_write: Moment, now: Moment) -> bool
    ensures { MatchBool result (tickle_limit ≤ seconds_between last_write now) (seconds_between last_write now < tickle_limit) }
{
    let mut pulse = Pulse::new(now);
    pulse.note_write(last_write);
    match pulse.due(now) {
        Due::Silent => false,
        Due::Tickle => true,
        Due::Nothing => false,
    }
}

/// Whether the time of a drain is over now.
pub fn is_over(drain: &Option<Moment>, now: Moment) -> bool
    ensures { result ≡ is_over drain.now now }
{
    match drain {
        None => false,
        Some(moment) => now.seconds().saturating_sub(moment.seconds()) >= DRAIN_LIMIT,
    }
}

/// The header of a request with this id, and a payload of so many bytes.
fn request_header(command: DsiCommand, id: u16, length: u32) -> Header
    ensures { result ≡ record { reply = false; command = command; id = id; word = 0; length = length } }
{
    Header {
        reply: false,
        command,
        id,
        word: 0,
        length,
    }
}

/// The bytes of a Tickle.
pub fn tickle_bytes(id: u16) -> [u8; 16]
    ensures { result ≡ canonical_frame (tickle id) }
{
    header_bytes(&request_header(DsiCommand::Tickle, id, 0))
}

/// The bytes of the Attention of a drain.
pub fn attention_bytes(id: u16) -> [u8; ATTENTION_LENGTH]
    ensures { result ≡ canonical_frame (attention id) }
{
    let mut bytes = [0; ATTENTION_LENGTH];
    let header = request_header(DsiCommand::Attention, id, 2);
    bytes[..HEADER_LENGTH].copy_from_slice(&header_bytes(&header));
    bytes[HEADER_LENGTH..].copy_from_slice(&DRAIN_ATTENTION);
    bytes
}
