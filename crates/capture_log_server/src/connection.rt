//! One connection of a capture.
ghost use Rattle.std.specs.Prelude.{◌≡◌, ◌≢◌, ◌+◌, ◌^◌, ◌<◌, ◌≤◌, List, ℕ, false, None, Some, IfOk, OnOk, length, drop};
ghost use Rattle.afp_serial.specs.StatusBlock.{status_block};
ghost use Rattle.afp_serial.specs.declared.ask.Told.{Told};
ghost use Rattle.afp_serial.specs.Answered.{told_of};
ghost use Rattle.capture_log_server.specs.lemma.Moves.{wire_or};
ghost use Rattle.capture_log_server.specs.CaptureState.{after_quiet, after_loss};
ghost use Rattle.afp_server.specs.declared.link.stage.Stage.{Stage};
ghost use Rattle.dsi_frame.specs.Deframe.{GivenOut};
ghost use Rattle.dsi_frame.specs.Frame.{Frame};
ghost use Rattle.capture_log_server.specs.lemma.States.{FeedsWire, GoesOn, is_end};

use crate::difference::{Difference, first_difference};
use crate::teller::SoleTeller;
use afp_base::{Bytes, LinkNumber, Moment, OutOfMemory};
use afp_serial::{Answered, Ask, House, Teller};
use afp_server::{Tally, Wire, WireEnd};
use std::alloc::Global;
use std::marker::Model;

/// A connection: the wire that its bytes are fed to, and what of its output was not compared yet.
#[derive(Drop)]
pub struct Connection {
    wire: Option<Wire>,
    fed: u64,
    used: bool,
    over: bool,
    lost: bool,
    out: Bytes,
    place: usize,
    named: u64,
}

impl Model for Connection {
    ghost use Rattle.capture_log_server.specs.States.{ConnectionState};

    ghost Value = { ConnectionState };

    ghost view = { λ c. record {
      wire = c.wire;
      fed = c.fed;
      used = c.used;
      over = c.over;
      lost = c.lost;
      out = c.out;
      place = c.place;
      named = c.named;
    } };
}

/// Why a wire takes no more bytes, where it does.
fn is_over(end: Option<WireEnd>) -> Result<bool, OutOfMemory>
    ensures { IfOk result (λ over. (over ≡ is_end end) × (end ≢ Some WireEnd.Memory)) }
{
    match end {
        None => Ok(false),
        Some(WireEnd::Memory) => Err(OutOfMemory),
        Some(WireEnd::Closed) => Ok(true),
        Some(WireEnd::Bad(_)) => Ok(true),
        Some(WireEnd::Displaced) => Ok(true),
    }
}

/// Feeds bytes to a wire, and says whether it takes no more.
fn feed_wire<T: SoleTeller>(
    wire: &mut Wire,
    piece: &[u8],
    now: Moment,
    teller: &mut T,
    out: &mut Bytes,
) -> Result<bool, OutOfMemory>
    requires goes_on { wire.old.end ≡ None }
    requires live { wire.old.stage ≢ Stage.Closing }
    requires total { wire.old.held.place + length wire.old.held.rest + length piece.now < 2 ^ 64 }
    ensures fed { IfOk result (λ over. (bytes : List ℕ) (past : List Frame) → GivenOut bytes past wire.old.held
        → FeedsWire now bytes past piece.now wire.old out.old (T.shown teller.old) over wire.new out.new (T.shown teller.new)) }
    ensures goes_on { IfOk result (λ over. GoesOn over wire.new) }
    ensures block { wire.new.block ≡ wire.old.block }
    ensures total { wire.new.held.place + length wire.new.held.rest ≤ wire.old.held.place + length wire.old.held.rest + length piece.now }
{
    let end = wire.feed(piece, now, teller, out);
    if !wire.tally().answered {
        return Err(OutOfMemory);
    }
    is_over(end)
}

/// The wire that is there, or a new one.
fn wire_of(
    alloc: Global,
    there: Option<Wire>,
    house: &House,
    now: Moment,
) -> Result<Wire, OutOfMemory>
    ensures { IfOk result (λ wire. wire ≡ wire_or (status_block house.now) there) }
{
    match there {
        Some(wire) => Ok(wire),
        None => Wire::new(alloc, house, now),
    }
}

impl Connection {
    ghost use Rattle.capture_log_server.specs.States.{IsConnection, unused_state};
    ghost use Rattle.capture_log_server.specs.lemma.Moves.{FeedsConnection, IdlesConnection, LosesConnection, Compares};
    ghost use Rattle.capture_log_server.specs.Connections.{Connection as Peer};
    ghost use Rattle.afp_server.specs.link.Wire.{open_link};

    /// One that no line has named.
    pub fn new(alloc: Global) -> Connection
        ensures { result ≡ unused_state }
    {
        Connection {
            wire: None,
            fed: 0,
            used: false,
            over: false,
            lost: false,
            out: Bytes::new(alloc),
            place: 0,
            named: 0,
        }
    }

    /// Whether bytes were fed to it.
    pub fn is_used(&self) -> bool
        ensures { result ≡ self.now.used }
    {
        self.used
    }

    /// Whether it takes no more bytes.
    pub fn is_over(&self) -> bool
        ensures { result ≡ self.now.over }
    {
        self.over
    }

    /// Whether it was lost.
    pub fn is_lost(&self) -> bool
        ensures { result ≡ self.now.lost }
    {
        self.lost
    }

    /// Feeds bytes, and tells what was answered. An error leaves it without its wire.
    pub fn feed<T: SoleTeller>(
        &mut self,
        alloc: Global,
        house: &House,
        piece: &[u8],
        now: Moment,
        teller: &mut T,
    ) -> Result<Tally, OutOfMemory>
        requires is { (s : Peer) × IsConnection (status_block house.now) self.old s }
        requires takes { self.old.over ≡ false }
        requires there { self.old.lost ≡ false }
        ensures { IfOk result (λ tally. (s : Peer) → IsConnection (status_block house.now) self.old s
            → FeedsConnection (status_block house.now) now piece.now s (T.shown teller.old) tally self.new (T.shown teller.new)) }
    {
        let Some(fed) = self.fed.checked_add(piece.len() as u64) else {
            return Err(OutOfMemory);
        };
        let mut wire = wire_of(alloc, self.wire.take(), house, now)?;
        let over = feed_wire(&mut wire, piece, now, teller, &mut self.out)?;
        let tally = wire.tally();
        self.wire = Some(wire);
        self.fed = fed;
        self.used = true;
        self.over = over;
        Ok(tally)
    }

    /// The link of the session that is open, if one is.
    fn link(&self) -> Option<LinkNumber>
        ensures { (block : List ℕ) (s : Peer) → IsConnection block self.now s → result ≡ open_link s.stage }
    {
        match &self.wire {
            Some(wire) => wire.link(),
            None => None,
        }
    }

    /// Has no wire any more, since no link is open.
    fn drop_wire(&mut self)
        ensures { self.new ≡ record self.old { wire = None } }
    {
        self.wire = None;
    }

    /// What a Pulse was told.
    fn pulsed(&mut self, answered: Answered) -> Result<(), OutOfMemory>
        ensures memory { (out : List ℕ) → OnOk result (told_of answered out ≢ Told.Memory) }
        ensures is { (out : List ℕ) → OnOk result ((block : List ℕ) (s : Peer) → IsConnection block self.old s → IsConnection block self.new (after_quiet (told_of answered out) s)) }
    {
        match answered {
            Answered::Memory => Err(OutOfMemory),
            Answered::Displaced => {
                self.over = true;
                self.drop_wire();
                Ok(())
            }
            Answered::Opened { .. }
            | Answered::Reply { .. }
            | Answered::Live { .. }
            | Answered::Done => Ok(()),
        }
    }

    /// A quiet.
    pub fn idle<T: SoleTeller>(&mut self, now: Moment, teller: &mut T) -> Result<(), OutOfMemory>
        ensures { OnOk result ((block : List ℕ) (s : Peer) → IsConnection block self.old s
            → IdlesConnection (open_link s.stage) block now s (T.shown teller.old) self.new (T.shown teller.new)) }
    {
        match self.link() {
            Some(link) => {
                let answered = teller.ask(now, link, Ask::Pulse, &mut []);
                self.pulsed(answered)
            }
            None => Ok(()),
        }
    }

    /// It was lost.
    fn end(&mut self)
        ensures { (block : List ℕ) (s : Peer) → IsConnection block self.old s → IsConnection block self.new (after_loss s) }
    {
        self.lost = true;
        self.drop_wire();
    }

    /// A loss.
    pub fn lose<T: SoleTeller>(&mut self, now: Moment, teller: &mut T) -> Result<(), OutOfMemory>
        ensures { OnOk result ((block : List ℕ) (s : Peer) → IsConnection block self.old s
            → LosesConnection (open_link s.stage) block now s (T.shown teller.old) self.new (T.shown teller.new)) }
    {
        match self.link() {
            Some(link) => {
                let answered = teller.ask(now, link, Ask::Lost, &mut []);
                is_told(answered)?;
                self.end();
                Ok(())
            }
            None => {
                self.end();
                Ok(())
            }
        }
    }

    /// Passes over bytes that were compared.
    fn pass(&mut self, size: usize, named: u64)
        ensures rest { drop self.new.place self.new.out ≡ drop size (drop self.old.place self.old.out) }
        ensures inside { self.new.place ≤ length self.new.out }
        ensures others { self.new ≡ record self.old { out = self.new.out; place = self.new.place; named = named } }
    {
        self.named = named;
        if size < self.out.as_slice().len().saturating_sub(self.place) {
            self.place += size;
        } else {
            self.out.truncate(0);
            self.place = 0;
        }
    }

    /// What of its output was not compared yet.
    pub fn uncompared(&self) -> &[u8]
        ensures { result.now ≡ drop self.now.place self.now.out }
    {
        let out = self.out.as_slice();
        if self.place < out.len() {
            &out[self.place..]
        } else {
            &out[out.len()..]
        }
    }

    /// Compares bytes with those of the output that were not compared yet.
    pub fn compare(&mut self, wanted: &[u8]) -> Result<Option<Difference>, OutOfMemory>
        ensures { IfOk result (λ found. (block : List ℕ) (s : Peer) → IsConnection block self.old s → Compares block wanted.now s found self.new) }
    {
        let Some(named) = self.named.checked_add(wanted.len() as u64) else {
            return Err(OutOfMemory);
        };
        if let Some(found) = first_difference(wanted, self.uncompared(), self.named) {
            return Ok(Some(found));
        }
        self.pass(wanted.len(), named);
        Ok(None)
    }
}

/// An ask was answered.
fn is_told(answered: Answered) -> Result<(), OutOfMemory>
    ensures { OnOk result ((out : List ℕ) → told_of answered out ≢ Told.Memory) }
{
    match answered {
        Answered::Memory => Err(OutOfMemory),
        Answered::Opened { .. }
        | Answered::Reply { .. }
        | Answered::Live { .. }
        | Answered::Done
        | Answered::Displaced => Ok(()),
    }
}
