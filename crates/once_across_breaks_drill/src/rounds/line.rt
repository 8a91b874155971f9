//! The server end of a link, to which whole requests go.
ghost use Rattle.std.specs.Prelude.{◌≡◌, ◌≢◌, ◌+◌, ◌<◌, ◌≤◌, ◌^◌, List, [], ℕ, Bool, None, Some, IfOk, OnOk, length};
ghost use Rattle.afp_serial.specs.StatusBlock.{status_block};
ghost use Rattle.afp_server.specs.declared.link.stage.Stage.{Stage};
ghost use Rattle.dsi_frame.specs.Deframe.{GivenOut};
ghost use Rattle.dsi_frame.specs.Frame.{Frame, IsGood, canonical_frame};
ghost use Rattle.once_across_breaks_drill.specs.rounds.Lines.{Loses, ServesLine};
ghost use Rattle.afp_server.specs.link.Wire.{open_link};
ghost use Rattle.afp_serial.specs.declared.ask.Told.{Told};
ghost use Rattle.afp_serial.specs.Answered.{told_of};
ghost use Rattle.once_across_breaks_drill.specs.rounds.lemma.Whole.{FeedsWhole, is_end};

use afp_base::{Bytes, LinkNumber, Moment, OutOfMemory};
use afp_serial::{Answered, Ask, House, Teller};
use afp_server::{Wire, WireEnd};
use capture_log_server::SoleTeller;
use once_across_breaks_code::server::laws::pieces_that_are_fed_do_as_the_law_says;
use std::alloc::Global;
use std::marker::Model;

/// The server end of a link that goes on, between two requests.
///
/// Contracts see the status block of its server, and how far the link has come.
#[derive(Drop)]
pub struct Line {
    wire: Wire,
    fed: u64,
}

impl Model for Line {
    ghost use Rattle.once_across_breaks_drill.specs.rounds.Lines.{IsBetween, LineState};

    ghost Value = { LineState };

    ghost view = { λ l. record { block = l.wire.block; stage = l.wire.stage } };

    ghost invariant = { λ l. IsBetween l.wire l.fed };
}

/// Whether a wire takes no more bytes.
fn is_over(end: Option<WireEnd>) -> Result<bool, OutOfMemory>
    ensures { IfOk result (λ over. (over ≡ is_end end) × (end ≢ Some WireEnd.Memory)) }
{
    match end {
        None => Ok(false),
        Some(WireEnd::Memory) => Err(OutOfMemory),
        Some(WireEnd::Closed) => Ok(true),
        Some(WireEnd::Bad(_)) => Ok(true),
        Some(WireEnd::Displaced) => Ok(true),
    }
}

/// Feeds a whole request to a wire, and says whether that ended the link.
fn feed_whole<T: SoleTeller>(
    wire: &mut Wire,
    request: &[u8],
    now: Moment,
    teller: &mut T,
    out: &mut Bytes,
) -> Result<bool, OutOfMemory>
    requires goes_on { wire.old.end ≡ None }
    requires live { wire.old.stage ≢ Stage.Closing }
    requires total { wire.old.held.place + length wire.old.held.rest + length request.now < 2 ^ 64 }
    ensures feeds { IfOk result (λ over. (bytes : List ℕ) (past : List Frame) (f : Frame) → GivenOut bytes past wire.old.held → wire.old.held.rest ≡ [] → IsGood f → request.now ≡ canonical_frame f
        → FeedsWhole now bytes past f wire.old out.old (T.shown teller.old) over wire.new out.new (T.shown teller.new)) }
    ensures total { wire.new.held.place + length wire.new.held.rest ≤ wire.old.held.place + length wire.old.held.rest + length request.now }
{
    pieces_that_are_fed_do_as_the_law_says();
    let end = wire.feed(request, now, teller, out);
    if !wire.tally().answered {
        return Err(OutOfMemory);
    }
    is_over(end)
}

/// An ask was answered.
fn is_told(answered: Answered) -> Result<(), OutOfMemory>
    ensures { (out : List ℕ) → OnOk result (told_of answered out ≢ Told.Memory) }
{
    match answered {
        Answered::Memory => Err(OutOfMemory),
        Answered::Opened { .. }
        | Answered::Reply { .. }
        | Answered::Live { .. }
        | Answered::Done
        | Answered::Displaced => Ok(()),
    }
}

impl Line {
    /// The server end of a link that nothing has come on. The one error is want of memory.
    pub fn new(alloc: Global, house: &House, now: Moment) -> Result<Line, OutOfMemory>
        ensures { IfOk result (λ line. line ≡ record { block = status_block house.now; stage = Stage.Fresh }) }
    {
        let wire = Wire::new(alloc, house, now)?;
        Ok(Line { wire, fed: 0 })
    }

    /// The number of its link, where a session is open there.
    pub fn link(&self) -> Option<LinkNumber>
        ensures { result ≡ open_link self.now.stage }
    {
        self.wire.link()
    }

    /// A whole request comes: it is handled, and its reply, where it has one, is appended to `out`. The line behind it is told, or none where the
    /// request ended the link. The one error is want of memory: the line is gone then.
    pub fn serve<T: SoleTeller>(
        self,
        request: &[u8],
        now: Moment,
        teller: &mut T,
        out: &mut Bytes,
    ) -> Result<Option<Line>, OutOfMemory>
        requires { (f : Frame) × IsGood f × (request.now ≡ canonical_frame f) }
        ensures { IfOk result (λ line. (f : Frame) → IsGood f → request.now ≡ canonical_frame f → ServesLine now f self out.old (T.shown teller.old) line out.new (T.shown teller.new)) }
    {
        let Some(fed) = self.fed.checked_add(request.len() as u64) else {
            return Err(OutOfMemory);
        };
        let mut wire = self.wire;
        let over = feed_whole(&mut wire, request, now, teller, out)?;
        if over {
            return Ok(None);
        }
        Ok(Some(Line { wire, fed }))
    }

    /// The link is lost: a session that is open there asks Lost. The one error is want of memory for that.
    pub fn lose<T: SoleTeller>(self, now: Moment, teller: &mut T) -> Result<(), OutOfMemory>
        ensures { OnOk result (Loses now (open_link self.stage) (T.shown teller.old) (T.shown teller.new)) }
    {
        match self.wire.link() {
            None => Ok(()),
            Some(link) => is_told(teller.ask(now, link, Ask::Lost, &mut [])),
        }
    }
}
