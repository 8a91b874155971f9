//! A link: its server end, and the bytes under way on it.
ghost use Rattle.std.specs.Prelude.{◌≡◌, ◌≢◌, ◌+◌, ◌<◌, ◌≤◌, true, false, List, ℕ, None, Some, length, slice_get, IfOk};
ghost use Rattle.afp_serial.specs.Answered.{told_of};
ghost use Rattle.afp_serial.specs.declared.ask.Told.{Told};
ghost use Rattle.afp_server.specs.declared.link.stage.Stage.{Stage};
ghost use Rattle.once_across_breaks_code.specs.run.Doings.{is_displaced};
ghost use Rattle.once_across_breaks_code.specs.run.Things as things;
ghost use Rattle.once_across_breaks_live.specs.lemma.Lanes.{ChangesAt, FedWith, FeedsLane, IdlesLane, IsLane, IsStill, LosesLane, PartsTold, open_at};

use crate::flight::{moved, take_away};
use afp_base::{Bytes, LinkNumber, Moment, OutOfMemory};
use afp_serial::{Answered, Ask, Teller};
use afp_server::{Wire, WireEnd};
use std::alloc::Global;
use volume_spec::bytes_in_range;

/// A link: its server end until that has ended, with how many bytes were fed to it; the bytes under way to it, and those under way to the
/// client.
#[derive(Drop)]
pub(crate) struct Lane {
    pub(crate) wire: Option<Wire>,
    pub(crate) fed: u64,
    pub(crate) up: Bytes,
    pub(crate) down: Bytes,
}

/// The wire, where it goes on.
fn still(wire: Wire, end: Option<WireEnd>) -> Result<Option<Wire>, OutOfMemory>
    ensures { IfOk result (λ there. IsStill wire end there) }
{
    match end {
        None => Ok(Some(wire)),
        Some(WireEnd::Memory) => Err(OutOfMemory),
        Some(WireEnd::Closed) => Ok(None),
        Some(WireEnd::Displaced) => Ok(None),
        Some(WireEnd::Bad(_)) => Ok(None),
    }
}

/// Whether no session has the link any more.
fn is_displaced(answered: Answered) -> bool
    ensures { (out : List ℕ) → result ≡ is_displaced (told_of answered out) }
{
    match answered {
        Answered::Displaced => true,
        Answered::Opened { .. } => false,
        Answered::Reply { .. } => false,
        Answered::Live { .. } => false,
        Answered::Done => false,
        Answered::Memory => false,
    }
}

impl Lane {
    /// Feeds the first bytes under way to the server end, and says whether they were answered.
    fn feed_wire<T: Teller>(
        &mut self,
        alloc: Global,
        begun: Wire,
        size: usize,
        now: Moment,
        teller: &mut T,
    ) -> Result<bool, OutOfMemory>
        requires within { size ≤ length self.old.up }
        requires goes_on { begun.end ≡ None }
        requires live { begun.stage ≢ Stage.Closing }
        requires most { begun.held.place + length begun.held.rest ≤ self.old.fed }
        ensures { IfOk result (λ told. FedWith told size now begun self.old (T.shown teller.old) self.new (T.shown teller.new)) }
    {
        let Some(fed) = self.fed.checked_add(size as u64) else {
            return Err(OutOfMemory);
        };
        let mut wire = begun;
        let end = wire.feed(&self.up.as_slice()[..size], now, teller, &mut self.down);
        let told = wire.tally().answered;
        let there = still(wire, end)?;
        self.wire = there;
        self.fed = fed;
        bytes_in_range(self.down.as_slice());
        take_away(alloc, &mut self.up, size)?;
        Ok(told)
    }

    /// At most so many bytes under way reach the server end; its replies are under way then. Says whether they were answered.
    pub(crate) fn feed<T: Teller>(
        &mut self,
        alloc: Global,
        most: u32,
        now: Moment,
        teller: &mut T,
    ) -> Result<bool, OutOfMemory>
        requires { (x : things.Lane) × IsLane self.old x }
        ensures { IfOk result (λ told. (x : things.Lane) → IsLane self.old x → FeedsLane told most now x (T.shown teller.old) self.new (T.shown teller.new)) }
    {
        let size = moved(&self.up, most);
        if size == 0 {
            return Ok(true);
        }
        match self.wire.take() {
            None => Ok(true),
            Some(wire) => self.feed_wire(alloc, wire, size, now, teller),
        }
    }

    /// The link of the session that is open there.
    fn link(&self) -> Option<LinkNumber>
        ensures { result ≡ open_at self.now.wire }
    {
        match &self.wire {
            Some(wire) => wire.link(),
            None => None,
        }
    }

    /// Its server end has ended, where that is so.
    fn end_where(&mut self, ends: bool)
        ensures { (x : things.Lane) → IsLane self.old x → x.ended ≡ false → IsLane self.new (record { wire = x.wire; ended = ends; up = x.up; down = x.down }) }
    {
        if !ends {
            return;
        }
        self.wire = None;
    }

    /// The server end reads nothing for a while.
    pub(crate) fn idle<T: Teller>(&mut self, now: Moment, teller: &mut T)
        ensures { (x : things.Lane) → IsLane self.old x → IdlesLane now x (T.shown teller.old) self.new (T.shown teller.new) }
    {
        match self.link() {
            None => {}
            Some(link) => {
                let answered = teller.ask(now, link, Ask::Pulse, &mut []);
                self.end_where(is_displaced(answered))
            }
        }
    }

    /// The server end is lost. Says whether that was answered.
    pub(crate) fn lose<T: Teller>(&mut self, now: Moment, teller: &mut T) -> bool
        ensures { (x : things.Lane) → IsLane self.old x → LosesLane result now x (T.shown teller.old) self.new (T.shown teller.new) }
    {
        match self.wire.take() {
            None => true,
            Some(wire) => lose_wire(&wire, now, teller),
        }
    }
}

/// An ask was answered, and not told want of memory.
fn is_told(answered: Answered) -> bool
    ensures { (out : List ℕ) → result ≡ true → told_of answered out ≢ Told.Memory }
{
    match answered {
        Answered::Memory => false,
        Answered::Opened { .. }
        | Answered::Reply { .. }
        | Answered::Live { .. }
        | Answered::Done
        | Answered::Displaced => true,
    }
}

/// A wire is lost: a session that is open there asks Lost. Says whether that was answered.
fn lose_wire<T: Teller>(wire: &Wire, now: Moment, teller: &mut T) -> bool
    ensures { PartsTold result wire.now.stage now (T.shown teller.old) (T.shown teller.new) }
{
    match wire.link() {
        None => true,
        Some(link) => is_told(teller.ask(now, link, Ask::Lost, &mut [])),
    }
}

/// At most so many bytes reach the server end of the link at a place. Says whether they were answered.
pub(crate) fn feed_at<T: Teller>(
    lanes: &mut [Lane],
    index: usize,
    alloc: Global,
    most: u32,
    now: Moment,
    teller: &mut T,
) -> Result<bool, OutOfMemory>
    requires within { index < length lanes.old }
    requires is { (l : Lane) → slice_get lanes.old index ≡ Some l → (x : things.Lane) × IsLane l x }
    ensures { IfOk result (λ told. ChangesAt index lanes.old lanes.new (λ old new. (x : things.Lane) → IsLane old x → FeedsLane told most now x (T.shown teller.old) new (T.shown teller.new))) }
{
    lanes[index].feed(alloc, most, now, teller)
}

/// A quiet of the server end of the link at a place.
pub(crate) fn idle_at<T: Teller>(lanes: &mut [Lane], index: usize, now: Moment, teller: &mut T)
    requires { index < length lanes.old }
    ensures { ChangesAt index lanes.old lanes.new (λ old new. (x : things.Lane) → IsLane old x → IdlesLane now x (T.shown teller.old) new (T.shown teller.new)) }
{
    lanes[index].idle(now, teller)
}

/// The loss of the server end of the link at a place. Says whether that was answered.
pub(crate) fn lose_at<T: Teller>(
    lanes: &mut [Lane],
    index: usize,
    now: Moment,
    teller: &mut T,
) -> bool
    requires { index < length lanes.old }
    ensures { ChangesAt index lanes.old lanes.new (λ old new. (x : things.Lane) → IsLane old x → LosesLane result now x (T.shown teller.old) new (T.shown teller.new)) }
{
    lanes[index].lose(now, teller)
}
