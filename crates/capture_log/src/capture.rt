//! A capture, as far as its lines were taken.
ghost use Rattle.std.specs.Prelude.{◌≡◌, ◌<◌, ◌+◌, ℕ, suc, length, true, None, IfOk, option_map, is_some};
ghost use Rattle.capture_log_lines.specs.declared.log.line.Line.{Line};
ghost use Rattle.capture_log.specs.Judged.{DecidesEnd};
ghost use Rattle.capture_log_server.specs.CaptureState.{CaptureState, is_refused_on, no_house};
ghost use Rattle.capture_log.specs.Taking.{IsCapture, IsLink, IsLinked, IsServer, RunsFrom, Acts, TakesLine, TakesRawLine};
ghost use Rattle.capture_log.specs.SetUp.{IsSetUp};
ghost use Rattle.capture_log_server.specs.Running.{IsFreshRunning};
ghost use Rattle.capture_log_server.specs.States.{IsRunning};
ghost use Rattle.capture_log_server.specs.declared.part.Part.{Part};
ghost use Rattle.capture_log.specs.declared.replay_end.ReplayEnd.{ReplayEnd};

use crate::replay_end::ReplayEnd;
use crate::setup::Setup;
use afp_base::{Moment, OutOfMemory, VolumeId};
use afp_serial::HouseFault;
use capture_log_lines::{Line, What, read_line};
use capture_log_server::{
    Difference, Part, ReplayCounts, Running, SoleTeller, TellerMaker, part_after,
};
use std::alloc::Global;
use std::marker::Model;

/// A capture, line by line: what may come next, the house that the lines make, the keepers, until something happens, and from there on
/// the server; and how many lines there were.
#[derive(Drop)]
pub struct Capture<M: TellerMaker> {
    alloc: Global,
    part: Part,
    setup: Setup,
    fresh: Option<M>,
    running: Option<Running<M::Made>>,
    number: u64,
}

impl<M: TellerMaker> Model for Capture<M> {
    ghost use Rattle.std.specs.Prelude.{is_some};
    ghost use Rattle.capture_log.specs.Taking.{HeldCapture};

    ghost Value = { HeldCapture };

    ghost view = { λ c. record { part = c.part; house = c.setup; waiting = is_some c.fresh; running = c.running; number = c.number } };
}

/// A server of the house that the lines made, from now on. The house was found good line by line, so it is made, or there is no memory.
fn begin_running<M: TellerMaker>(
    alloc: Global,
    fresh: Option<M>,
    setup: &mut Setup,
    now: Moment,
) -> Result<Running<M::Made>, OutOfMemory>
    requires waiting { is_some fresh ≡ true }
    requires set_up { IsSetUp Part.Events setup.old }
    ensures { IfOk result (λ r. IsFreshRunning setup.old now r) }
{
    let Some(fresh) = fresh else {
        unreachable!();
    };
    match setup.house(alloc) {
        Ok(house) => {
            let teller = fresh.make(alloc, &house, now)?;
            Running::new(alloc, house, teller)
        }
        Err(fault) => match fault {
            HouseFault::Memory => Err(OutOfMemory),
            _ => unreachable!(),
        },
    }
}

/// The server that is there, or one that begins now.
fn running_from<M: TellerMaker>(
    alloc: Global,
    there: Option<Running<M::Made>>,
    fresh: Option<M>,
    setup: &mut Setup,
    now: Moment,
) -> Result<Running<M::Made>, OutOfMemory>
    requires { (s : CaptureState) × IsServer there setup.old (is_some fresh) s × (s.part ≡ Part.Events) }
    ensures { IfOk result (λ r. (s : CaptureState) → IsServer there setup.old (is_some fresh) s → RunsFrom s now r) }
{
    match there {
        Some(running) => Ok(running),
        None => begin_running(alloc, fresh, setup, now),
    }
}

/// Whether bytes come on a connection that was lost.
fn is_refused_on<T: SoleTeller>(running: &Running<T>, index: usize, what: &What) -> bool
    requires { index < length running.now.connections }
    ensures { (s : CaptureState) (first : ℕ) → IsRunning running.now s first → result ≡ is_refused_on (s.connections (suc index)) what.now }
{
    match what {
        What::In(_) => running.is_lost(index),
        What::Quiet | What::Lost | What::Out(_) => false,
    }
}

/// What a byte that differs decides.
fn verdict_on(link: u32, found: Option<Difference>) -> Option<ReplayEnd>
    ensures { result ≡ option_map (λ d. ReplayEnd.Differs link d.at d.want d.got) found }
{
    match found {
        None => None,
        Some(difference) => Some(ReplayEnd::Differs {
            link: u64::from(link),
            at: difference.at,
            want: difference.want,
            got: difference.got,
        }),
    }
}

/// What happens on the connection of a number, and what it decides, if it does.
fn act<T: SoleTeller>(
    running: &mut Running<T>,
    link: u32,
    now: Moment,
    what: &What,
    number: u64,
) -> Result<Option<ReplayEnd>, OutOfMemory>
    requires link { IsLink link }
    requires is { (s : CaptureState) × RunsFrom s now running.old }
    ensures { IfOk result (λ verdict. (s : CaptureState) → RunsFrom s now running.old → s.part ≡ Part.Events → Acts s number link now what.now verdict running.new) }
{
    let index = (link - 1) as usize;
    if is_refused_on(running, index, what) {
        return Ok(Some(ReplayEnd::BadCapture { line: number }));
    }
    let found = running.happen(index, now, what)?;
    Ok(verdict_on(link, found))
}

/// The answer with these counts.
fn same_of(counts: ReplayCounts) -> ReplayEnd
    ensures { result ≡ ReplayEnd.Same counts.links counts.entries counts.replies counts.refused }
{
    ReplayEnd::Same {
        links: counts.links,
        entries: counts.entries,
        replies: counts.replies,
        refused: counts.refused,
    }
}

impl<M: TellerMaker> Capture<M> {
    ghost use Rattle.std.specs.Prelude.{false, Some};
    ghost use Rattle.capture_log.specs.lemma.Judged.{IsSame};
    ghost use Rattle.capture_log_server.specs.CaptureState.{begins, part_after};
    ghost use Rattle.capture_log.specs.Taking.{is_event};
    ghost use Rattle.capture_log.specs.Standing.{nodes_of, uncompared};

    /// No line was taken.
    pub fn new(alloc: Global, fresh: M) -> Capture<M>
        ensures value { result ≡ record { part = Part.Title; house = no_house; waiting = true; running = None; number = 0 } }
        ensures begins { IsCapture result begins }
    {
        Capture {
            alloc,
            part: Part::Title,
            setup: Setup::new(alloc),
            fresh: Some(fresh),
            running: None,
            number: 0,
        }
    }

    /// The number of the next line.
    pub fn next_number(&self) -> Result<u64, OutOfMemory>
        ensures { IfOk result (λ number. number ≡ self.now.number + 1) }
    {
        match self.number.checked_add(1) {
            Some(number) => Ok(number),
            None => Err(OutOfMemory),
        }
    }

    /// A line of the house, or the end, that may come here.
    fn take_part(
        &mut self,
        part: Part,
        line: &Line,
        number: u64,
    ) -> Result<Option<ReplayEnd>, OutOfMemory>
        requires may { part_after self.old.part line.now ≡ Some part }
        requires other { is_event line.now ≡ false }
        ensures { IfOk result (λ verdict. (s : CaptureState) → IsCapture self.old s → TakesLine s number line.now verdict self.new) }
    {
        if self.setup.refuses(line) {
            return Ok(Some(ReplayEnd::BadCapture { line: number }));
        }
        self.setup.take(line)?;
        self.part = part;
        Ok(None)
    }

    /// What happened on a connection.
    fn take_event(
        &mut self,
        link: u32,
        now: Moment,
        what: &What,
        number: u64,
    ) -> Result<Option<ReplayEnd>, OutOfMemory>
        requires link { IsLink link }
        requires is { (s : CaptureState) × IsCapture self.old s }
        requires may { self.old.part ≡ Part.Events }
        ensures { IfOk result (λ verdict. (s : CaptureState) → IsCapture self.old s → TakesLine s number (Line.At link now what.now) verdict self.new) }
    {
        let there = self.running.take();
        let fresh = self.fresh.take();
        let mut running = running_from(self.alloc, there, fresh, &mut self.setup, now)?;
        let verdict = act(&mut running, link, now, what, number);
        self.running = Some(running);
        verdict
    }

    /// A line of a good form.
    fn take_line(&mut self, line: &Line, number: u64) -> Result<Option<ReplayEnd>, OutOfMemory>
        requires linked { IsLinked line.now }
        requires is { (s : CaptureState) × IsCapture self.old s }
        ensures { IfOk result (λ verdict. (s : CaptureState) → IsCapture self.old s → TakesLine s number line.now verdict self.new) }
    {
        let Some(part) = part_after(self.part, line) else {
            return Ok(Some(ReplayEnd::BadCapture { line: number }));
        };
        match line {
            Line::At { link, moment, what } => self.take_event(*link, *moment, what, number),
            _ => self.take_part(part, line, number),
        }
    }

    /// Takes the next line, which stands without its newline, and says what it decides, if it does.
    pub fn take(&mut self, raw: &[u8]) -> Result<Option<ReplayEnd>, OutOfMemory>
        requires { (s : CaptureState) × IsCapture self.old s }
        ensures { IfOk result (λ verdict. (s : CaptureState) → IsCapture self.old s → TakesRawLine s (self.old.number + 1) raw.now verdict self.new) }
    {
        let number = self.next_number()?;
        let Some(line) = read_line(self.alloc, raw)? else {
            return Ok(Some(ReplayEnd::BadCapture { line: number }));
        };
        let verdict = self.take_line(&line, number)?;
        self.number = number;
        Ok(verdict)
    }

    /// What of the output of a connection was not compared yet.
    pub fn uncompared(&self, link: u32) -> &[u8]
        requires link { IsLink link }
        requires is { (s : CaptureState) × IsCapture self.now s }
        ensures { (s : CaptureState) → IsCapture self.now s → result.now ≡ uncompared (s.connections link) }
    {
        match &self.running {
            Some(running) => running.uncompared((link - 1) as usize),
            None => &[],
        }
    }

    /// How many nodes the volume of an id has in the world that the history makes, its root among them. `None`: there is no such
    /// volume, or nothing has happened.
    pub fn nodes(&self, volume: VolumeId) -> Option<usize>
        ensures { (s : CaptureState) → IsCapture self.now s → result ≡ nodes_of s volume.0 }
    {
        match &self.running {
            Some(running) => running.nodes(volume),
            None => None,
        }
    }

    /// The counts, where all is the same.
    fn same(&self) -> ReplayEnd
        ensures { (s : CaptureState) → IsCapture self.now s → IsSame s result }
    {
        match &self.running {
            Some(running) => same_of(running.counts()),
            None => ReplayEnd::Same {
                links: 0,
                entries: 0,
                replies: 0,
                refused: 0,
            },
        }
    }

    /// What the end of the capture decides.
    pub fn end(&self) -> Result<ReplayEnd, OutOfMemory>
        ensures { IfOk result (λ verdict. (s : CaptureState) → IsCapture self.now s → DecidesEnd s (self.now.number + 1) verdict) }
    {
        let line = self.next_number()?;
        match self.part {
            Part::Nothing => Ok(self.same()),
            _ => Ok(ReplayEnd::BadCapture { line }),
        }
    }
}
