//! The client, and what it was told.
ghost use Rattle.std.specs.Prelude.{◌≡◌, ◌≢◌, ◌+◌, ◌<◌, ◌≤◌, ◌++◌, not, length, IfOk, OnOk};
ghost use Rattle.once_across_breaks_code.specs.run.Doings.{told_in};
ghost use Rattle.once_across_breaks_live.specs.Happens.{is_last};
ghost use Rattle.once_across_breaks_live.specs.lemma.Lanes.{ChangesAt};
ghost use Rattle.once_across_breaks_live.specs.lemma.Near.{AsksNear, BringsNear, TakesAll, TakesOne, near};

use crate::askable::is_askable;
use crate::flight::{moved, take_away};
use crate::lane::Lane;
use afp_base::{Bytes, OutOfMemory};
use afp_calls_grammar::Call;
use afp_client::{ClientCore, Event};
use replay_cache::Answer;
use std::alloc::Global;

/// The client, how many bytes came to it on its newest link, and what it was told of its calls.
#[derive(Drop)]
pub(crate) struct ClientEnd {
    pub(crate) client: ClientCore,
    pub(crate) came: u64,
    pub(crate) results: Vec<Answer>,
}

/// Keeps what an event tells, and says whether the next one may be taken.
fn note(event: Event, results: &mut Vec<Answer>) -> Result<bool, OutOfMemory>
    ensures goes_on { IfOk result (λ goes_on. is_last event ≡ not goes_on) }
    ensures told { OnOk result (results.new.items ≡ results.old.items ++ told_in event) }
    ensures memory { OnOk result (event ≢ Event.Memory) }
{
    match event {
        Event::Memory => Err(OutOfMemory),
        Event::NotYet => Ok(false),
        Event::Bad { .. } => Ok(false),
        Event::Told { code, block } => {
            results.push(Answer { code, block })?;
            Ok(true)
        }
        Event::Step => Ok(true),
        Event::Ready => Ok(true),
        Event::Refused { .. } => Ok(true),
        Event::Lost { .. } => Ok(true),
        Event::Tickle => Ok(true),
        Event::Attention(_) => Ok(true),
        Event::Closed => Ok(true),
    }
}

impl ClientEnd {
    /// Takes what the client's next event is.
    fn next(&mut self, up: &mut Bytes) -> Result<bool, OutOfMemory>
        ensures takes { IfOk result (λ goes_on. TakesOne goes_on (near self.old up.old) (near self.new up.new)) }
        ensures came { OnOk result (self.new.came ≡ self.old.came) }
    {
        let event = self.client.event(up);
        note(event, &mut self.results)
    }

    /// Takes each frame that came whole.
    fn take_all(&mut self, up: &mut Bytes) -> Result<(), OutOfMemory>
        ensures takes { OnOk result (TakesAll (near self.old up.old) (near self.new up.new)) }
        ensures came { OnOk result (self.new.came ≡ self.old.came) }
    {
        loop {
            let goes_on = self.next(up)?;
            if !goes_on {
                return Ok(());
            }
        }
    }

    /// At most so many bytes under way reach the client, and it takes what came.
    pub(crate) fn bring(
        &mut self,
        alloc: Global,
        most: u32,
        lane: &mut Lane,
    ) -> Result<(), OutOfMemory>
        requires { self.old.client.held.place + length self.old.client.held.rest ≤ self.old.came }
        ensures { OnOk result (BringsNear most self.old lane.old self.new lane.new) }
    {
        let size = moved(&lane.down, most);
        let Some(came) = self.came.checked_add(size as u64) else {
            return Err(OutOfMemory);
        };
        let taken = self.client.feed(&lane.down.as_slice()[..size]);
        self.came = came;
        take_away(alloc, &mut lane.down, taken)?;
        self.take_all(&mut lane.up)?;
        Ok(())
    }

    /// Asks a call, where the client takes it.
    pub(crate) fn ask(
        &mut self,
        alloc: Global,
        call: &Call,
        lane: &mut Lane,
    ) -> Result<(), OutOfMemory>
        ensures { OnOk result (AsksNear call.now self.old lane.old self.new lane.new) }
    {
        if !self.client.ready() {
            return Ok(());
        }
        let can = is_askable(alloc, call)?;
        if !can {
            return Ok(());
        }
        self.client.ask(call, &mut lane.up)
    }
}

/// Asks a call on the link at a place.
pub(crate) fn ask_at(
    end: &mut ClientEnd,
    lanes: &mut [Lane],
    index: usize,
    alloc: Global,
    call: &Call,
) -> Result<(), OutOfMemory>
    requires { index < length lanes.old }
    ensures { OnOk result (ChangesAt index lanes.old lanes.new (λ old new. AsksNear call.now end.old old end.new new)) }
{
    end.ask(alloc, call, &mut lanes[index])
}

/// Brings bytes to the client on the link at a place.
pub(crate) fn bring_at(
    end: &mut ClientEnd,
    lanes: &mut [Lane],
    index: usize,
    alloc: Global,
    most: u32,
) -> Result<(), OutOfMemory>
    requires within { index < length lanes.old }
    requires most { end.old.client.held.place + length end.old.client.held.rest ≤ end.old.came }
    ensures { OnOk result (ChangesAt index lanes.old lanes.new (λ old new. BringsNear most end.old old end.new new)) }
{
    end.bring(alloc, most, &mut lanes[index])
}
