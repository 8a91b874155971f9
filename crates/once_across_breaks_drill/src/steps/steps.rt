//! The steps of a drill, as they are drawn.
ghost use Rattle.std.specs.Prelude.{◌≡◌, ◌+◌, ◌%◌, ◌<◌, IfOk, OnOk};
ghost use Rattle.afp_calls_grammar.specs.grammar.Call.{IsSpellable};
ghost use Rattle.dsi_session.specs.RequestIds.{id_after};
ghost use Rattle.capture_made.specs.requests.Requests.{first_moment, most_steps};
ghost use Rattle.once_across_breaks_drill.specs.steps.Drilling.{break_of, drawn_after, first_drawn, next_step};

use afp_base::{Moment, OutOfMemory};
use afp_calls_grammar::Call;
use capture_made::{call_of, draw_one, draw_step};
use once_across_breaks::Break;
use std::alloc::Global;
use std::marker::Model;

/// The moment of the opening: the first step comes a second later.
pub const FIRST: u32 = 100;

/// The id of the first step's call.
const FIRST_ID: u16 = 4;

/// A step of a drill: its moment, its call, and where its link breaks.
#[derive(Drop)]
pub struct DrillStep {
    pub at: Moment,
    pub call: Call<'static>,
    pub breaks: Break,
}

/// Where the steps of a drill have come.
///
/// Contracts see the state of the generator, the next id, and how many steps there were.
#[derive(Drop)]
pub struct DrillSteps {
    state: u64,
    id: u16,
    made: u32,
}

impl Model for DrillSteps {
    ghost use Rattle.once_across_breaks_drill.specs.steps.Drilling.{Drawn};

    ghost Value = { Drawn };

    ghost view = { λ s. record { state = s.state; id = s.id; made = s.made } };
}

/// Where a link breaks, by the number that was drawn for it.
fn break_of(number: u64) -> Break
    ensures { result ≡ break_of (number % 4) }
{
    let rest = number % 4;
    if rest == 0 {
        Break::Before
    } else if rest == 1 {
        Break::Behind
    } else {
        Break::Never
    }
}

/// The id behind an id.
fn id_behind(id: u16) -> u16
    ensures { result ≡ id_after id }
{
    if id == 65_535 { 0 } else { id + 1 }
}

/// The moment of a step, by how many there were before it.
fn moment_of(made: u32) -> Result<Moment, OutOfMemory>
    requires { made < most_steps }
    ensures { IfOk result (λ now. now ≡ first_moment + (made + 1)) }
{
    match Moment::new(FIRST + (made + 1)) {
        Some(now) => Ok(now),
        None => Err(OutOfMemory),
    }
}

impl DrillSteps {
    /// Before the first step of the drill of a number.
    pub fn new(number: u64) -> DrillSteps
        ensures { result ≡ first_drawn number }
    {
        DrillSteps {
            state: number,
            id: FIRST_ID,
            made: 0,
        }
    }

    /// The next step. The one error is want of memory.
    pub fn next(&mut self, alloc: Global) -> Result<DrillStep, OutOfMemory>
        requires { self.old.made < most_steps }
        ensures at { IfOk result (λ s. s.at ≡ (next_step self.old).moment) }
        ensures call { IfOk result (λ s. s.call ≡ (next_step self.old).call) }
        ensures spellable { IfOk result (λ s. IsSpellable s.call) }
        ensures breaks { IfOk result (λ s. s.breaks ≡ (next_step self.old).breaks) }
        ensures after { OnOk result (self.new ≡ drawn_after self.old) }
    {
        let at = moment_of(self.made)?;
        let (number, state) = draw_one(self.state);
        let (draws, after) = draw_step(state);
        let call = call_of(alloc, draws.o % 8, draws.a, draws.b)?;
        self.state = after;
        self.id = id_behind(self.id);
        self.made += 1;
        Ok(DrillStep {
            at,
            call,
            breaks: break_of(number),
        })
    }
}
