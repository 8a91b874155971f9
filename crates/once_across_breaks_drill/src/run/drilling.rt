//! A drill.
ghost use Rattle.std.specs.Prelude.{◌≡◌, ◌≤◌, true, [], ◌∷◌, IfOk};
ghost use Rattle.capture_made.specs.requests.Requests.{first_moment, most_steps};
ghost use Rattle.once_across_breaks_drill.specs.run.Drilled.{IsDrilled};
ghost use Rattle.once_across_breaks_drill.specs.run.lemma.Going.{EndsCounts, no_counts};

use crate::rounds::{Answered, Linked};
use crate::run::beginning::begin;
use crate::run::counting::NO_COUNTS;
use crate::run::house::new_house;
use crate::run::stepping::{Going, run_steps};
use crate::steps::FIRST;
use crate::steps::laws::drills_are_told_the_same;
use afp_base::{Moment, OutOfMemory};
use afp_client::ClientCore;
use afp_serial::Teller;
use capture_log_server::{SoleTeller, TellerMaker};
use once_across_breaks::same::laws::first_openings_are_told;
use once_across_breaks_live::OnceRun;
use std::alloc::Global;

/// What a drill came to: how many commands its client asked, how many links broke, how many commands were told Ok, and how many others; and the run: the
/// client, the teller, and what the client was told of FPOpenVol and of its commands, in order.
#[derive(Drop)]
pub struct Drilled<T: Teller + Drop> {
    pub commands: u32,
    pub breaks: u32,
    pub ok: u32,
    pub refused: u32,
    pub run: OnceRun<T>,
}

/// The moment of the opening.
fn first() -> Result<Moment, OutOfMemory>
    ensures { IfOk result (λ now. now ≡ first_moment) }
{
    match Moment::new(FIRST) {
        None => Err(OutOfMemory),
        Some(now) => Ok(now),
    }
}

/// The client behind its opening, which has made no step.
fn opened(alloc: Global, answered: Answered) -> Result<Going, OutOfMemory>
    ensures linked { IfOk result (λ g. g.linked ≡ answered.linked) }
    ensures counts { IfOk result (λ g. g.counts ≡ no_counts) }
    ensures results { IfOk result (λ g. g.results.items ≡ answered.answer ∷ []) }
{
    let mut results = Vec::new(alloc);
    results.push(answered.answer)?;
    Ok(Going {
        linked: answered.linked,
        counts: NO_COUNTS,
        results,
    })
}

/// The client of a link.
fn client_of(linked: Linked) -> ClientCore
    ensures { result.state ≡ linked.caller }
{
    linked.caller.into_client()
}

/// What a drill of so many steps came to.
fn ended<T: SoleTeller>(steps: u32, going: Going, teller: T) -> Drilled<T>
    ensures counts { EndsCounts steps going result.commands result.breaks result.ok result.refused }
    ensures client { result.run.client.state ≡ going.linked.caller }
    ensures results { result.run.results.items ≡ going.results.items }
    ensures answered { result.run.answered ≡ true }
    ensures teller { result.run.teller ≡ teller }
{
    let counts = going.counts;
    let run = OnceRun {
        client: client_of(going.linked),
        teller,
        results: going.results,
        answered: true,
    };
    Drilled {
        commands: steps,
        breaks: counts.breaks,
        ok: counts.ok,
        refused: counts.refused,
        run,
    }
}

/// Runs the drill of a number and so many steps: one client and one server in memory, whose links break as numbers are drawn. The one error is want of
/// memory.
pub fn drill<M: TellerMaker>(
    alloc: Global,
    maker: M,
    number: u64,
    steps: u32,
) -> Result<Drilled<M::Made>, OutOfMemory>
    requires { steps ≤ most_steps }
    ensures { IfOk result (λ d. IsDrilled number steps d (M.Made.shown d.run.teller)) }
{
    drills_are_told_the_same();
    first_openings_are_told();
    let house = new_house(alloc)?;
    let now = first()?;
    let mut teller = maker.make(alloc, &house, now)?;
    let answered = begin(alloc, &house, now, &mut teller)?;
    let first = opened(alloc, answered)?;
    let going = run_steps(alloc, first, &house, number, steps, &mut teller)?;
    Ok(ended(steps, going, teller))
}
