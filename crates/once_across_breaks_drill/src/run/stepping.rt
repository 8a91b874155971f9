//! The steps of a drill.
ghost use Rattle.std.specs.Prelude.{◌≡◌, ◌<◌, ◌≤◌, ◌^◌, false, ℕ, List, [], ◌∷◌, ◌++◌, map, None, IfOk, OnOk};
ghost use Rattle.afp_calls_grammar.specs.grammar.Call.{IsSpellable};
ghost use Rattle.afp_client.specs.session.State.{is_of_opening};
ghost use Rattle.once_across_breaks.specs.same.Steps.{is_ok};
ghost use Rattle.capture_made.specs.requests.Requests.{most_steps};
ghost use Rattle.once_across_breaks_drill.specs.steps.Drilling.{drawn_after, next_step};
ghost use Rattle.once_across_breaks_drill.specs.rounds.Linked.{IsLinked, as_told};
ghost use Rattle.once_across_breaks_drill.specs.run.lemma.Going.{CountsStep, GoesStep, MakesStep, RunsSteps, no_counts, step_of};

use crate::rounds::{Answered, Linked, ask_call};
use crate::run::breaking::{reach, tell};
use crate::run::counting::{Counts, counts_behind};
use crate::steps::{DrillStep, DrillSteps};
use afp_base::{Bytes, Code, OutOfMemory};
use afp_serial::House;
use capture_log_server::SoleTeller;
use once_across_breaks::Break;
use replay_cache::Answer;
use std::alloc::Global;

/// Where a drill has come: its client, its counts, and what the client was told.
#[derive(Drop)]
pub(crate) struct Going {
    pub(crate) linked: Linked,
    pub(crate) counts: Counts,
    pub(crate) results: Vec<Answer>,
}

/// The client makes a step. The one error is want of memory.
fn make_step<T: SoleTeller>(
    alloc: Global,
    linked: Linked,
    step: &DrillStep,
    house: &House,
    teller: &mut T,
) -> Result<Answered, OutOfMemory>
    requires spellable { IsSpellable step.now.call }
    requires command { is_of_opening step.now.call ≡ false }
    requires linked { (token : List ℕ) × (id : ℕ) × (id < 2 ^ 16) × IsLinked token None id linked }
    ensures { IfOk result (λ a. (token : List ℕ) (id : ℕ) → id < 2 ^ 16 → IsLinked token None id linked
        → MakesStep token (step_of id step.now) linked (T.shown teller.old) a (T.shown teller.new)) }
{
    let mut request = Bytes::new(alloc);
    let asked = ask_call(alloc, linked, &step.call, &mut request)?;
    let reached = reach(alloc, asked, request, step.breaks, house, step.at, teller)?;
    tell(alloc, reached, step.at, teller)
}

/// Whether a call was told Ok.
fn is_ok(answer: &Answer) -> bool
    ensures { result ≡ is_ok (as_told answer.now) }
{
    matches!(answer.code, Code::Ok)
}

/// The client behind a step, which is counted, and whose result is kept.
fn count_step(
    counts: Counts,
    mut results: Vec<Answer>,
    breaks: Break,
    answered: Answered,
) -> Result<Going, OutOfMemory>
    ensures linked { IfOk result (λ g. g.linked ≡ answered.linked) }
    ensures counts { IfOk result (λ g. CountsStep breaks (is_ok (as_told answered.answer)) counts g.counts) }
    ensures results { IfOk result (λ g. g.results.items ≡ results.items ++ answered.answer ∷ []) }
{
    let counts = counts_behind(counts, breaks, is_ok(&answered.answer))?;
    results.push(answered.answer)?;
    Ok(Going {
        linked: answered.linked,
        counts,
        results,
    })
}

/// The client makes the step that is drawn next, which is counted.
fn go_step<T: SoleTeller>(
    alloc: Global,
    going: Going,
    drawn: &mut DrillSteps,
    house: &House,
    teller: &mut T,
) -> Result<Going, OutOfMemory>
    requires more { drawn.old.made < most_steps }
    requires small { drawn.old.id < 2 ^ 16 }
    requires linked { (token : List ℕ) × IsLinked token None drawn.old.id going.linked }
    ensures after { OnOk result (drawn.new ≡ drawn_after drawn.old) }
    ensures goes { IfOk result (λ g. (token : List ℕ) → drawn.old.id < 2 ^ 16 → IsLinked token None drawn.old.id going.linked
        → GoesStep token (next_step drawn.old) going (T.shown teller.old) g (T.shown teller.new)) }
{
    let step = drawn.next(alloc)?;
    let answered = make_step(alloc, going.linked, &step, house, teller)?;
    count_step(going.counts, going.results, step.breaks, answered)
}

/// The client makes so many steps of the drill of a number.
pub(crate) fn run_steps<T: SoleTeller>(
    alloc: Global,
    mut going: Going,
    house: &House,
    number: u64,
    steps: u32,
    teller: &mut T,
) -> Result<Going, OutOfMemory>
    requires most { steps ≤ most_steps }
    requires new { going.counts ≡ no_counts }
    requires linked { (token : List ℕ) × IsLinked token None 4 going.linked }
    ensures { IfOk result (λ g. (token : List ℕ) → IsLinked token None 4 going.linked
        → RunsSteps token number steps going.linked (map as_told going.results.items) (T.shown teller.old) g (T.shown teller.new)) }
{
    let mut drawn = DrillSteps::new(number);
    let mut left = steps;
    while left > 0 {
        going = go_step(alloc, going, &mut drawn, house, teller)?;
        left -= 1;
    }
    Ok(going)
}
