//! Counting in a drill.
ghost use Rattle.std.specs.Prelude.{◌≡◌, ◌+◌, IfOk};
ghost use Rattle.once_across_breaks.specs.same.Steps.{is_broken};
ghost use Rattle.once_across_breaks_drill.specs.run.lemma.Going.{CountsStep, one_if};

use afp_base::OutOfMemory;
use once_across_breaks::Break;

/// How many links broke, and how many calls were told Ok, and others.
#[derive(Clone, Copy, Debug, PartialEq, Eq)]
pub(crate) struct Counts {
    pub(crate) breaks: u32,
    pub(crate) ok: u32,
    pub(crate) refused: u32,
}

/// Before the first step.
pub(crate) const NO_COUNTS: Counts = Counts {
    breaks: 0,
    ok: 0,
    refused: 0,
};

/// One more, where a test passes. A count's end is told as want of memory.
fn counted(count: u32, more: bool) -> Result<u32, OutOfMemory>
    ensures { IfOk result (λ n. n ≡ count + one_if more) }
{
    if !more {
        return Ok(count);
    }
    match count.checked_add(1) {
        None => Err(OutOfMemory),
        Some(n) => Ok(n),
    }
}

/// Whether a link breaks.
fn is_broken(breaks: Break) -> bool
    ensures { one_if result ≡ is_broken breaks }
{
    match breaks {
        Break::Never => false,
        Break::Before => true,
        Break::Behind => true,
    }
}

/// The counts behind a step, by its break and by whether its call was told Ok.
pub(crate) fn counts_behind(old: Counts, breaks: Break, ok: bool) -> Result<Counts, OutOfMemory>
    ensures { IfOk result (λ new. CountsStep breaks ok old new) }
{
    Ok(Counts {
        breaks: counted(old.breaks, is_broken(breaks))?,
        ok: counted(old.ok, ok)?,
        refused: counted(old.refused, !ok)?,
    })
}
