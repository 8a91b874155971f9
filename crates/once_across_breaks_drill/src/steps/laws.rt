//! The law. The function says it, and does nothing.
ghost use Rattle.once_across_breaks_drill.specs.steps.Laws.{DrillsAreUndisturbed};

use once_across_breaks::same::laws::breaks_change_no_result;

/// In a drill the client is told of each step's call what it is told where no link breaks; the world is left the same, but for the number of
/// the link; and as many sessions are opened again, and taken up again, as links break.
pub fn drills_are_told_the_same()
    ensures { DrillsAreUndisturbed }
{
    breaks_change_no_result();
}
