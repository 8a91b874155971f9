//! The laws. Each function says one, and does nothing.
ghost use Rattle.once_across_breaks_live.specs.Once.{HappeningsAreSchedules, HappeningsTakeEffectOnce};

use once_across_breaks_code::run::laws::runs_are_schedules;

/// Whatever happens to a client, the server ends of its links and the teller behind them, there is a schedule of the law that leads to what
/// is there.
pub fn what_happens_is_a_schedule()
    ensures { HappeningsAreSchedules }
{
    runs_are_schedules();
}

/// What happens is a run. Where the run keeps the premises, each command takes effect once, in order: the calls in effect on the session whose
/// token the client holds are the requests of its results, each once, each told its result, and at most the one that waits. A client without
/// a token has no results, and a token that it holds was drawn.
pub fn what_happens_takes_effect_once()
    ensures { HappeningsTakeEffectOnce }
{
    runs_are_schedules();
}
