//! The laws. Each function says one, and does nothing.
ghost use Rattle.once_across_breaks_code.specs.run.Laws.{RunsAreSchedules, RunsHoldTokens, RunsTakeEffectOnce, SoleRunsAreSchedules, SoleRunsHoldTokens, SoleRunsTakeEffectOnce};

use crate::client::laws::{calls_are_commands, steps_are_those_of_the_law};
use crate::server::laws::{
    frames_are_those_of_the_law, links_go_as_the_law_says_among_others,
    pieces_that_are_fed_do_as_the_law_says, tellers_are_asked_in_order,
};
use afp_client::the_next_frame_decides;
use dsi_frame::{one_frame, read_again};
use once_across_breaks::once::laws::{
    commands_take_effect_once_in_order, effects_are_those_of_the_history, tokens_are_drawn,
    what_is_under_way_fits,
};

/// Whatever is done with a client, the server ends of its links and the teller behind them, as their contracts say it: there is a schedule of
/// the law that leads to what is there. So, where the run keeps the premises, the calls in effect on the client's session are the requests of
/// its results, each once and in order, each told its result, and at most the one that waits. A client without a token has no results, and
/// a token that it holds was drawn. So over a teller that nobody else asks.
pub fn runs_are_schedules()
    ensures runs { RunsAreSchedules }
    ensures alone { SoleRunsAreSchedules }
    ensures once { RunsTakeEffectOnce }
    ensures once_alone { SoleRunsTakeEffectOnce }
    ensures tokens { RunsHoldTokens }
    ensures tokens_alone { SoleRunsHoldTokens }
{
    the_next_frame_decides();
    one_frame();
    read_again();
    commands_take_effect_once_in_order();
    effects_are_those_of_the_history();
    what_is_under_way_fits();
    tokens_are_drawn();
    calls_are_commands();
    steps_are_those_of_the_law();
    frames_are_those_of_the_law();
    links_go_as_the_law_says_among_others();
    pieces_that_are_fed_do_as_the_law_says();
    tellers_are_asked_in_order();
}
