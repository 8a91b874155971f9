//! The laws. Each function says some, and does nothing.
ghost use Rattle.once_across_breaks_code.specs.client.Moves.{MovesAreEvents};
ghost use Rattle.once_across_breaks_code.specs.client.OnLines.{LinesAsk, LinesBreak, LinesHold, LinesStart, LinesTake};
ghost use Rattle.once_across_breaks_code.specs.client.OverBytes.{AsksAreSpelt, BeginsAreSpelt, TakenIsRead, UnfinishedIsUnread, WritesAreSpelt};
ghost use Rattle.once_across_breaks_code.specs.client.Playing.{ClientsCommandsOnce};
ghost use Rattle.once_across_breaks_code.specs.client.Runs.{FirstRunsAreMoves, LinksAreMoves, RunsAreMoves};
ghost use Rattle.once_across_breaks_code.specs.client.Steps.{AsksAreCommands, BeginsAreBreaks, BreaksStay, CallsAreCommands, LoginsAreTheirs, OnlyRepliesAreTaken, RepliesAreTaken, RequestsLeaveAll, TagsAreShown};

use afp_calls_grammar::grammar::laws::one_request_for_each;
use dsi_session::ids_count_in_rounds;
use once_across_breaks::once::laws::{
    commands_take_effect_once_in_order, effects_are_those_of_the_history,
    frames_of_dsi_are_such_spellings,
};

/// Each step of the client is one of the law's client, or leaves it as it is, and writes the same: a break, the beginning of a link, a call
/// that is asked, a reply that comes.
pub fn steps_are_those_of_the_law()
    ensures breaks { BreaksStay }
    ensures begins { BeginsAreBreaks }
    ensures asks { AsksAreCommands }
    ensures replies { RepliesAreTaken }
    ensures tags { TagsAreShown }
    ensures others { OnlyRepliesAreTaken }
    ensures requests { RequestsLeaveAll }
{
    ids_count_in_rounds();
}

/// Each call that the client can be asked is a command of the law, and each login is one that the law's client may have.
pub fn calls_are_commands()
    ensures calls { CallsAreCommands }
    ensures logins { LoginsAreTheirs }
{
    one_request_for_each();
    effects_are_those_of_the_history();
}

/// Whatever the client does, step by step, the law's client does: it makes these moves, writes the same requests, and has the same results; so
/// too on one link, whatever bytes come on it.
pub fn runs_are_those_of_the_law()
    ensures runs { RunsAreMoves }
    ensures first { FirstRunsAreMoves }
    ensures link { LinksAreMoves }
{
    ids_count_in_rounds();
    one_request_for_each();
}

/// The moves of the law's client are its events over links that carry lists of frames.
pub fn moves_are_events()
    ensures { MovesAreEvents }
{}

/// Over bytes: what the client writes is what the law's client spells, and what it takes of the bytes that came is what the law's client
/// reads of them.
pub fn bytes_are_those_of_the_law()
    ensures writes { WritesAreSpelt }
    ensures asks { AsksAreSpelt }
    ensures begins { BeginsAreSpelt }
    ensures taken { TakenIsRead }
    ensures unfinished { UnfinishedIsUnread }
{
    ids_count_in_rounds();
    frames_of_dsi_are_such_spellings();
}

/// On the law's links of bytes each call of the client is an event of the law's schedules: the beginning of a link, a call that is asked, and
/// bytes that are fed with what comes of them. What it writes is under way there.
pub fn clients_are_on_the_laws_lines()
    ensures start { LinesStart }
    ensures breaks { LinesBreak }
    ensures asks { LinesAsk }
    ensures takes { LinesTake }
    ensures holds { LinesHold }
{
    ids_count_in_rounds();
    frames_of_dsi_are_such_spellings();
}

/// So over every schedule of the law over bytes along which the client makes its calls, whatever breaks, is lost, comes late or is told want
/// of memory: the calls in effect on its session are those that it was told of, each once, in order, each told the same, and behind them at
/// most the call that waits.
pub fn commands_of_the_client_take_effect_once_in_order()
    ensures { ClientsCommandsOnce }
{
    ids_count_in_rounds();
    frames_of_dsi_are_such_spellings();
    commands_take_effect_once_in_order();
}
