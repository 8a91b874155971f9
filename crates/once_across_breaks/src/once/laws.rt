//! The laws. Each function says one, and does nothing.
ghost use Rattle.once_across_breaks.specs.once.Dsi as frames;
ghost use Rattle.once_across_breaks.specs.once.Effects as history;
ghost use Rattle.once_across_breaks.specs.once.Example as example;
ghost use Rattle.once_across_breaks.specs.once.Laws as laws;
ghost use Rattle.once_across_breaks.specs.once.Premises as premises;
ghost use Rattle.once_across_breaks.specs.once.Tokens as tokens;
ghost use Rattle.once_across_breaks.specs.once.UnderWay as under_way;

use afp_calls_grammar::grammar::laws::what_is_written_is_read_again;
use afp_serial::laws::{
    asks_change_sessions_in_few_ways, fault_hides_no_refusal, sound_worlds_stay_sound,
    tokens_tell_sessions_apart,
};

/// Whatever breaks, is lost, comes late or is told want of memory: the calls in effect on the client's session are the requests of its
/// results in order, each told its result, and behind them at most the command that has no result. So it is over links with one place,
/// over links that carry lists of frames, and over bytes of which each event moves some: for any spellings of what fits a link of which no
/// proper first part is whole, and so for frames of the Data Stream Interface. A client without a token has no results. On each link at most
/// one frame is under way; on the newest link of a client that is not lost it is its request that waits, or the reply to it.
pub fn commands_take_effect_once_in_order()
    ensures once { laws.OnceInOrderAlways }
    ensures carried { laws.OnceInOrderCarried }
    ensures bytes { laws.OnceInOrderInBytes }
    ensures dsi { laws.OnceInOrderOverDsi }
    ensures none { laws.NoTokenNoResults }
    ensures frames { laws.OneFrameEach }
    ensures waiting { laws.OnlyTheWaitingEach }
{
    asks_change_sessions_in_few_ways();
    fault_hides_no_refusal();
    sound_worlds_stay_sound();
    tokens_tell_sessions_apart();
    what_is_written_is_read_again();
}

/// The client's requests as frames of the Data Stream Interface, and the replies to them, are such spellings. A frame is found at the front of
/// bytes just where a deframer gives it out.
pub fn frames_of_dsi_are_such_spellings()
    ensures codecs { frames.FramesAreCodecs }
    ensures finds { frames.FindsFrame }
{
    what_is_written_is_read_again();
}

/// All that is under way on links that carry lists of frames fits them, at the start and behind each event, where the token fits that the client
/// holds: ids of 16 bits, payloads and tokens that a frame can carry. And the frames of such replies are good.
pub fn what_is_under_way_fits()
    ensures starts { under_way.StartsFitting }
    ensures keeps { under_way.EventsKeepFitting }
    ensures good { under_way.RepliesAreGood }
{
    asks_change_sessions_in_few_ways();
    fault_hides_no_refusal();
    sound_worlds_stay_sound();
    tokens_tell_sessions_apart();
    what_is_written_is_read_again();
}

/// Over links that carry lists of frames, where what others ask is legal: a client without a token has no results, and a token that it holds
/// is that of a session whose number was drawn.
pub fn tokens_are_drawn()
    ensures { tokens.TokensAreDrawn }
{
    asks_change_sessions_in_few_ways();
    fault_hides_no_refusal();
    sound_worlds_stay_sound();
    tokens_tell_sessions_apart();
    what_is_written_is_read_again();
}

/// Over one such schedule both commands run, each once, though the reply of the first is lost with its link.
pub fn a_lost_reply_is_told_again()
    ensures { example.RunsOnce }
{}

/// Without the premise on want of memory behind a break a command can run twice.
pub fn want_of_memory_behind_a_break_is_left_out()
    ensures { example.RunsTwice }
{}

/// Without the premise on others they can act in the client's session, with its token or on its link: their command is in effect there, and the client has no
/// result of it.
pub fn others_in_the_clients_session_are_left_out()
    ensures token { premises.OthersTookTheSession }
    ensures link { premises.OthersAskedOnTheLink }
{}

/// Without the premise on commands in a row that have no effect their ids can come round: a command is told the answer that is kept of an older one, equal
/// to it with an equal id, and does not run.
pub fn long_rows_without_effect_are_left_out()
    ensures { premises.AnOldAnswerIsTold }
{}

/// What the law calls in effect is in effect in the history of the serial file server: the same calls, in the same order, each told the same.
/// What the client writes is read as what it asks, the token of any session can be carried, and a client may log in
/// by any FPLogin whose words fit their counts and that a frame can carry.
pub fn effects_are_those_of_the_history()
    ensures same { history.EffectsAreTheHistorys }
    ensures read { history.WrittenIsRead }
    ensures carried { history.TokensAreCarried }
    ensures logins { history.LoginsAreSetups }
{
    what_is_written_is_read_again();
}

/// A world at the start, over sound volumes of its house, is sound under the key of that house, with its next link number in its range; a legal entry
/// keeps it so.
pub fn sound_worlds_keep_their_key()
    ensures starts { history.StartsUnderItsKey }
    ensures keeps { history.StaysUnderItsKey }
{
    sound_worlds_stay_sound();
}
