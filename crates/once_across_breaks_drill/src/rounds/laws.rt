//! The laws. The functions say them, and do nothing.
ghost use Rattle.once_across_breaks_drill.specs.rounds.Laws.{CallsAreTold, OpeningsAreTold, OpeningsGoOn};
ghost use Rattle.once_across_breaks_drill.specs.rounds.Rounds.{OpeningIsTaken, WaitingIsTaken};
ghost use Rattle.once_across_breaks_drill.specs.rounds.Tokens.{TokenIsFound};

use dsi_session::one_way_to_read;
use once_across_breaks::same::laws::first_openings_are_told;

/// At a line a call is one entry of the history, and OpenSession is two: a Pulse at link 0, and Open. Each is told the serial answer, in the reply to
/// its frame. No OpenSession ends its link.
pub fn requests_are_told_in_order()
    ensures calls { CallsAreTold }
    ensures openings { OpeningsAreTold }
    ensures goes_on { OpeningsGoOn }
{
    one_way_to_read();
}

/// A client takes each reply to a call that waits on a link that is opened, whatever it tells. One that comes back, and so has a token, takes each reply to
/// the calls of its opening.
pub fn replies_are_taken()
    ensures waiting { WaitingIsTaken }
    ensures opening { OpeningIsTaken }
{}

/// FPGetSessionToken of a first opening is told Ok, and in its block a client finds the token of the session 1.
pub fn a_token_is_found()
    ensures { TokenIsFound }
{
    first_openings_are_told();
}
