//! The laws. Each function says one, and does nothing.
ghost use Rattle.once_across_breaks_code.specs.server.Among as among;
ghost use Rattle.once_across_breaks_code.specs.server.Asked as asked;
ghost use Rattle.once_across_breaks_code.specs.server.Fed as fed;
ghost use Rattle.once_across_breaks_code.specs.server.Handling as handling;
ghost use Rattle.once_across_breaks_code.specs.server.Parting as parting;
ghost use Rattle.once_across_breaks_code.specs.server.Pieces as pieces;
ghost use Rattle.once_across_breaks_code.specs.server.Ties as ties;

use afp_serial::laws::{
    fault_hides_no_refusal, faults_are_told_of_this_ask, sound_worlds_stay_sound,
};
use dsi_frame::one_frame;
use dsi_session::one_way_to_read;

/// The steps of a teller stand in its history in order, each legal where it stands and told the answer there; where nobody else
/// asks, one behind the other.
pub fn tellers_are_asked_in_order()
    ensures among { asked.TellersAreAskedInOrder }
    ensures alone { asked.SoleTellersAreAskedAlone }
{}

/// The frames that the client writes are frames of its requests, and the frames of the law's replies have the bytes that the law writes.
pub fn frames_are_those_of_the_law()
    ensures written { ties.WrittenCarries }
    ensures good { ties.WrittenIsGood }
    ensures replies { ties.RepliesAreSpelt }
{}

/// What the server end of a link does with a frame of the client is what the law's end does with its request: the same entries, the same
/// world behind them, the law's reply in its frame, and both go on, or both have ended. A request that may not come where the
/// link is ends both, and nothing is asked.
pub fn frames_are_handled_as_the_law_says()
    ensures frames { handling.FramesAreHandled }
    ensures others { handling.OthersAreDropped }
    ensures scripts { handling.ScriptsAreServed }
{
    fault_hides_no_refusal();
    faults_are_told_of_this_ask();
    one_way_to_read();
    sound_worlds_stay_sound();
}

/// A quiet, and the end of a link, do what the law's do: the same entries, the same world behind them, and both go on, or both have
/// ended.
pub fn links_part_as_the_law_says()
    ensures parts { parting.LinksPart }
    ensures quiets { parting.LinksAreQuiet }
{}

/// The same where others ask in between, as threads do that share a teller: there are events of the law's schedules, at the same link, that
/// lead where the link comes.
pub fn links_go_as_the_law_says_among_others()
    ensures frames { among.FramesArrive }
    ensures scripts { among.ScriptsArrive }
    ensures pieces { among.PiecesArrive }
    ensures quiets { among.QuietsArrive }
    ensures partings { among.PartingsArrive }
{
    fault_hides_no_refusal();
    faults_are_told_of_this_ask();
    one_way_to_read();
    sound_worlds_stay_sound();
}

/// A piece that is fed to a wire, and goes on with a frame that the client wrote, has that frame where none of it is left under way, and
/// no other; else the wire holds it. So what `Wire::feed` promises comes to events of the law's schedules: the request arrives, or nothing happens
/// at the link.
pub fn pieces_that_are_fed_do_as_the_law_says()
    ensures pieces { pieces.PiecesHaveFrames }
    ensures feeds { fed.FeedsArrive }
{
    fault_hides_no_refusal();
    faults_are_told_of_this_ask();
    one_frame();
    one_way_to_read();
    sound_worlds_stay_sound();
}
