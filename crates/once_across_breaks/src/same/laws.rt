//! The law. The function says it, and does nothing.
ghost use Rattle.once_across_breaks.specs.same.Laws.{BreaksChangeNoResult, BreaksChangeNothingBehindOpenings, FirstOpeningsAreTold};

use afp_calls_grammar::grammar::laws::what_is_written_is_read_again;
use afp_serial::laws::{
    calls_leave_other_sessions, last_answers_are_found, sessions_that_are_gone_end_one_by_one,
    sound_worlds_stay_sound,
};

/// A client alone at its server makes steps of eight calls: FPCreateFile, FPDelete, FPRename, FPOpenFork, FPCloseFork, FPByteRangeLock,
/// FPWrite and FPEnumerateExt2. Wherever its links break, and it comes back and writes the request again, it is told what it is told where no
/// link breaks. The world is left the same, but for the number of the link. So it is behind the opening of its first link at a server that
/// nobody has asked.
pub fn breaks_change_no_result()
    ensures alone { BreaksChangeNoResult }
    ensures opened { BreaksChangeNothingBehindOpenings }
{
    what_is_written_is_read_again();
    calls_leave_other_sessions();
    last_answers_are_found();
    sessions_that_are_gone_end_one_by_one();
    sound_worlds_stay_sound();
}

/// A client that opens the first link of a server that nobody has asked has the link 1, is logged in, and is told the token of the session 1.
/// With its FPOpenVol it opens one session, and takes up none.
pub fn first_openings_are_told()
    ensures { FirstOpeningsAreTold }
{
    what_is_written_is_read_again();
}
