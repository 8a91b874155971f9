//! Laws of the serial answer. Each function says one, and does nothing.
ghost use Rattle.afp_serial.specs.CommitLaws as commit_laws;
ghost use Rattle.afp_serial.specs.IdLaws as id_laws;
ghost use Rattle.afp_serial.specs.KeptLaws as kept_laws;
ghost use Rattle.afp_serial.specs.Laws as laws;
ghost use Rattle.afp_serial.specs.ListReply as list_reply;
ghost use Rattle.afp_serial.specs.ParmsReplies as parms_replies;
ghost use Rattle.afp_serial.specs.SessionLaws as session_laws;
ghost use Rattle.afp_serial.specs.SessionViews as session_views;
ghost use Rattle.afp_serial.specs.SweepLaws as sweep_laws;
ghost use Rattle.afp_serial.specs.Token as token;

use afp_base::laws::repeat_finds_newest;
use volume_spec::edit_laws::{edits_draw_ids_once, effects_are_edits};

/// A world at the start is sound over sound volumes of its house, as are those that nobody has used. A legal entry keeps a sound world
/// sound, so a lawful history is sound at each of its places. What is told is an answer to the ask, and a reply's block fits in a frame:
/// it has at most 131,072 bytes.
pub fn sound_worlds_stay_sound()
    ensures starts { laws.StartsSound }
    ensures fresh { laws.FreshWorldIsSound }
    ensures keeps { laws.KeepsSound }
    ensures stands { laws.StandsSound }
    ensures answers { laws.AnswersAsk }
    ensures fits { laws.FitsFrame }
{}

/// Displaced is told just where an ask of a session comes on a link that no session has. Then nothing changes but the latest moment,
/// and in a Pulse the sessions that are gone by then.
pub fn displaced_changes_nothing()
    ensures told { laws.TellsDisplaced }
    ensures left { laws.LeavesDisplaced }
    ensures swept { laws.OnlyEndsExpired }
{}

/// An answer that is kept is told again, not ending, and nothing changes but the latest moment.
pub fn kept_answer_is_told_again()
    ensures { laws.TellsKept }
{}

/// Of the answers that a session keeps the last 32 are found: the newest by a repeat of its request; any other as before, or, where 32 were kept, as
/// among all but the oldest. No other answer comes in.
pub fn last_answers_are_found()
    ensures newest { kept_laws.FindsKept }
    ensures others { kept_laws.KeepsOthers }
    ensures oldest { kept_laws.LosesOldest }
    ensures none { kept_laws.BringsNoOther }
{
    repeat_finds_newest();
}

/// An answer Ok is one that was kept, or the reply of the call's row, which its block shows to a request of that kind. So no refusal is
/// told Ok. Any other answer is one that was kept, or what the call's row refuses it with, which its block shows in the same way under its code,
/// or it has no bytes, and tells nothing to a request of any kind.
pub fn what_is_told_is_shown()
    ensures told { laws.TellsShown }
    ensures refused { laws.RefusesShown }
{}

/// A fault comes just where a call would have its effect and its row commits to a volume's keeper, or settles it: so it hides no refusal. It
/// is told MiscErr, and nothing changes but the latest moment. The volume of that keeper is there.
pub fn fault_hides_no_refusal()
    ensures hides { laws.HidesNoRefusal }
    ensures may { laws.MayFail }
    ensures keeper { laws.KeeperIsThere }
{}

/// What bytes spell has numbers in the ranges of their fields, texts of bytes, and paths that go down to names.
pub fn what_bytes_spell_is_lawful()
    ensures { laws.SpeltIsLawful }
{}

/// After any entries, legal or not, from a world at the start: no two sessions have one link, and the n-th session that is
/// opened has the number n, so that none is given twice. A session is there only since it was opened.
pub fn session_numbers_are_given_once()
    ensures links { laws.LinksDiffer }
    ensures counted { laws.CountsSessions }
    ensures once { laws.NeverTwice }
    ensures new { laws.OpensNew }
    ensures only { laws.OnlyOpens }
{}

/// The sizes by which a list of nodes is cut are those of its bytes. Where a list is not refused it is shown by some bytes, and has no more
/// of them than were asked and fit in a reply.
pub fn lists_are_shown()
    ensures size { list_reply.ListHasItsSize }
    ensures shown { list_reply.ListIsShown }
{}

/// What is told of a volume, and of a node that was found, is shown by some bytes.
pub fn parameters_are_shown()
    ensures volume { parms_replies.VolumeIsShown }
    ensures node { parms_replies.NodeIsShown }
{}

/// A call but Logout and DisconnectOldSession leaves each session's number, its link or the moment at which it lost it, and its kept answers. The
/// sessions that did not ask stay as they are; the one that asked has other volumes at most, and another user only where the call logs in. No call
/// brings an answer for a request of its session that had none.
pub fn calls_leave_other_sessions()
    ensures leaves { session_laws.LeavesSessions }
    ensures others { session_laws.LeavesOthers }
    ensures marks { session_laws.LeavesMarks }
    ensures users { session_laws.LeavesUsers }
    ensures new { session_laws.KeepsNoneNew }
{}

/// Each legal ask changes what is seen of a session in few ways, and is told what goes with them: it opens the next session, ends or detaches that of its
/// link, sweeps one without a link, keeps one more answer, or gives its link to the session of a token. A session with a link is there.
pub fn asks_change_sessions_in_few_ways()
    ensures changes { session_views.ChangesViews }
    ensures there { session_views.HolderIsThere }
{}

/// MiscErr is told of a fault in that very ask alone, and NoMemory of no entry: neither is kept, and no row refuses with them.
pub fn faults_are_told_of_this_ask()
    ensures faults { session_views.FaultsAlone }
    ensures memory { session_views.NeverNoMemory }
{}

/// In a sound world the sessions that are gone by then may end one by one: where the first of them ends, the sweep behind it comes to the same.
/// Where none is gone, the sweep changes nothing.
pub fn sessions_that_are_gone_end_one_by_one()
    ensures one { sweep_laws.EndsOneByOne }
    ensures none { sweep_laws.EndsNone }
{}

/// A call that changes a volume by edits, copies a file or exchanges two commits what it changes to the volume's keeper: where it commits nothing it changes
/// nothing at all.
pub fn edits_are_committed()
    ensures edits { commit_laws.EditsAreCommitted }
    ensures copies { commit_laws.CopiesAreCommitted }
    ensures exchanges { commit_laws.ExchangesAreCommitted }
{}

/// No two sessions have one token.
pub fn tokens_tell_sessions_apart()
    ensures { token.TokensDiffer }
{}

/// Between any two places of a history, lawful or not, the next id of each volume does not fall, and an id that was drawn before, and that no
/// node had, no node has: so no id is drawn twice.
pub fn ids_are_drawn_once()
    ensures { id_laws.IdsAreDrawnOnce }
{
    edits_draw_ids_once();
    effects_are_edits();
}
