//! Laws of the calls on open forks. Each function says one, and does nothing.
ghost use Rattle.afp_serial.specs.DeskExamples as desks;
ghost use Rattle.afp_serial.specs.ForkExamples as worked;
ghost use Rattle.afp_serial.specs.ForkLaws as laws;
ghost use Rattle.afp_serial.specs.HistoryLaws as history_laws;
ghost use Rattle.afp_serial.specs.WriteLaws as write_laws;

use afp_base::laws::{resizing_keeps_the_front, splice_puts_between};

/// What the calls on open forks are told, one after another, in values that were worked by hand.
pub fn worked_forks_hold()
    ensures denied { worked.DeniesUntilClosed }
    ensures itself { worked.DeniesItself }
    ensures reads { worked.ReadsLines }
    ensures locks { worked.LocksToLastByte }
    ensures writes { worked.WritesFromEnd }
    ensures most { worked.OpensMost }
    ensures most_locks { worked.LocksMost }
{}

/// The rows of these calls keep a sound world sound, and tell what their requests ask for.
pub fn fork_rows_are_sound()
    ensures open_fork { laws.OpenForkIsLawful }
    ensures close_fork { laws.CloseForkIsLawful }
    ensures flush_fork { laws.FlushForkIsLawful }
    ensures get_fork_parms { laws.GetForkParmsIsLawful }
    ensures read { laws.ReadIsLawful }
    ensures read_ext { laws.ReadExtIsLawful }
    ensures set_fork_parms { laws.SetForkParmsIsLawful }
    ensures write { laws.WriteIsLawful }
    ensures write_ext { laws.WriteExtIsLawful }
    ensures byte_range_lock { laws.ByteRangeLockIsLawful }
    ensures byte_range_lock_ext { laws.ByteRangeLockExtIsLawful }
{}

/// A new reference is the lowest number from 1 that is no reference of any session. No more forks are open than 64 sessions with 256 each have.
pub fn references_are_lowest()
    ensures free { laws.ReferenceIsFree }
    ensures lowest { laws.ReferenceIsLowest }
    ensures counts { laws.ReferenceCounts }
    ensures few { laws.OpensAreFew }
{}

/// What is written through one reference is seen through each reference of the fork, of any session, and other forks stay as they are. Bytes that
/// were written are there after any changes that miss them, and a read gives the bytes that are there.
pub fn written_forks_are_read()
    ensures seen { write_laws.WritesAreSeen }
    ensures lengths { write_laws.LengthsAreSeen }
    ensures others { write_laws.OtherForksStay }
    ensures stay { write_laws.WrittenBytesStay }
    ensures read { write_laws.ReadsWhatIsThere }
{
    splice_puts_between();
    resizing_keeps_the_front();
}

/// An open is denied just where it conflicts with one that is there, of any session; so in a sound world no two opens conflict, no reference is given
/// twice, and no byte of a fork is locked twice. A lock covers the bytes that it asks for, and none behind the last one.
pub fn forks_are_shared_by_their_rules()
    ensures denied { laws.DeniesConflicts }
    ensures opens { laws.NoTwoConflict }
    ensures locks { laws.NoByteTwice }
    ensures counted { laws.RangesCount }
    ensures top { laws.RangesToLastByte }
    ensures end { laws.RangesEnd }
    ensures met { laws.MeetsUpToLastByte }
    ensures behind { laws.MeetsNoneBehind }
{}

/// What a read at the end of a fork and a denied open are told is shown by its bytes, with their codes; and so is what any refusal of any call tells
/// to a request of its kind.
pub fn told_refusals_are_shown()
    ensures end { laws.EndIsShown }
    ensures denial { laws.DenialIsShown }
    ensures all { laws.RefusalsAreShown }
{}

/// Where two files change their forks, each open fork of each session has the bytes that it had, and is open as it was; all locks stay.
pub fn exchanged_forks_keep_their_bytes()
    ensures bytes { write_laws.ExchangesKeepBytes }
    ensures opens { write_laws.ExchangesKeepOpens }
{}

/// What the calls are told that exchange files and tell of ids, and those on the desktop database, one after another, in values that were worked by hand.
pub fn worked_desks_hold()
    ensures exchanged { desks.ForksGoAlong }
    ensures denials { desks.DenialsGoAlong }
    ensures ids { desks.IdsAreTold }
    ensures open { desks.DesksAreOpen }
    ensures icons { desks.IconsAreTold }
    ensures appls { desks.ApplsAreTold }
{}

/// Of the calls on open forks FPWrite, FPWriteExt and FPSetForkParms change a volume, and commit that to its keeper: where they commit nothing they
/// change nothing. The others change no volume.
pub fn forks_commit_what_they_change()
    ensures three { laws.ThreeChangeVolumes }
    ensures others { laws.OthersLeaveVolumes }
{}

/// At each place of a lawful history no two open forks have one reference, no two opens of one fork conflict, and no byte of a fork is locked
/// twice: whichever sessions opened and locked.
pub fn forks_are_shared_in_each_history()
    ensures opens { history_laws.NeverTwoConflict }
    ensures locks { history_laws.NeverByteTwice }
{}

/// A write puts its piece where it starts. While a fork stays open its bytes are those from before, with all that was written in between, and all that it got from a file
/// which changed forks with its own. So what was written is there until bytes of it are written again, cut off or exchanged, and any session that may read them is not refused, and is told them.
pub fn what_is_written_is_read()
    ensures changes { history_laws.ForksHaveTheirChanges }
    ensures puts { history_laws.WritesPutTheirPiece }
    ensures there { history_laws.WrittenIsThere }
    ensures passes { history_laws.WrittenIsNotRefused }
    ensures read { history_laws.WrittenIsRead }
{
    splice_puts_between();
    resizing_keeps_the_front();
}
