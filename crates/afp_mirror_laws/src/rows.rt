//! Laws. Each function says one, and does nothing.
ghost use Rattle.afp_mirror_laws.specs.Paired as paired;
ghost use Rattle.afp_mirror_laws.specs.ReadBack as read_back;
ghost use Rattle.afp_mirror_laws.specs.Reached as reached;
ghost use Rattle.afp_mirror_laws.specs.Rows as rows;
ghost use Rattle.afp_mirror_laws.specs.Swept as swept;

use afp_mirror_walk::refusals_end;

/// Each row of the table comes exactly from its cause.
pub fn rows_are_exact()
    ensures refused { rows.RefusedIsExact }
    ensures not_empty { rows.NotEmptyIsExact }
    ensures too_many { rows.TooManyIsExact }
    ensures bad { rows.BadIsExact }
    ensures changed { rows.ChangedIsExact }
{
    refusals_end();
}

/// A mirror that is Done has listed every directory of the source from 1 until there were no more entries.
pub fn every_directory_is_listed()
    ensures { swept.DoneHasSwept }
{}

/// A mirror that is Done pairs the ids that the source's lists gave, one after the other, with those of the nodes made for them.
pub fn every_node_is_paired()
    ensures { paired.DonePairs }
{}

/// Each id that the source's lists gave has just one line of a mirror that is Done.
pub fn every_id_has_one_line()
    ensures { paired.EachHasOneLine }
{}

/// Wherever a mirror comes to, its rows are exact; and it ends TooMany just at the 10,001st node.
pub fn rows_are_exact_where_it_comes()
    ensures fit { reached.ReachedIsFit }
    ensures too_many { reached.TooManyIsOneMore }
{}

/// The last turns of a mirror that is Done read back both forks of each file, and both sides were told the same.
pub fn every_fork_is_read_back()
    ensures { read_back.DoneHasReadBack }
{}
