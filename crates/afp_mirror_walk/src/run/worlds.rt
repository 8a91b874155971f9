//! Laws. Each function says one, and does nothing.
ghost use Rattle.afp_mirror_walk.specs.Steps as steps;

/// A call that is told Ok has the effect of its row; one that is told another code leaves all volumes and open forks.
pub fn what_is_served_ok_runs()
    ensures runs { steps.ServedOkRuns }
    ensures stays { steps.RefusedStays }
{}

/// A list that is told Ok has the entries of the directory, and changes no volume.
pub fn what_is_listed_is_there()
    ensures { steps.ListsRun }
{}

/// A change of the tree that is told Ok is the volume's own, and leaves every other volume.
pub fn trees_are_changed()
    ensures dirs { steps.DirsAreMade }
    ensures files { steps.FilesAreMade }
    ensures set_files { steps.FilesAreSet }
    ensures set_dirs { steps.DirsAreSet }
{}

/// A read that is told Ok has all that was asked, and changes no volume; a write puts its piece.
pub fn forks_are_read_and_written()
    ensures reads { steps.ReadsRun }
    ensures writes { steps.WritesRun }
{}

/// Forks that are opened or closed, volumes that are opened, and files that are found change no volume.
pub fn volumes_stay()
    ensures opens { steps.OpensStay }
    ensures closes { steps.ClosesStay }
    ensures opens_volume { steps.OpenVolStays }
    ensures finds { steps.FindsStay }
{}

/// Where a call that makes a node is told Ok, the node is there, under a name that was free, and all other nodes and volumes are as before. A piece that is read and written
/// behind the first bytes of the same fork makes these longer.
pub fn nodes_are_made_and_copied()
    ensures dirs { steps.DirIsMade }
    ensures files { steps.FileIsMade }
    ensures pieces { steps.CopiesPiece }
{}

/// A file that is set, as a list told it of a row of its kind, has what that row has.
pub fn files_are_set()
    ensures { steps.FileIsSet }
{}
