//! Laws of a volume. Each function says one, and does nothing.
ghost use Rattle.volume_spec.specs.ForkLaws as fork_laws;
ghost use Rattle.volume_spec.specs.Laws as laws;
ghost use Rattle.volume_spec.specs.ListLaws as list_laws;
ghost use Rattle.volume_spec.specs.RightsExamples as rights;
ghost use Rattle.volume_spec.specs.ValueLaws as value_laws;
ghost use Rattle.volume_spec.specs.WorkedExamples as worked;

/// No way to the root is longer than there are rows.
pub fn ways_are_short()
    ensures { laws.NeedsNoMore }
{}

/// A volume that nobody has used is sound, under each name.
pub fn fresh_volumes_are_sound()
    ensures { laws.FreshIsSound }
{}

/// A call that is not refused keeps a sound volume sound.
pub fn calls_keep_volumes_sound()
    ensures create_dir { laws.CreateDirKeepsSound }
    ensures create_file { laws.CreateFileKeepsSound }
    ensures delete { laws.DeleteKeepsSound }
    ensures rename { laws.RenameKeepsSound }
    ensures moved { laws.MoveKeepsSound }
    ensures settings { laws.SettingsKeepSound }
    ensures set_file { laws.SetFileParmsKeepsSound }
    ensures set_dir { laws.SetDirParmsKeepsSound }
    ensures set_file_dir { laws.SetFileDirParmsKeepsSound }
    ensures set_volume { laws.SetVolParmsKeepsSound }
{}

/// The list of a directory has each child just once, by the order of the keys, and no other list does. Pages from start 1, each from
/// behind the one before it, are that list.
pub fn lists_have_each_child_once()
    ensures once { laws.ListsChildrenOnce }
    ensures by_key { laws.ListsByKey }
    ensures no_other { laws.ListsNoOther }
    ensures pages { laws.PagesAreList }
{}

/// What a list counts has each child of a kind that is asked just once, by the order of the keys. The entries of a reply are as many of
/// these as are asked and fit, from the start on; where the list is not refused there is one at least. Replies from start 1, each from
/// behind the one before it, are the first that are counted, and all once nothing is behind them.
pub fn replies_list_each_child_once()
    ensures once { list_laws.CountsChildrenOnce }
    ensures by_key { list_laws.CountsByKey }
    ensures page { list_laws.EntriesArePage }
    ensures asked { list_laws.EntriesAreAsked }
    ensures fit { list_laws.EntriesFit }
    ensures never_empty { list_laws.ListIsNeverEmpty }
    ensures fewer { list_laws.FewerFit }
    ensures as_far { list_laws.EntriesGoAsFar }
    ensures turns { list_laws.TurnsGiveFirst }
    ensures all_turns { list_laws.TurnsGiveAll }
{}

/// Where something is asked of both kinds every child counts. What is listed is there, by its id. Bytes in forks do not matter.
pub fn what_counts_is_listed()
    ensures all { list_laws.CountsAll }
    ensures there { list_laws.ListedIsThere }
    ensures entries { list_laws.EntriesAreThere }
    ensures bare { list_laws.CountsBare }
    ensures offspring { list_laws.OffspringBare }
{}

/// What is told of a volume and of a node are values that the bits ask for, each one of its type: so there is a block of them. Where a call
/// that tells is not refused, it tells something.
pub fn values_are_those_asked_for()
    ensures volume { value_laws.VolumeIsTold }
    ensures node { value_laws.NodeIsTold }
    ensures found { value_laws.FoundIsTold }
    ensures directory { value_laws.DirIsTold }
{}

/// A set call takes what is told: the block of a node's values, for bits that may be set, is a tail that sets these values.
pub fn what_is_told_can_be_set()
    ensures file { value_laws.FileIsSetAsTold }
    ensures directory { value_laws.DirIsSetAsTold }
{}

/// What a table by id and by name's key tells: whether a node is below another, by parents; whether a place is taken, by key.
pub fn tables_tell_the_tree()
    ensures below { laws.BelowByParent }
    ensures taken { laws.TakenByKey }
{}

/// Calls one after another, refused or not, keep a volume sound; and an id that was drawn is never drawn again.
pub fn calls_keep_volumes_sound_for_ever()
    ensures sound { laws.StepsKeepSound }
    ensures once { laws.NeverDrawnAgain }
{}

/// The numbers of a volume stay in the ranges of their fields, whatever calls come whose numbers are in theirs.
pub fn numbers_stay_in_their_ranges()
    ensures call { laws.CallsKeepTyped }
    ensures calls { laws.StepsKeepTyped }
    ensures fresh { laws.FreshIsTyped }
    ensures put { laws.PutKeepsTyped }
    ensures exchanged { laws.ExchangeKeepsTyped }
{}

/// A call lets the volume's name be. One that is not refused lets each file be of which a fork is open.
pub fn open_files_stay()
    ensures name { laws.NameStays }
    ensures files { laws.OpenFilesStay }
{}

/// Other bytes in the fork of a file, for which there is room, keep a volume sound and its numbers in their ranges. The file has them then, and
/// nothing else of the tree changes.
pub fn forks_are_given_bytes()
    ensures sound { fork_laws.ForkKeepsSound }
    ensures typed { fork_laws.ForkKeepsTyped }
    ensures given { fork_laws.ForkIsGiven }
    ensures let_be { fork_laws.ForkLeavesOthers }
    ensures files { fork_laws.FilesStay }
    ensures counted { fork_laws.ForkIsCounted }
    ensures few { fork_laws.ForksAreFew }
    ensures room { fork_laws.RoomIsFew }
{}

/// Where a walk leads there is a node. Another row may take the place of one. What is done by id is done at the place of that row.
pub fn rows_are_changed_in_place()
    ensures walks { laws.WalksEndAtNodes }
    ensures put { laws.PutKeepsSound }
    ensures exchanged { laws.ExchangeKeepsSound }
    ensures changed { laws.ChangesAtPlace }
    ensures removed { laws.RemovesAtPlace }
    ensures seen { laws.ChangesAreSeen }
    ensures let_be { laws.ChangesLeaveOthers }
    ensures unseen { laws.GoneIsUnseen }
    ensures lets_be { laws.GoneLeavesOthers }
{}

/// Rows in the order of their ids have ids that differ, and each edit keeps that order.
pub fn rows_stay_in_order()
    ensures differ { laws.RisingIdsDiffer }
    ensures new { laws.NewRises }
    ensures gone { laws.GoneRises }
    ensures changed { laws.ChangedRises }
{}

/// A path that bytes spell in UTF-8 goes down to names alone.
pub fn utf8_paths_are_named()
    ensures { laws.Utf8PathsAreNamed }
{}

/// A path that bytes spell, in UTF-8 or by long names, goes down to names alone.
pub fn paths_are_named()
    ensures { laws.PathsAreNamed }
{}

/// What is asked of a tree is the same of rows with no bytes in their forks, and edits of the tree go beside the bytes.
pub fn forks_do_not_matter()
    ensures found { laws.FindsBare }
    ensures parents { laws.ParentsBare }
    ensures keys { laws.KeysBare }
    ensures long_names { laws.LongNamesBare }
    ensures walks { laws.WalksBare }
    ensures closed { laws.ClosedBare }
    ensures lacks { laws.LacksBare }
    ensures owners { laws.OwnersBare }
    ensures lists { laws.ListsBare }
    ensures taken { laws.TakenBare }
    ensures below { laws.BelowBare }
    ensures changed { laws.ChangesBare }
    ensures gone { laws.GoneBare }
{}

/// What is told of a volume that nobody has used, who owns its root, what rights there are, and what a tail sets, in numbers that were worked by hand.
pub fn worked_examples_hold()
    ensures volume { worked.FreshVolumeIsTold }
    ensures root { worked.RootIsTheGuests }
    ensures new_file { worked.NewFileIsNobodys }
    ensures rights { worked.RightsAreInOrder }
    ensures directory_rights { worked.DirectoryHasRights }
    ensures file_rights { worked.FileHasNoRights }
    ensures three_bits { worked.RightsAreThreeBits }
    ensures tail { worked.TailIsRead }
    ensures long_enough { worked.TailIsLongEnough }
    ensures too_short { worked.TailIsTooShort }
    ensures set { worked.AttributesAreSet }
    ensures cleared { worked.AttributesAreCleared }
    ensures masked { worked.AttributesAreMasked }
{}

/// A directory that is its owner's alone: what is told of it, and what others are refused.
pub fn owners_are_told_apart()
    ensures new { rights.NewIsTold }
    ensures others { rights.OthersAreTold }
    ensures takes { rights.OwnerTakes }
    ensures denied { rights.OthersAreDenied }
    ensures set { rights.OthersSetNothing }
{}

/// No step leads a user down from a directory that it may not search; and where a user's walk leads, so does that of one who may
/// search each directory.
pub fn rights_only_deny()
    ensures closed { rights.ClosedIsDenied }
    ensures deny { rights.RightsOnlyDeny }
{}
