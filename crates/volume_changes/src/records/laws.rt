//! Laws of changes. Each function says some, and does nothing.
ghost use Rattle.volume_changes.specs.records.Laws as laws;

/// The changes of rising keys, among which is each whose values differ, make the one map of the other, and name exactly the keys whose values differ.
pub fn differences_are_exact()
    ensures made { laws.DifferencesMake }
    ensures exact { laws.DifferencesAreExact }
{}

/// The same of the records of two sound volumes that are one beyond what is touched.
pub fn volumes_change_exactly()
    ensures made { laws.VolumesChange }
    ensures exact { laws.VolumeChangesAreExact }
{
    fork_bytes::laws::blocks_are_bytes();
    fork_bytes::laws::blocks_of_bytes_are_kept();
}

/// What edits touch.
pub fn edits_touch_their_own()
    ensures edits { laws.EditsAreWithin }
    ensures call { laws.CallsAreWithin }
{
    volume_spec::desktop_laws::what_was_put_is_found();
}

/// What a call changes in the records of a volume, exactly.
pub fn calls_change_exactly()
    ensures made { laws.CallsChange }
    ensures exact { laws.CallChangesAreExact }
{
    fork_bytes::laws::blocks_are_bytes();
    fork_bytes::laws::blocks_of_bytes_are_kept();
    volume_spec::edit_laws::edits_keep_volumes_sound();
    edits_touch_their_own();
}

/// What stands at a key of each kind in the records of a sound volume.
pub fn records_are_found()
    ensures head { laws.HeadIsFound }
    ensures nodes { laws.NodesAreFound }
    ensures blocks { laws.BlocksAreFound }
    ensures comments { laws.CommentsAreFound }
    ensures icons { laws.IconsAreFound }
    ensures appls { laws.ApplsAreFound }
{
    fork_bytes::laws::blocks_are_bytes();
    fork_bytes::laws::blocks_of_bytes_are_kept();
}

/// Of the records of a fork's blocks those change whose blocks differ.
pub fn forks_change_by_block()
    ensures { laws.ForksChange }
{
    fork_bytes::laws::blocks_are_bytes();
    fork_bytes::laws::blocks_of_bytes_are_kept();
}

/// The keys of what is touched rise where that does.
pub fn touched_keys_rise()
    ensures { laws.TouchedKeysRise }
{}
