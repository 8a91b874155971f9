//! Laws of a volume's desktop database. Each function says some, and does nothing.
ghost use Rattle.volume_spec.specs.DesktopLaws as laws;

/// What was put is found under its key, what was taken is not, and what stands under other keys stays.
pub fn what_was_put_is_found()
    ensures icon { laws.FindsPutIcon }
    ensures appl { laws.FindsPutAppl }
    ensures appl_taken { laws.FindsNoTakenAppl }
    ensures comment { laws.FindsPutComment }
    ensures comment_taken { laws.FindsNoTakenComment }
{}

/// Each call of the desktop database keeps its lists in order, formed and within the limits.
pub fn calls_keep_desktops()
    ensures icon { laws.IconKeepsDesktop }
    ensures appl { laws.ApplKeepsDesktop }
    ensures appl_taken { laws.TakenApplKeepsDesktop }
    ensures comment { laws.CommentKeepsDesktop }
    ensures comment_taken { laws.TakenCommentKeepsDesktop }
    ensures gone { laws.GoneNodeKeepsDesktop }
{}

/// A sound volume has a desktop database, and any other that stands on its nodes may take its place; so each call of the desktop
/// database that is not refused keeps a sound volume sound.
pub fn desktops_keep_volumes_sound()
    ensures has { laws.SoundHasDesktop }
    ensures stands { laws.DesktopStands }
    ensures add_icon { laws.AddIconKeepsSound }
    ensures add_appl { laws.AddApplKeepsSound }
    ensures remove_appl { laws.RemoveApplKeepsSound }
    ensures add_comment { laws.AddCommentKeepsSound }
    ensures remove_comment { laws.RemoveCommentKeepsSound }
{}

/// An icon has the parts of the key that it was put under, and one that is listed is found under its key.
pub fn icons_have_their_keys()
    ensures parts { laws.IconHasParts }
    ensures listed { laws.ListedIconIsFound }
{}

/// With a node go its comment and its mappings. The creators of a file rise.
pub fn mappings_stand_by_creator()
    ensures comment_gone { laws.CommentGoesWithNode }
    ensures mappings_gone { laws.MappingsGoWithNode }
    ensures creators { laws.CreatorsRise }
{}
