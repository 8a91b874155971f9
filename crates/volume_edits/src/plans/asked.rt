//! What plans ask of a volume.
ghost use Rattle.std.specs.Prelude.{◌≡◌, not, ◌&&◌, is_none, is_some};
ghost use Rattle.volume_spec.specs.Desktop.{appl_at, comment_at, has_no_appl_room, has_no_icon_room, icon_at};
ghost use Rattle.volume_spec.specs.FileIds.{is_filed};
ghost use Rattle.volume_spec.specs.SoundVolume.{has_file};

use crate::edits::{WholeNode, WholeVolume};
use afp_base::NodeId;
use volume_spec::limits::{MOST_APPLS, MOST_ICONS};

/// Whether a node is a file that is filed.
fn is_filed_node(node: &WholeNode<'_>) -> bool
    ensures { result ≡ (not node.now.dir && node.now.filed) }
{
    !node.node.dir && node.node.marks.filed
}

/// Whether an id is a file's.
pub(crate) fn is_file(whole: &WholeVolume, id: NodeId) -> bool
    ensures { result ≡ has_file whole.now.state.rows id.0 }
{
    whole.tree.is_file(id)
}

/// Whether an id is that of a file that is filed.
pub(crate) fn is_filed(whole: &WholeVolume, id: NodeId) -> bool
    ensures { result ≡ is_filed whole.now.state.rows id.0 }
{
    whole.keeps_sound();
    match whole.node_before(id) {
        Some(node) => is_filed_node(&node),
        None => false,
    }
}

/// Whether a node has a comment.
pub(crate) fn has_comment(whole: &WholeVolume, id: NodeId) -> bool
    ensures { result ≡ is_some (comment_at id.0 whole.now.state.comments) }
{
    whole.comment(id).is_some()
}

/// Whether a node has no comment.
pub(crate) fn has_no_comment(whole: &WholeVolume, id: NodeId) -> bool
    ensures { result ≡ is_none (comment_at id.0 whole.now.state.comments) }
{
    match whole.comment(id) {
        Some(_) => false,
        None => true,
    }
}

/// Whether there is no icon under a key.
fn has_no_icon(whole: &WholeVolume, key: &[u8; 9]) -> bool
    ensures { result ≡ is_none (icon_at key.now whole.now.state.icons) }
{
    match whole.icon(key) {
        Some(_) => false,
        None => true,
    }
}

/// Whether there is no room for the icon of a key.
pub(crate) fn has_no_icon_room(whole: &WholeVolume, key: &[u8; 9]) -> bool
    ensures { result ≡ has_no_icon_room key.now whole.now.state.icons }
{
    whole.icon_count() >= MOST_ICONS && has_no_icon(whole, key)
}

/// Whether there is no mapping of a creator and a file.
pub(crate) fn has_no_appl(whole: &WholeVolume, creator: &[u8; 4], id: NodeId) -> bool
    ensures { result ≡ is_none (appl_at creator.now id.0 whole.now.state.appls) }
{
    match whole.appl(creator, id) {
        Some(_) => false,
        None => true,
    }
}

/// Whether there is no room for the mapping of a creator and a file.
pub(crate) fn has_no_appl_room(whole: &WholeVolume, creator: &[u8; 4], id: NodeId) -> bool
    ensures { result ≡ has_no_appl_room creator.now id.0 whole.now.state.appls }
{
    whole.appls().len() >= MOST_APPLS && has_no_appl(whole, creator, id)
}
