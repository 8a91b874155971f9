//! A volume with its desktop database as it is: what there is of each kind of record. None of these takes memory.
ghost use Rattle.std.specs.Prelude.{◌≡◌, [], length, option_map, unwrap_or};
ghost use Rattle.std.specs.Option.{option_copied};
ghost use Rattle.desktop_db.specs.Kept.{shown_icon};
ghost use Rattle.volume_spec.specs.Desktop.{appl_at, comment_at, icon_at};
ghost use Rattle.volume_spec.specs.VolumeState.{Appl as Mapping, Comment, Icon};
ghost use Rattle.volume_spec.specs.Walk.{found, row_at};
ghost use Rattle.volume_tree.specs.Answered.{Answers};
ghost use Rattle.volume_edits.specs.edits.After.{bytes_of};

use crate::edits::whole::WholeVolume;
use afp_base::NodeId;
use afp_names::Path;
use desktop_db::Appl;
use fork_bytes::Fork;
use std::alloc::Global;
use volume_tree::{PlanFault, VolumeHead};

impl WholeVolume {
    /// The volume's dates and its next node id.
    pub fn head(&self) -> VolumeHead
        ensures created { result.created ≡ self.now.state.created }
        ensures modified { result.modified ≡ self.now.state.modified }
        ensures backup { result.backup ≡ self.now.state.backup }
        ensures next_id { result.next_id ≡ self.now.state.next_id }
    {
        self.tree.head()
    }

    /// A fork of the file of an id.
    pub(crate) fn fork_before(&self, id: NodeId, resource: bool) -> Option<&Fork>
        ensures { unwrap_or (option_copied result) [] ≡ bytes_of resource (row_at self.now.state.rows id.0) }
    {
        self.tree.keeps_sound();
        self.tree.fork(id, resource)
    }

    /// The text of a node's comment.
    pub fn comment(&self, node: NodeId) -> Option<&[u8]>
        ensures { option_copied result ≡ option_map (λ (comment : Comment). comment.text) (comment_at node.0 self.now.state.comments) }
    {
        self.desktop.comment(node)
    }

    /// The tag and the bits of the icon under a key: creator, type, icon type.
    pub fn icon(&self, key: &[u8; 9]) -> Option<(u32, &[u8])>
        ensures { option_map shown_icon result ≡ option_map (λ (icon : Icon). (icon.tag, icon.bits)) (icon_at key.now self.now.state.icons) }
    {
        self.desktop.icon(key)
    }

    /// The tag of the mapping of a creator and a file.
    pub fn appl(&self, creator: &[u8; 4], node: NodeId) -> Option<u32>
        ensures { result ≡ option_map (λ (appl : Mapping). appl.tag) (appl_at creator.now node.0 self.now.state.appls) }
    {
        self.desktop.appl(creator, node)
    }

    /// All mappings, by rising creator and file, lent.
    pub fn appls(&self) -> &[Appl]
        ensures { result.now ≡ self.now.state.appls }
    {
        self.desktop.all_appls()
    }

    /// How many icons there are.
    pub fn icon_count(&self) -> usize
        ensures { result ≡ length self.now.state.icons }
    {
        self.desktop.icons()
    }

    /// Where a path leads a user from a directory (AFP Reference, "Pathnames"). Want of memory comes for no other reason.
    pub fn resolve(
        &self,
        alloc: Global,
        user: u32,
        dir: NodeId,
        path: &Path,
    ) -> Result<NodeId, PlanFault>
        ensures { Answers result (found self.now.state.rows user dir.0 path.now) }
    {
        self.tree.resolve(alloc, user, dir, path)
    }
}
