//! The changes of the records of a volume, whatever changes it.
ghost use Rattle.std.specs.Prelude.{◌≡◌, ℕ, List, IfOk};
ghost use Rattle.volume_spec.specs.SoundVolume.{IsSoundVolume};
ghost use Rattle.volume_spec.specs.VolumeState.{VolumeState};
ghost use Rattle.fork_bytes.specs.Plan.{changes_of};
ghost use Rattle.record_keeper.specs.Records.{changed};
ghost use Rattle.volume_keeper_records.specs.Image.{kept_image, tables_of};
ghost use Rattle.volume_keeper_records.specs.Records.{version};
ghost use Rattle.volume_changes.specs.records.Differences.{differences};
ghost use Rattle.volume_changes.specs.records.Laws.{IsExact};
ghost use Rattle.volume_changes.specs.records.Touched.{IsWithin, keys_of, node_value};
ghost use Rattle.volume_changes.specs.records.TouchedOrder.{AreRising};
ghost use Rattle.volume_changes.specs.records.ValueChange.{value_change};
ghost use Rattle.volume_changes.specs.records.Values.{appl_tag, comment_value, fork_at, icon_value};

use crate::records::kinds::{
    change_appls, change_comments, change_forks, change_head, change_icons, change_nodes,
};
use crate::records::laws::{touched_keys_rise, volumes_change_exactly};
use crate::records::touched::{Touched, in_range};
use afp_base::{Bytes, OutOfMemory};
use fork_bytes::Block;
use record_keeper::Change;
use std::alloc::Global;
use volume_keeper_records::Head;

/// How the value of a record changes.
#[derive(Drop)]
pub enum ValueChange {
    /// It stays as it is, or there is none as before.
    Same,
    /// There is none any more.
    Gone,
    /// It is these bytes from now on: others than before, or there was none.
    Is(Bytes),
}

/// A volume as it is, and as it will be: what there is of each kind of record, in the version that is written. The one error is want of memory.
pub trait Transition {
    ghost before: { Self → VolumeState };

    ghost after: { Self → VolumeState };

    /// The head as it is.
    fn head_before(&self) -> Head
        ensures { result ≡ (tables_of version (before self.now)).head };

    /// The head as it will be.
    fn head_after(&self) -> Head
        ensures { result ≡ (tables_of version (after self.now)).head };

    /// How the value of a node's record changes. A node that is not there has none.
    fn node_change(&self, alloc: Global, id: u32) -> Result<ValueChange, OutOfMemory>
        ensures { IfOk result (λ change. change ≡ value_change (node_value (before self.now) id) (node_value (after self.now) id)) };

    /// The blocks of a fork that differ, by rising index, as they will be. A fork that is not there has no bytes.
    fn blocks(&self, alloc: Global, id: u32, resource: bool) -> Result<Vec<Block>, OutOfMemory>
        ensures { IfOk result (λ list. list.items ≡ changes_of (fork_at (before self.now) id resource) (fork_at (after self.now) id resource)) };

    /// The text of a node's comment as it is.
    fn comment_before(&self, alloc: Global, node: u32) -> Result<Option<Bytes>, OutOfMemory>
        ensures { IfOk result (λ text. text ≡ comment_value (before self.now) node) };

    /// The text of a node's comment as it will be.
    fn comment_after(&self, alloc: Global, node: u32) -> Result<Option<Bytes>, OutOfMemory>
        ensures { IfOk result (λ text. text ≡ comment_value (after self.now) node) };

    /// The record of the icon under a key, creator, type and icon type, as it is.
    fn icon_before(&self, alloc: Global, key: &[u8; 9]) -> Result<Option<Bytes>, OutOfMemory>
        ensures { IfOk result (λ value. value ≡ icon_value (before self.now) key.now) };

    /// The record of the icon under a key as it will be.
    fn icon_after(&self, alloc: Global, key: &[u8; 9]) -> Result<Option<Bytes>, OutOfMemory>
        ensures { IfOk result (λ value. value ≡ icon_value (after self.now) key.now) };

    /// The tag of the mapping of a creator and a file as it is.
    fn appl_before(&self, creator: &[u8; 4], node: u32) -> Option<u32>
        ensures { result ≡ appl_tag (before self.now) creator.now node };

    /// The tag of the mapping of a creator and a file as it will be.
    fn appl_after(&self, creator: &[u8; 4], node: u32) -> Option<u32>
        ensures { result ≡ appl_tag (after self.now) creator.now node };
}

/// The changes of the touched keys, in their order.
fn touched_changes<S: Transition>(
    alloc: Global,
    step: &S,
    touched: &Touched,
) -> Result<Vec<Change>, OutOfMemory>
    requires before { IsSoundVolume (S.before step.now) }
    requires after { IsSoundVolume (S.after step.now) }
    ensures { IfOk result (λ list. list.items ≡ differences (keys_of touched.now) (kept_image (S.before step.now)) (kept_image (S.after step.now))) }
{
    let mut changes = Vec::new(alloc);
    change_head(alloc, step, &mut changes)?;
    change_nodes(alloc, step, touched.nodes.as_slice(), &mut changes)?;
    change_forks(alloc, step, touched.forks.as_slice(), &mut changes)?;
    change_comments(alloc, step, touched.comments.as_slice(), &mut changes)?;
    change_icons(alloc, step, touched.icons.as_slice(), &mut changes)?;
    change_appls(alloc, step, touched.appls.as_slice(), &mut changes)?;
    Ok(changes)
}

/// The changes of the records of a volume between what it is and what it will be, which is the same beyond what is touched. Made at once they turn
/// the records of the one into those of the other. They name exactly the keys whose values differ, each once, in the order of its bytes. The one error
/// is want of memory.
pub fn changes<S: Transition>(
    alloc: Global,
    step: &S,
    touched: &Touched,
) -> Result<Vec<Change>, OutOfMemory>
    requires before { IsSoundVolume (S.before step.now) }
    requires after { IsSoundVolume (S.after step.now) }
    requires within { IsWithin touched.now (S.before step.now) (S.after step.now) }
    requires rising { AreRising touched.now }
    ensures changes { IfOk result (λ list. list.items ≡ differences (keys_of touched.now) (kept_image (S.before step.now)) (kept_image (S.after step.now))) }
    ensures image { IfOk result (λ list. changed list.items (kept_image (S.before step.now)) ≡ kept_image (S.after step.now)) }
    ensures exact { IfOk result (λ list. IsExact list.items (kept_image (S.before step.now)) (kept_image (S.after step.now))) }
{
    volumes_change_exactly();
    touched_keys_rise();
    in_range(touched);
    let changes = touched_changes(alloc, step, touched)?;
    Ok(changes)
}
