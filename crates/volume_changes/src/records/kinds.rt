//! The changes of the records of each kind.
ghost use Rattle.std.specs.Prelude.{◌≡◌, ◌++◌, ◌∷◌, [], ℕ, List, flat_map, map, OnOk};
ghost use Rattle.volume_spec.specs.SoundVolume.{IsSoundVolume};
ghost use Rattle.volume_keeper_records.specs.Image.{kept_image};
ghost use Rattle.volume_keeper_records.specs.Records as records;
ghost use Rattle.volume_changes.specs.declared.records.touched.ForkPlace.{ForkPlace as Fork};
ghost use Rattle.volume_changes.specs.declared.records.touched.Mapping.{Mapping as Appl};
ghost use Rattle.volume_changes.specs.records.Differences.{differences};
ghost use Rattle.volume_changes.specs.records.Touched.{fork_keys};

use crate::records::laws::{forks_change_by_block, records_are_found};
use crate::records::noting::{appl_value, change_blocks, note, push};
use crate::records::touched::{ForkPlace, Mapping, four_bytes};
use crate::records::transition::{Transition, ValueChange};
use afp_base::{Bytes, OutOfMemory};
use record_keeper::Change;
use std::alloc::Global;
use volume_keeper_records::{appl_key, comment_key, head_bytes, head_key, icon_key, node_key};

/// The change of the head's record.
pub(crate) fn change_head<S: Transition>(
    alloc: Global,
    step: &S,
    changes: &mut Vec<Change>,
) -> Result<(), OutOfMemory>
    requires before { IsSoundVolume (S.before step.now) }
    requires after { IsSoundVolume (S.after step.now) }
    ensures { OnOk result (changes.new.items ≡ changes.old.items ++ differences (records.head_key ∷ []) (kept_image (S.before step.now)) (kept_image (S.after step.now))) }
{
    records_are_found();
    let old = head_bytes(&step.head_before());
    let new = head_bytes(&step.head_after());
    if old.as_slice() == new.as_slice() {
        return Ok(());
    }
    let key = head_key(alloc)?;
    let value = Bytes::of(alloc, &new)?;
    push(changes, Change::Put { key, value })
}

/// The change of a node's record.
fn change_node<S: Transition>(
    alloc: Global,
    step: &S,
    id: u32,
    changes: &mut Vec<Change>,
) -> Result<(), OutOfMemory>
    requires before { IsSoundVolume (S.before step.now) }
    requires after { IsSoundVolume (S.after step.now) }
    ensures { OnOk result (changes.new.items ≡ changes.old.items ++ differences (records.node_key id ∷ []) (kept_image (S.before step.now)) (kept_image (S.after step.now))) }
{
    records_are_found();
    match step.node_change(alloc, id)? {
        ValueChange::Same => Ok(()),
        ValueChange::Gone => {
            let key = node_key(alloc, id)?;
            push(changes, Change::Remove { key })
        }
        ValueChange::Is(value) => {
            let key = node_key(alloc, id)?;
            push(changes, Change::Put { key, value })
        }
    }
}

/// The changes of the records of these nodes, in their order.
pub(crate) fn change_nodes<S: Transition>(
    alloc: Global,
    step: &S,
    ids: &[u32],
    changes: &mut Vec<Change>,
) -> Result<(), OutOfMemory>
    requires before { IsSoundVolume (S.before step.now) }
    requires after { IsSoundVolume (S.after step.now) }
    ensures { OnOk result (changes.new.items ≡ changes.old.items ++ differences (map records.node_key ids.now) (kept_image (S.before step.now)) (kept_image (S.after step.now))) }
{
    for i in 0..ids.len() {
        change_node(alloc, step, ids[i], changes)?;
    }
    Ok(())
}

/// The changes of the records of a fork's blocks.
fn change_fork<S: Transition>(
    alloc: Global,
    step: &S,
    place: &ForkPlace,
    changes: &mut Vec<Change>,
) -> Result<(), OutOfMemory>
    requires before { IsSoundVolume (S.before step.now) }
    requires after { IsSoundVolume (S.after step.now) }
    ensures { OnOk result (changes.new.items ≡ changes.old.items ++ differences (fork_keys place.now) (kept_image (S.before step.now)) (kept_image (S.after step.now))) }
{
    forks_change_by_block();
    let blocks = step.blocks(alloc, place.node, place.resource)?;
    change_blocks(alloc, place.node, place.resource, blocks, changes)
}

/// The changes of the records of these forks' blocks, in their order.
pub(crate) fn change_forks<S: Transition>(
    alloc: Global,
    step: &S,
    forks: &[ForkPlace],
    changes: &mut Vec<Change>,
) -> Result<(), OutOfMemory>
    requires before { IsSoundVolume (S.before step.now) }
    requires after { IsSoundVolume (S.after step.now) }
    ensures { OnOk result (changes.new.items ≡ changes.old.items ++ differences (flat_map fork_keys forks.now) (kept_image (S.before step.now)) (kept_image (S.after step.now))) }
{
    for i in 0..forks.len() {
        change_fork(alloc, step, &forks[i], changes)?;
    }
    Ok(())
}

/// The change of the record of a node's comment.
fn change_comment<S: Transition>(
    alloc: Global,
    step: &S,
    node: u32,
    changes: &mut Vec<Change>,
) -> Result<(), OutOfMemory>
    requires before { IsSoundVolume (S.before step.now) }
    requires after { IsSoundVolume (S.after step.now) }
    ensures { OnOk result (changes.new.items ≡ changes.old.items ++ differences (records.comment_record_key node ∷ []) (kept_image (S.before step.now)) (kept_image (S.after step.now))) }
{
    records_are_found();
    let old = step.comment_before(alloc, node)?;
    let new = step.comment_after(alloc, node)?;
    let key = comment_key(alloc, node)?;
    note(changes, key, old, new)
}

/// The changes of the records of the comments of these nodes, in their order.
pub(crate) fn change_comments<S: Transition>(
    alloc: Global,
    step: &S,
    nodes: &[u32],
    changes: &mut Vec<Change>,
) -> Result<(), OutOfMemory>
    requires before { IsSoundVolume (S.before step.now) }
    requires after { IsSoundVolume (S.after step.now) }
    ensures { OnOk result (changes.new.items ≡ changes.old.items ++ differences (map records.comment_record_key nodes.now) (kept_image (S.before step.now)) (kept_image (S.after step.now))) }
{
    for i in 0..nodes.len() {
        change_comment(alloc, step, nodes[i], changes)?;
    }
    Ok(())
}

/// The change of the record of an icon.
fn change_icon<S: Transition>(
    alloc: Global,
    step: &S,
    key: &[u8; 9],
    changes: &mut Vec<Change>,
) -> Result<(), OutOfMemory>
    requires before { IsSoundVolume (S.before step.now) }
    requires after { IsSoundVolume (S.after step.now) }
    ensures { OnOk result (changes.new.items ≡ changes.old.items ++ differences ((records.icon_tag ∷ key.now) ∷ []) (kept_image (S.before step.now)) (kept_image (S.after step.now))) }
{
    records_are_found();
    let old = step.icon_before(alloc, key)?;
    let new = step.icon_after(alloc, key)?;
    let record_key = icon_key(alloc, key)?;
    note(changes, record_key, old, new)
}

/// The changes of the records of the icons of these keys, in their order.
pub(crate) fn change_icons<S: Transition>(
    alloc: Global,
    step: &S,
    keys: &[[u8; 9]],
    changes: &mut Vec<Change>,
) -> Result<(), OutOfMemory>
    requires before { IsSoundVolume (S.before step.now) }
    requires after { IsSoundVolume (S.after step.now) }
    ensures { OnOk result (changes.new.items ≡ changes.old.items ++ differences (map (λ key. records.icon_tag ∷ key) keys.now) (kept_image (S.before step.now)) (kept_image (S.after step.now))) }
{
    for i in 0..keys.len() {
        change_icon(alloc, step, &keys[i], changes)?;
    }
    Ok(())
}

/// The change of the record of a mapping.
fn change_appl<S: Transition>(
    alloc: Global,
    step: &S,
    mapping: &Mapping,
    changes: &mut Vec<Change>,
) -> Result<(), OutOfMemory>
    requires before { IsSoundVolume (S.before step.now) }
    requires after { IsSoundVolume (S.after step.now) }
    ensures { OnOk result (changes.new.items ≡ changes.old.items ++ differences (records.appl_record_key mapping.now.creator mapping.now.node ∷ []) (kept_image (S.before step.now)) (kept_image (S.after step.now))) }
{
    records_are_found();
    four_bytes(&mapping.creator);
    let old = appl_value(alloc, step.appl_before(&mapping.creator, mapping.node))?;
    let new = appl_value(alloc, step.appl_after(&mapping.creator, mapping.node))?;
    let key = appl_key(alloc, &mapping.creator, mapping.node)?;
    note(changes, key, old, new)
}

/// The changes of the records of these mappings, in their order.
pub(crate) fn change_appls<S: Transition>(
    alloc: Global,
    step: &S,
    mappings: &[Mapping],
    changes: &mut Vec<Change>,
) -> Result<(), OutOfMemory>
    requires before { IsSoundVolume (S.before step.now) }
    requires after { IsSoundVolume (S.after step.now) }
    ensures { OnOk result (changes.new.items ≡ changes.old.items ++ differences (map (λ (m : Appl). records.appl_record_key m.creator m.node) mappings.now) (kept_image (S.before step.now)) (kept_image (S.after step.now))) }
{
    for i in 0..mappings.len() {
        change_appl(alloc, step, &mappings[i], changes)?;
    }
    Ok(())
}
