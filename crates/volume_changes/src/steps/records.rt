//! Records of a volume from what is lent of it. The one error is want of memory.
ghost use Rattle.std.specs.Prelude.{◌≡◌, [], nat_eq, option_map, IfOk};
ghost use Rattle.std.specs.Cmp.Lexicographic.{pointwise};
ghost use Rattle.volume_changes.specs.records.ValueChange.{value_change};
ghost use Rattle.std.specs.Option.{option_copied};
ghost use Rattle.desktop_db.specs.Kept.{shown_icon};
ghost use Rattle.volume_keeper_records.specs.Image as image;
ghost use Rattle.volume_keeper_records.specs.Records.{node_record, version};
ghost use Rattle.volume_changes.specs.steps.lemma.Records as bytes;

use crate::records::ValueChange;
use afp_base::{Bytes, OutOfMemory};
use std::alloc::Global;
use volume_edits::WholeNode;
use volume_keeper_records::{Head, Node, Privileges, TAG_SIZE, VERSION, is_node_value, node_value};
use volume_tree::{NodeAfter, VolumeHead};

/// The head of a volume, of the version that is written.
pub(crate) fn head_of(head: VolumeHead) -> Head
    ensures { result ≡ record { version = version; created = head.created; modified = head.modified; backup = head.backup; next_id = head.next_id } }
{
    Head {
        version: VERSION,
        created: head.created,
        modified: head.modified,
        backup: head.backup,
        next_id: head.next_id,
    }
}

/// A node with the lengths of its forks, and with no name.
fn sized(alloc: Global, node: &NodeAfter<'_>, data_length: u64, resource_length: u64) -> Node
    ensures { result ≡ record (bytes.sized node.now data_length resource_length) { name = [] } }
{
    Node {
        id: node.id.0,
        is_directory: node.dir,
        parent: node.parent.0,
        attributes: node.marks.attributes,
        created: node.marks.created,
        modified: node.marks.modified,
        backup: node.marks.backup,
        finder: node.marks.finder,
        is_filed: node.marks.filed,
        data_length,
        resource_length,
        privileges: Some(Privileges {
            owner: node.marks.owner,
            group: node.marks.group,
            rights: node.marks.rights,
        }),
        name: Bytes::new(alloc),
    }
}

/// A node as its record has it, with the lengths of its forks, and with no name.
fn node_of(alloc: Global, node: &WholeNode<'_>) -> Node
    ensures { result ≡ record (image.node_of version node.now) { name = [] } }
{
    sized(
        alloc,
        &node.node,
        node.data_fork.len(),
        node.resource_fork.len(),
    )
}

/// The value of a node's record.
fn node_made(alloc: Global, node: &WholeNode<'_>) -> Result<Bytes, OutOfMemory>
    ensures { IfOk result (λ value. value ≡ (node_record (image.node_of version node.now)).value) }
{
    let record = node_of(alloc, node);
    node_value(alloc, &record, node.node.name.as_str().as_bytes())
}

/// Whether the value of a node's record is these bytes. It takes no memory.
fn is_node_made(alloc: Global, node: &WholeNode<'_>, bytes: &[u8]) -> bool
    ensures { result ≡ pointwise nat_eq (node_record (image.node_of version node.now)).value bytes.now }
{
    let record = node_of(alloc, node);
    is_node_value(&record, node.node.name.as_str().as_bytes(), bytes)
}

/// How the value of a node's record changes.
pub(crate) fn node_change(
    alloc: Global,
    before: Option<WholeNode<'_>>,
    after: Option<WholeNode<'_>>,
) -> Result<ValueChange, OutOfMemory>
    ensures { IfOk result (λ change. change ≡ value_change (option_map (λ r. (node_record (image.node_of version r)).value) before.entry) (option_map (λ r. (node_record (image.node_of version r)).value) after.entry)) }
{
    let Some(after) = after else {
        return match before {
            Some(_) => Ok(ValueChange::Gone),
            None => Ok(ValueChange::Same),
        };
    };
    let value = node_made(alloc, &after)?;
    match before {
        Some(before) => {
            if is_node_made(alloc, &before, value.as_slice()) {
                return Ok(ValueChange::Same);
            }
            Ok(ValueChange::Is(value))
        }
        None => Ok(ValueChange::Is(value)),
    }
}

/// A text, copied.
pub(crate) fn copied_text(alloc: Global, text: Option<&[u8]>) -> Result<Option<Bytes>, OutOfMemory>
    ensures { IfOk result (λ copy. copy ≡ option_copied text.entry) }
{
    match text {
        Some(text) => Ok(Some(Bytes::of(alloc, text)?)),
        None => Ok(None),
    }
}

/// The value of an icon's record: its tag and its bits.
fn icon_made(alloc: Global, tag: u32, bits: &[u8]) -> Result<Bytes, OutOfMemory>
    ensures { IfOk result (λ value. value ≡ bytes.icon_bytes (tag, bits.now)) }
{
    let mut value = Bytes::with_room(alloc, bits.len().saturating_add(TAG_SIZE))?;
    value.push_u32(tag)?;
    value.extend(bits)?;
    Ok(value)
}

/// The same, where the icon is there.
pub(crate) fn icon_bytes(
    alloc: Global,
    icon: Option<(u32, &[u8])>,
) -> Result<Option<Bytes>, OutOfMemory>
    ensures { IfOk result (λ value. value ≡ option_map bytes.icon_bytes (option_map shown_icon icon.entry)) }
{
    match icon {
        Some((tag, bits)) => Ok(Some(icon_made(alloc, tag, bits)?)),
        None => Ok(None),
    }
}
