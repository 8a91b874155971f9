//! Whether a row is of a volume's shape.
ghost use Rattle.std.specs.Prelude.{◌≡◌, ◌==◌, ◌&&◌, nat_le, bytes_eq, length, true, IfOk, is_none, not, bit_and, unwrap_or, if◌then◌else◌};
ghost use Rattle.afp_names.specs.Name.{name_fault};
ghost use Rattle.volume_spec.specs.TypedVolume.{are_bytes, are_typed};
ghost use Rattle.volume_spec.specs.SoundVolume.{has_fit_privileges};
ghost use Rattle.volume_spec.specs.VolumeState.{guest, new_privileges};
ghost use Rattle.fork_bytes.specs.Blocks.{trimmed};
ghost use Rattle.volume_keeper_records.specs.Shape.{is_formed_record as the_form, is_formed_head, is_formed_node, is_formed_block, is_formed_comment, is_formed_icon, is_formed_appl, is_root_or_other, has_fit_forks, is_of_version};

use crate::limits::OLD_VERSION;
use crate::rows::{Appl, Comment, ForkBlock, Head, Icon, Node, Privileges, TableRow};
use afp_base::OutOfMemory;
use afp_names::{Name, NameFault};
use fork_bytes::BLOCK_SIZE;
use std::alloc::Global;
use volume_spec::bytes_in_range;
use volume_spec::limits::{
    ALL_RIGHTS, DIRECTORY_ATTRIBUTES, FILE_ATTRIBUTES, FIRST_ID, LAST_NEXT_ID, LONGEST_COMMENT,
    LONGEST_ICON, ROOT_ID, ROOT_PARENT_ID,
};

fn is_head_formed(version: u16, head: &Head) -> bool
    ensures { result ≡ is_formed_head version head.now }
{
    let _created = head.created;
    let _modified = head.modified;
    let _backup = head.backup;
    head.version == version && FIRST_ID as u64 <= head.next_id && head.next_id <= LAST_NEXT_ID
}

/// Whether bytes are a name.
fn is_name(alloc: Global, bytes: &[u8]) -> Result<bool, OutOfMemory>
    ensures { IfOk result (λ is. is ≡ is_none (name_fault bytes.now)) }
{
    match Name::new(alloc, bytes) {
        Ok(_) => Ok(true),
        Err(fault) => match fault {
            NameFault::Memory => Err(OutOfMemory),
            NameFault::Empty => Ok(false),
            NameFault::TooLong => Ok(false),
            NameFault::HasNul => Ok(false),
            NameFault::NotUtf8 => Ok(false),
        },
    }
}

fn is_root_named(name: &[u8], node: &Node) -> bool
    ensures { result ≡ is_root_or_other name.now node.now }
{
    if node.id == ROOT_ID {
        node.is_directory && (node.parent == ROOT_PARENT_ID && node.name.as_slice() == name)
    } else {
        true
    }
}

fn are_forks_fit(node: &Node) -> bool
    ensures { result ≡ has_fit_forks node.now }
{
    let data_length = node.data_length;
    let resource_length = node.resource_length;
    if node.is_directory {
        data_length == 0 && resource_length == 0
    } else {
        true
    }
}

fn are_attributes_fit(node: &Node) -> bool
    ensures { result ≡ (if node.now.is_directory then (bit_and node.now.attributes 0x01c5 == node.now.attributes) && not node.now.is_filed else (bit_and node.now.attributes 0x01e5 == node.now.attributes)) }
{
    let attributes = node.attributes;
    if node.is_directory {
        attributes & DIRECTORY_ATTRIBUTES == attributes && !node.is_filed
    } else {
        attributes & FILE_ATTRIBUTES == attributes
    }
}

/// Whether owner, group and rights are as a node of its kind has them.
fn are_privileges_fit(node: &Node) -> bool
    ensures fit { result ≡ has_fit_privileges node.now.is_directory (unwrap_or node.now.privileges (new_privileges node.now.is_directory guest)) }
    ensures typed { are_typed (unwrap_or node.now.privileges (new_privileges node.now.is_directory guest)) ≡ true }
{
    match &node.privileges {
        None => true,
        Some(privileges) => {
            let owner = privileges.owner;
            let group = privileges.group;
            let everyone = privileges.rights[0];
            let by_group = privileges.rights[1];
            let by_owner = privileges.rights[2];
            if node.is_directory {
                everyone <= ALL_RIGHTS && (by_group <= ALL_RIGHTS && by_owner <= ALL_RIGHTS)
            } else {
                (owner == 0 && group == 0) && (everyone == 0 && (by_group == 0 && by_owner == 0))
            }
        }
    }
}

/// Whether owner, group and rights are there but in the older version.
fn are_of_version(version: u16, privileges: &Option<Privileges>) -> bool
    ensures { result ≡ is_of_version version privileges.now }
{
    if version == OLD_VERSION {
        privileges.is_none()
    } else {
        !privileges.is_none()
    }
}

fn is_node_formed(
    alloc: Global,
    version: u16,
    name: &[u8],
    node: &Node,
) -> Result<bool, OutOfMemory>
    ensures { IfOk result (λ is. is ≡ is_formed_node (record { version = version; name = name.now }) node.now) }
{
    let _id = node.id;
    let _parent = node.parent;
    let _created = node.created;
    let _modified = node.modified;
    let _backup = node.backup;
    bytes_in_range(node.finder.as_slice());
    bytes_in_range(node.name.as_slice());
    let named = is_name(alloc, node.name.as_slice())?;
    let fit = are_attributes_fit(node);
    let forks = are_forks_fit(node);
    let root = is_root_named(name, node);
    let privileges = are_privileges_fit(node);
    let of_version = are_of_version(version, &node.privileges);
    Ok(of_version && ((privileges && (named && fit)) && (forks && root)))
}

/// Whether bytes end without a zero.
fn ends_well(bytes: &[u8]) -> bool
    ensures { result ≡ (nat_le 1 (length bytes.now) && bytes_eq (trimmed bytes.now) bytes.now) }
{
    if bytes.is_empty() {
        false
    } else {
        bytes[bytes.len() - 1] != 0
    }
}

fn is_block_formed(block: &ForkBlock) -> bool
    ensures { result ≡ is_formed_block block.now }
{
    let _node = block.node;
    let _index = block.index;
    let bytes = block.bytes.as_slice();
    bytes_in_range(bytes);
    ends_well(bytes) && bytes.len() <= BLOCK_SIZE
}

fn is_comment_formed(comment: &Comment) -> bool
    ensures { result ≡ is_formed_comment comment.now }
{
    let _node = comment.node;
    let text = comment.text.as_slice();
    bytes_in_range(text);
    1 <= text.len() && text.len() <= LONGEST_COMMENT
}

/// A creator or a type has four bytes.
fn codes_are_codes(code: &[u8; 4])
    ensures size { length code.now ≡ 4 }
    ensures bytes { are_bytes code.now ≡ true }
{
    bytes_in_range(code.as_slice());
}

fn is_icon_formed(icon: &Icon) -> bool
    ensures { result ≡ is_formed_icon icon.now }
{
    let _icon_kind = icon.icon_kind;
    let _tag = icon.tag;
    let bits = icon.bits.as_slice();
    codes_are_codes(&icon.creator);
    codes_are_codes(&icon.kind);
    bytes_in_range(bits);
    bits.len() <= LONGEST_ICON
}

fn is_appl_formed(appl: &Appl) -> bool
    ensures { result ≡ is_formed_appl appl.now }
{
    let _node = appl.node;
    let _tag = appl.tag;
    codes_are_codes(&appl.creator);
    true
}

/// Whether a row is of the shape of a volume of that name. The one error is want of memory.
pub(crate) fn is_formed(
    alloc: Global,
    version: u16,
    name: &[u8],
    row: &TableRow,
) -> Result<bool, OutOfMemory>
    ensures { IfOk result (λ is. is ≡ the_form (record { version = version; name = name.now }) row.now) }
{
    match row {
        TableRow::Head(head) => Ok(is_head_formed(version, head)),
        TableRow::Node(node) => is_node_formed(alloc, version, name, node),
        TableRow::Block(block) => Ok(is_block_formed(block)),
        TableRow::Comment(comment) => Ok(is_comment_formed(comment)),
        TableRow::Icon(icon) => Ok(is_icon_formed(icon)),
        TableRow::Appl(appl) => Ok(is_appl_formed(appl)),
    }
}
