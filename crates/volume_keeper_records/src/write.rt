//! The record of a row.
ghost use Rattle.std.specs.Prelude.{◌≡◌, ◌∷◌, ◌++◌, [], false, nat_eq, length, take, MatchOption, IfOk, OnOk};
ghost use Rattle.std.specs.Cmp.Lexicographic.{pointwise};
ghost use Rattle.volume_keeper_records.specs.Records.{head_record as the_head, node_record as the_node, block_record as the_block, comment_record as the_comment, icon_record as the_icon, appl_record as the_appl, head_key as the_head_key, node_key as the_node_key, block_key as the_block_key, comment_record_key as the_comment_key, appl_record_key as the_appl_key, record_of as the_record, icon_tag, flag_byte, privilege_bytes, word_bytes, long_bytes, quad_bytes, date_bytes};

use crate::limits::{APPL, BLOCK, COMMENT, HEAD, ICON, NODE};
use crate::rows::{Appl, Comment, ForkBlock, Head, Icon, Node, Privileges, TableRow};
use afp_base::{Bytes, OutOfMemory};
use record_keeper::{Record, RecordKey};
use std::alloc::Global;

/// How many bytes a node's value has at most before its name.
const BEFORE_NAME: usize = 79;

/// How many bytes a tag has.
pub const TAG_SIZE: usize = 4;

/// This byte, with room for so many in all.
fn begun(alloc: Global, first: u8, size: usize) -> Result<Bytes, OutOfMemory>
    ensures { IfOk result (λ bytes. bytes ≡ first ∷ []) }
{
    let mut bytes = Bytes::with_room(alloc, size)?;
    bytes.extend(&[first])?;
    Ok(bytes)
}

fn flag(set: bool) -> u8
    ensures { result ≡ flag_byte set }
{
    if set { 1 } else { 0 }
}

/// A byte, and a number of four bytes.
fn numbered(first: u8, number: u32) -> [u8; 5]
    ensures { result ≡ first ∷ long_bytes number }
{
    let n = number.to_be_bytes();
    [first, n[0], n[1], n[2], n[3]]
}

/// The bytes of a block's key.
fn block_place(node: u32, is_resource: bool, index: u32) -> [u8; 10]
    ensures { result ≡ the_block_key node is_resource index }
{
    let n = node.to_be_bytes();
    let i = index.to_be_bytes();
    let fork = flag(is_resource);
    [BLOCK, n[0], n[1], n[2], n[3], fork, i[0], i[1], i[2], i[3]]
}

/// The key of a node's record.
pub fn node_key(alloc: Global, id: u32) -> Result<RecordKey, OutOfMemory>
    ensures { IfOk result (λ key. key ≡ the_node_key id) }
{
    let key = Bytes::of(alloc, &numbered(NODE, id))?;
    Ok(RecordKey::new(key))
}

/// The key of the record of a block of a node's fork, by its index in blocks.
pub fn block_key(
    alloc: Global,
    node: u32,
    is_resource: bool,
    index: u32,
) -> Result<RecordKey, OutOfMemory>
    ensures { IfOk result (λ key. key ≡ the_block_key node is_resource index) }
{
    let key = Bytes::of(alloc, &block_place(node, is_resource, index))?;
    Ok(RecordKey::new(key))
}

/// The key of the record of a node's comment.
pub fn comment_key(alloc: Global, node: u32) -> Result<RecordKey, OutOfMemory>
    ensures { IfOk result (λ key. key ≡ the_comment_key node) }
{
    let key = Bytes::of(alloc, &numbered(COMMENT, node))?;
    Ok(RecordKey::new(key))
}

/// The key of the record of an icon, by its creator, type and icon type.
pub fn icon_key(alloc: Global, key: &[u8; 9]) -> Result<RecordKey, OutOfMemory>
    ensures { IfOk result (λ k. k ≡ icon_tag ∷ key.now) }
{
    let mut bytes = begun(alloc, ICON, 10)?;
    bytes.extend(key.as_slice())?;
    Ok(RecordKey::new(bytes))
}

/// The key of the record of the APPL mapping of a creator and a file.
pub fn appl_key(alloc: Global, creator: &[u8; 4], node: u32) -> Result<RecordKey, OutOfMemory>
    ensures { IfOk result (λ key. key ≡ the_appl_key creator.now node) }
{
    let mut key = begun(alloc, APPL, 9)?;
    key.extend(creator.as_slice())?;
    key.push_u32(node)?;
    Ok(RecordKey::new(key))
}

/// The key of the head's record.
pub fn head_key(alloc: Global) -> Result<RecordKey, OutOfMemory>
    ensures { IfOk result (λ key. key ≡ the_head_key) }
{
    let key = Bytes::of(alloc, &[HEAD])?;
    Ok(RecordKey::new(key))
}

/// The value of the record of a volume's head. It takes no memory.
#[tactic(auto, unfolding(crate::specs::Records::head_record))]
pub fn head_bytes(head: &Head) -> [u8; 22]
    ensures { result ≡ (the_head head.now).value }
{
    let v = head.version.to_be_bytes();
    let c = head.created.to_be_bytes();
    let m = head.modified.to_be_bytes();
    let b = head.backup.to_be_bytes();
    let n = head.next_id.to_be_bytes();
    [
        v[0], v[1], c[0], c[1], c[2], c[3], m[0], m[1], m[2], m[3], b[0], b[1], b[2], b[3], n[0],
        n[1], n[2], n[3], n[4], n[5], n[6], n[7],
    ]
}

/// The record of a volume's head.
#[tactic(auto, unfolding(crate::specs::Records::head_record))]
pub fn head_record(alloc: Global, head: &Head) -> Result<Record, OutOfMemory>
    ensures { IfOk result (λ r. r ≡ the_head head.now) }
{
    let key = head_key(alloc)?;
    let value = Bytes::of(alloc, &head_bytes(head))?;
    Ok(Record { key, value })
}

/// What stands before the Finder info.
fn front_of(node: &Node) -> [u8; 19]
    ensures { result ≡ flag_byte node.now.is_directory ∷ (long_bytes node.now.parent ++ (word_bytes node.now.attributes ++ (date_bytes node.now.created ++ (date_bytes node.now.modified ++ date_bytes node.now.backup)))) }
{
    let kind = flag(node.is_directory);
    let p = node.parent.to_be_bytes();
    let a = node.attributes.to_be_bytes();
    let c = node.created.to_be_bytes();
    let m = node.modified.to_be_bytes();
    let b = node.backup.to_be_bytes();
    [
        kind, p[0], p[1], p[2], p[3], a[0], a[1], c[0], c[1], c[2], c[3], m[0], m[1], m[2], m[3],
        b[0], b[1], b[2], b[3],
    ]
}

/// What stands behind it, before owner, group and rights.
fn forks_of(node: &Node) -> [u8; 17]
    ensures { result ≡ flag_byte node.now.is_filed ∷ (quad_bytes node.now.data_length ++ quad_bytes node.now.resource_length) }
{
    let filed = flag(node.is_filed);
    let d = node.data_length.to_be_bytes();
    let r = node.resource_length.to_be_bytes();
    [
        filed, d[0], d[1], d[2], d[3], d[4], d[5], d[6], d[7], r[0], r[1], r[2], r[3], r[4], r[5],
        r[6], r[7],
    ]
}

/// Owner, group and rights.
fn rights_of(privileges: &Privileges) -> [u8; 11]
    ensures { result ≡ long_bytes privileges.now.owner ++ (long_bytes privileges.now.group ++ (privileges.now.everyone_rights ∷ privileges.now.group_rights ∷ privileges.now.owner_rights ∷ [])) }
{
    let o = privileges.owner.to_be_bytes();
    let g = privileges.group.to_be_bytes();
    let r = &privileges.rights;
    [
        o[0], o[1], o[2], o[3], g[0], g[1], g[2], g[3], r[0], r[1], r[2],
    ]
}

/// Owner, group and rights, where they are there.
fn push_privileges(bytes: &mut Bytes, privileges: &Option<Privileges>) -> Result<(), OutOfMemory>
    ensures { OnOk result (bytes.new ≡ bytes.old ++ privilege_bytes privileges.now) }
{
    match privileges {
        None => Ok(()),
        Some(privileges) => {
            bytes.extend(&rights_of(privileges))?;
            Ok(())
        }
    }
}

/// What stands behind owner, group and rights in bytes that begin with them, where they are there.
fn behind_privileges<'a>(privileges: &Option<Privileges>, bytes: &'a [u8]) -> Option<&'a [u8]>
    ensures { MatchOption result (pointwise nat_eq (take (length (privilege_bytes privileges.now)) bytes.now) (privilege_bytes privileges.now) ≡ false) (λ rest. bytes.now ≡ privilege_bytes privileges.now ++ rest.now) }
{
    match privileges {
        None => Some(bytes),
        Some(privileges) => bytes.strip_prefix(&rights_of(privileges)),
    }
}

/// The value of the record of a node, with this name in place of its own.
#[tactic(auto, unfolding(crate::specs::Records::node_record))]
pub fn node_value(alloc: Global, node: &Node, name: &[u8]) -> Result<Bytes, OutOfMemory>
    ensures { IfOk result (λ value. value ≡ (the_node (record node.now { name = name.now })).value) }
{
    let mut value = Bytes::with_room(alloc, BEFORE_NAME.saturating_add(name.len()))?;
    value.extend(&front_of(node))?;
    value.extend(&node.finder)?;
    value.extend(&forks_of(node))?;
    push_privileges(&mut value, &node.privileges)?;
    value.extend(name)?;
    Ok(value)
}

/// Whether the value of the record of a node, with this name in place of its own, is these bytes. It takes no memory.
#[tactic(auto, unfolding(crate::specs::Records::node_record))]
pub fn is_node_value(node: &Node, name: &[u8], bytes: &[u8]) -> bool
    ensures { result ≡ pointwise nat_eq (the_node (record node.now { name = name.now })).value bytes.now }
{
    let Some(rest) = bytes.strip_prefix(&front_of(node)) else {
        return false;
    };
    let Some(rest) = rest.strip_prefix(&node.finder) else {
        return false;
    };
    let Some(rest) = rest.strip_prefix(&forks_of(node)) else {
        return false;
    };
    let Some(rest) = behind_privileges(&node.privileges, rest) else {
        return false;
    };
    name == rest
}

/// The record of a node.
#[tactic(auto, unfolding(crate::specs::Records::node_record))]
pub fn node_record(alloc: Global, node: &Node) -> Result<Record, OutOfMemory>
    ensures { IfOk result (λ r. r ≡ the_node node.now) }
{
    let key = node_key(alloc, node.id)?;
    let value = node_value(alloc, node, node.name.as_slice())?;
    Ok(Record { key, value })
}

/// The record of a block of a fork.
#[tactic(auto, unfolding(crate::specs::Records::block_record))]
pub fn block_record(alloc: Global, block: &ForkBlock) -> Result<Record, OutOfMemory>
    ensures { IfOk result (λ r. r ≡ the_block block.now) }
{
    let key = block_key(alloc, block.node, block.is_resource, block.index)?;
    let value = block.bytes.copy()?;
    Ok(Record { key, value })
}

/// The record of a comment.
#[tactic(auto, unfolding(crate::specs::Records::comment_record))]
pub fn comment_record(alloc: Global, comment: &Comment) -> Result<Record, OutOfMemory>
    ensures { IfOk result (λ r. r ≡ the_comment comment.now) }
{
    let key = comment_key(alloc, comment.node)?;
    let value = comment.text.copy()?;
    Ok(Record { key, value })
}

/// The record of an icon.
#[tactic(auto, unfolding(crate::specs::Records::icon_record))]
pub fn icon_record(alloc: Global, icon: &Icon) -> Result<Record, OutOfMemory>
    ensures { IfOk result (λ r. r ≡ the_icon icon.now) }
{
    let mut key = begun(alloc, ICON, 10)?;
    key.extend(icon.creator.as_slice())?;
    key.extend(icon.kind.as_slice())?;
    key.push_u8(icon.icon_kind)?;
    let bits = icon.bits.as_slice();
    let mut value = Bytes::with_room(alloc, TAG_SIZE.saturating_add(bits.len()))?;
    value.push_u32(icon.tag)?;
    value.extend(bits)?;
    let key = RecordKey::new(key);
    Ok(Record { key, value })
}

/// The record of an APPL mapping.
#[tactic(auto, unfolding(crate::specs::Records::appl_record))]
pub fn appl_record(alloc: Global, appl: &Appl) -> Result<Record, OutOfMemory>
    ensures { IfOk result (λ r. r ≡ the_appl appl.now) }
{
    let key = appl_key(alloc, &appl.creator, appl.node)?;
    let mut value = Bytes::with_room(alloc, TAG_SIZE)?;
    value.push_u32(appl.tag)?;
    Ok(Record { key, value })
}

/// The record that says a row. The one error is want of memory.
pub fn record_of(alloc: Global, row: &TableRow) -> Result<Record, OutOfMemory>
    ensures { IfOk result (λ r. r ≡ the_record row.now) }
{
    match row {
        TableRow::Head(head) => head_record(alloc, head),
        TableRow::Node(node) => node_record(alloc, node),
        TableRow::Block(block) => block_record(alloc, block),
        TableRow::Comment(comment) => comment_record(alloc, comment),
        TableRow::Icon(icon) => icon_record(alloc, icon),
        TableRow::Appl(appl) => appl_record(alloc, appl),
    }
}
