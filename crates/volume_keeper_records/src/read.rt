//! The row of a record.
ghost use Rattle.std.specs.Prelude.{◌≡◌, ◌≤◌, length, take, drop, slice_index, IfOk, Some, None, ◌==◌, if◌then◌else◌};
ghost use Rattle.volume_keeper_records.specs.Records.{old_version};
ghost use Rattle.volume_keeper_records.specs.Shape.{head_in, node_in, block_in, comment_in, icon_in, appl_in, privileges_at, guess, are_same, row_in};

use crate::limits::{BLOCK, COMMENT, HEAD, ICON, NODE, OLD_VERSION};
use crate::numbers::{byte_at, date_at, four_at, long_at, quad_at, word_at};
use crate::rows::{Appl, Comment, ForkBlock, Head, Icon, Node, Privileges, TableRow};
use crate::shape::is_formed;
use crate::write::record_of;
use afp_base::{Bytes, OutOfMemory, rest_of};
use record_keeper::Record;
use std::alloc::Global;

/// Where a node's value has the Finder info, and where that ends.
const FINDER: usize = 19;

const BEHIND: usize = 51;

fn head_of(value: &[u8]) -> Head
    ensures { result ≡ head_in value.now }
{
    Head {
        version: word_at(value, 0),
        created: date_at(value, 2),
        modified: date_at(value, 6),
        backup: date_at(value, 10),
        next_id: quad_at(value, 14),
    }
}

fn finder_of(value: &[u8]) -> [u8; 32]
    requires { 51 ≤ length value.now }
    ensures { result ≡ take 32 (drop 19 value.now) }
{
    let mut finder = [0; 32];
    finder.copy_from_slice(&value[FINDER..BEHIND]);
    finder
}

/// The owner, group and rights that stand behind the lengths of a node's forks.
fn privileges_of(behind: &[u8]) -> Privileges
    ensures { result ≡ privileges_at behind.now 17 }
{
    Privileges {
        owner: long_at(behind, 17),
        group: long_at(behind, 21),
        rights: [
            byte_at(behind, 25),
            byte_at(behind, 26),
            byte_at(behind, 27),
        ],
    }
}

/// The same, where the version has them.
fn said_privileges(version: u16, behind: &[u8]) -> Option<Privileges>
    ensures { result ≡ (if version == old_version then None else Some (privileges_at behind.now 17)) }
{
    if version == OLD_VERSION {
        None
    } else {
        Some(privileges_of(behind))
    }
}

/// Where the name stands behind the Finder info.
fn name_place(version: u16) -> usize
    ensures { result ≡ (if version == old_version then 17 else 28) }
{
    if version == OLD_VERSION { 17 } else { 28 }
}

fn node_of(alloc: Global, version: u16, key: &[u8], value: &[u8]) -> Result<Node, OutOfMemory>
    requires { 51 ≤ length value.now }
    ensures { IfOk result (λ n. n ≡ node_in version key.now value.now (take 32 (drop 19 value.now)) (drop 51 value.now)) }
{
    let behind = rest_of(value, BEHIND);
    let name = Bytes::of(alloc, rest_of(behind, name_place(version)))?;
    let privileges = said_privileges(version, behind);
    let finder = finder_of(value);
    Ok(Node {
        id: long_at(key, 1),
        is_directory: byte_at(value, 0) == 1,
        parent: long_at(value, 1),
        attributes: word_at(value, 5),
        created: date_at(value, 7),
        modified: date_at(value, 11),
        backup: date_at(value, 15),
        finder,
        is_filed: byte_at(behind, 0) == 1,
        data_length: quad_at(behind, 1),
        resource_length: quad_at(behind, 9),
        privileges,
        name,
    })
}

fn block_of(alloc: Global, key: &[u8], value: &[u8]) -> Result<ForkBlock, OutOfMemory>
    ensures { IfOk result (λ b. b ≡ block_in key.now value.now) }
{
    Ok(ForkBlock {
        node: long_at(key, 1),
        is_resource: byte_at(key, 5) == 1,
        index: long_at(key, 6),
        bytes: Bytes::of(alloc, value)?,
    })
}

fn comment_of(alloc: Global, key: &[u8], value: &[u8]) -> Result<Comment, OutOfMemory>
    ensures { IfOk result (λ c. c ≡ comment_in key.now value.now) }
{
    Ok(Comment {
        node: long_at(key, 1),
        text: Bytes::of(alloc, value)?,
    })
}

fn icon_of(alloc: Global, key: &[u8], value: &[u8]) -> Result<Icon, OutOfMemory>
    ensures { IfOk result (λ i. i ≡ icon_in key.now value.now) }
{
    Ok(Icon {
        creator: four_at(key, 1),
        kind: four_at(key, 5),
        icon_kind: byte_at(key, 9),
        tag: long_at(value, 0),
        bits: Bytes::of(alloc, rest_of(value, 4))?,
    })
}

fn appl_of(key: &[u8], value: &[u8]) -> Appl
    ensures { result ≡ appl_in key.now value.now }
{
    Appl {
        creator: four_at(key, 1),
        node: long_at(key, 5),
        tag: long_at(value, 0),
    }
}

/// The only row whose record this can be.
fn guess_row(alloc: Global, version: u16, kept: &Record) -> Result<TableRow, OutOfMemory>
    requires { slice_index kept.now.key 0 ≡ 1 → 51 ≤ length kept.now.value }
    ensures { IfOk result (λ row. row ≡ guess version kept.now) }
{
    let key = kept.key.as_slice();
    let value = kept.value.as_slice();
    let tag = byte_at(key, 0);
    if tag == HEAD {
        Ok(TableRow::Head(head_of(value)))
    } else if tag == NODE {
        Ok(TableRow::Node(node_of(alloc, version, key, value)?))
    } else if tag == BLOCK {
        Ok(TableRow::Block(block_of(alloc, key, value)?))
    } else if tag == COMMENT {
        Ok(TableRow::Comment(comment_of(alloc, key, value)?))
    } else if tag == ICON {
        Ok(TableRow::Icon(icon_of(alloc, key, value)?))
    } else {
        Ok(TableRow::Appl(appl_of(key, value)))
    }
}

fn are_alike(a: &Record, b: &Record) -> bool
    ensures { result ≡ are_same a.now b.now }
{
    a.key.as_slice() == b.key.as_slice() && a.value.as_slice() == b.value.as_slice()
}

/// The row of a volume of that name whose record this is, or none: the row that is written again just so. The one error is want of memory.
#[tactic(auto, unfolding(crate::specs::Shape::row_in))]
pub fn read_row(
    alloc: Global,
    version: u16,
    name: &[u8],
    kept: &Record,
) -> Result<Option<TableRow>, OutOfMemory>
    ensures { IfOk result (λ row. row ≡ row_in (record { version = version; name = name.now }) kept.now) }
{
    if byte_at(kept.key.as_slice(), 0) == NODE && kept.value.as_slice().len() < BEHIND {
        return Ok(None);
    }
    let row = guess_row(alloc, version, kept)?;
    let written = record_of(alloc, &row)?;
    if is_formed(alloc, version, name, &row)? && are_alike(&written, kept) {
        Ok(Some(row))
    } else {
        Ok(None)
    }
}
