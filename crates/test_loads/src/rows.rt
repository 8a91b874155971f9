//! The rows that lines tell.
use crate::line::{Kind, Line};
use afp_base::{Bytes, OutOfMemory};
use std::alloc::Global;
use test_lines::lines::owned;
use volume_keeper_records::{
    Appl, Comment, ForkBlock, Head, Icon, Node, Privileges, TableRow, VERSION, guest_privileges,
};

/// The older version, whose nodes have no owner, group and rights.
const OLD_VERSION: u16 = 1;

/// A head of zeros of a version, with this next id.
fn head(version: u16, next_id: u32) -> TableRow {
    TableRow::Head(Head {
        version,
        created: 0,
        modified: 0,
        backup: 0,
        next_id: u64::from(next_id),
    })
}

/// A directory, or a file with so many bytes in its data fork; a directory is the guest's, and all else of it is zeros.
pub fn node(
    alloc: Global,
    id: u32,
    parent: u32,
    length: Option<u32>,
    name: &str,
) -> Result<TableRow, OutOfMemory> {
    let privileges = Some(guest_privileges(length.is_none()));
    node_with(alloc, id, parent, length, privileges, name)
}

/// The same with this owner, this group and these rights; none, as the older version has it.
fn node_with(
    alloc: Global,
    id: u32,
    parent: u32,
    length: Option<u32>,
    privileges: Option<Privileges>,
    name: &str,
) -> Result<TableRow, OutOfMemory> {
    let data_length = match length {
        Some(length) => u64::from(length),
        None => 0,
    };
    Ok(TableRow::Node(Node {
        id,
        is_directory: length.is_none(),
        parent,
        attributes: 0,
        created: 0,
        modified: 0,
        backup: 0,
        finder: [0; 32],
        is_filed: false,
        data_length,
        resource_length: 0,
        privileges,
        name: Bytes::of(alloc, name.as_bytes())?,
    }))
}

/// Four bytes of a word from a place on; zeros behind its end.
pub fn code_at(word: &str, place: usize) -> [u8; 4] {
    let bytes = word.as_bytes();
    let mut code = [0; 4];
    for i in 0..4 {
        let at = place.saturating_add(i);
        if at < bytes.len() {
            code[i] = bytes[at];
        }
    }
    code
}

/// The icon that a line tells, with this tag and these bits. The line's second word has the creator and the type; its first number is the
/// icon type.
fn icon(line: &Line<'_>, tag: u32, bits: Bytes) -> TableRow {
    TableRow::Icon(Icon {
        creator: code_at(line.second, 0),
        kind: code_at(line.second, 4),
        icon_kind: line.numbers[1].to_be_bytes()[3],
        tag,
        bits,
    })
}

/// The icon of a number among many: its type is the number, and all else of it is zeros.
pub fn icon_of(alloc: Global, number: u32) -> TableRow {
    TableRow::Icon(Icon {
        creator: [0; 4],
        kind: number.to_be_bytes(),
        icon_kind: 0,
        tag: 0,
        bits: Bytes::new(alloc),
    })
}

/// The APPL mapping of a number among many, to this file: its creator is the number.
pub fn appl_of(node: u32, number: u32) -> TableRow {
    TableRow::Appl(Appl {
        creator: number.to_be_bytes(),
        node,
        tag: 0,
    })
}

/// So many bytes, each 1.
fn ones(alloc: Global, count: u32) -> Result<Bytes, OutOfMemory> {
    let mut bytes = Bytes::new(alloc);
    for _ in 0..count {
        bytes.push_u8(1)?;
    }
    Ok(bytes)
}

/// The row that a line tells.
pub fn row_of(alloc: Global, line: &Line<'_>) -> Result<TableRow, OutOfMemory> {
    let [first, second, third] = line.numbers;
    match line.kind {
        Kind::Dir => node(alloc, first, second, None, line.text),
        Kind::File => node(alloc, first, second, Some(third), line.text),
        Kind::OldDir => node_with(alloc, first, second, None, None, line.text),
        Kind::OldFile => node_with(alloc, first, second, Some(third), None, line.text),
        Kind::OldHead => Ok(head(OLD_VERSION, first)),
        Kind::Block => Ok(TableRow::Block(ForkBlock {
            node: first,
            is_resource: second == 1,
            index: third,
            bytes: owned(alloc, line.text)?,
        })),
        Kind::Comment => Ok(TableRow::Comment(Comment {
            node: first,
            text: Bytes::of(alloc, line.text.as_bytes())?,
        })),
        Kind::Icon => Ok(icon(line, third, owned(alloc, line.text)?)),
        Kind::Bits => Ok(icon(line, 0, ones(alloc, third)?)),
        Kind::Appl => Ok(TableRow::Appl(Appl {
            creator: code_at(line.text, 0),
            node: first,
            tag: second,
        })),
        _ => Ok(head(VERSION, first)),
    }
}
