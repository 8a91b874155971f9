//! A volume with many nodes in its root.
ghost use Rattle.std.specs.Prelude.{◌≡◌, IfOk, IfSome};
ghost use Rattle.afp_names.specs.Name.{name_key};

use afp_base::{Bytes, NodeId, OutOfMemory};
use afp_names::Name;
use node_rows::{Node, Rows};
use std::alloc::Global;
use volume_spec::laws::tables_tell_the_tree;
use volume_spec::limits::{ALL_RIGHTS, GUEST, ONLY_GROUP};

/// The root directory.
pub const ROOT: NodeId = NodeId(2);

/// A directory of no attributes.
pub fn node(id: NodeId, parent: NodeId, name: Name) -> Node
    ensures id { result.id ≡ id.0 }
    ensures parent { result.parent ≡ parent.0 }
    ensures name { result.name ≡ name }
{
    Node {
        id,
        parent,
        dir: true,
        attributes: 0,
        created: 100,
        modified: 100,
        backup: -1,
        finder: [0; 32],
        filed: false,
        owner: GUEST,
        group: ONLY_GROUP,
        rights: [ALL_RIGHTS; 3],
        name,
    }
}

/// A name that has a letter and a number, and its key.
pub fn numbered(
    alloc: Global,
    letter: char,
    number: u32,
) -> Result<Option<(Name, Bytes)>, OutOfMemory>
    ensures { IfOk result (λ found. IfSome found (λ named. named.1 ≡ name_key named.0)) }
{
    let text = format!(in alloc; "{letter}{number:06}")?;
    let Ok(name) = Name::new(alloc, text.as_bytes()) else {
        return Ok(None);
    };
    let key = name.key(alloc)?;
    Ok(Some((name, key)))
}

/// Adds a node to the root, with a name that has a letter and a number. It tells whether that was free.
pub fn add(alloc: Global, rows: &mut Rows, letter: char, number: u32) -> Result<bool, OutOfMemory> {
    rows.reserve()?;
    let Some(id) = rows.next_id() else {
        return Ok(false);
    };
    match numbered(alloc, letter, number)? {
        Some((name, key)) => {
            if rows.child(ROOT, key.as_slice()).is_some() {
                return Ok(false);
            }
            rows.insert(node(id, ROOT, name), key);
            Ok(true)
        }
        None => Ok(false),
    }
}

/// Gives a node of the root such a name. It tells whether that was free.
pub fn rename(
    alloc: Global,
    rows: &mut Rows,
    id: NodeId,
    letter: char,
    number: u32,
) -> Result<bool, OutOfMemory> {
    tables_tell_the_tree();
    let Some((name, key)) = numbered(alloc, letter, number)? else {
        return Ok(false);
    };
    let _nodes = rows.nodes();
    if rows.child(ROOT, key.as_slice()).is_some() {
        return Ok(false);
    }
    rows.place(id, ROOT, name, key);
    Ok(true)
}

/// A volume with so many nodes, the root among them, named by rising numbers.
pub fn volume(alloc: Global, count: u32) -> Result<Rows, OutOfMemory> {
    let Ok(name) = Name::new(alloc, b"Share") else {
        return Err(OutOfMemory);
    };
    let mut rows = Rows::new(alloc, node(ROOT, NodeId(1), name), 17)?;
    for number in 1..count {
        let _ = add(alloc, &mut rows, 'n', number)?;
    }
    Ok(rows)
}
