//! One node more, or at another place. A name that is none, or is taken, changes nothing.
ghost use Rattle.std.specs.Prelude.{◌≡◌, ◌<◌, ◌≤◌, true, None, IfOk, IfSome};
ghost use Rattle.afp_names.specs.Name.{name_key};
ghost use Rattle.volume_spec.specs.Walk.{child_by_key};

use afp_base::{Bytes, NodeId, OutOfMemory};
use afp_names::Name;
use node_rows::{Node, Rows};
use std::alloc::Global;
use volume_spec::laws::tables_tell_the_tree;
use volume_spec::limits::{ALL_RIGHTS, GUEST, ONLY_GROUP};

/// A directory of no attributes.
fn node(id: NodeId, parent: NodeId, name: Name) -> Node
    ensures id { result.id ≡ id.0 }
    ensures parent { result.parent ≡ parent.0 }
    ensures name { result.name ≡ name }
{
    Node {
        id,
        parent,
        dir: true,
        attributes: 0,
        created: 100,
        modified: 100,
        backup: -1,
        finder: [0; 32],
        filed: false,
        owner: GUEST,
        group: ONLY_GROUP,
        rights: [ALL_RIGHTS; 3],
        name,
    }
}

/// A file of no attributes, or such a directory.
fn file_or_directory(id: NodeId, parent: NodeId, name: Name, is_file: bool) -> Node
    ensures id { result.id ≡ id.0 }
    ensures parent { result.parent ≡ parent.0 }
    ensures name { result.name ≡ name }
{
    let mut made = node(id, parent, name);
    if is_file {
        made.dir = false;
        made.owner = 0;
        made.group = 0;
        made.rights = [0; 3];
    }
    made
}

/// A name, where the text is one.
fn name_of(alloc: Global, text: &str) -> Option<Name> {
    match Name::new(alloc, text.as_bytes()) {
        Ok(name) => Some(name),
        Err(_) => None,
    }
}

/// The root alone, and the next id.
pub fn share(alloc: Global, next: u32) -> Result<Rows, OutOfMemory> {
    let Some(name) = name_of(alloc, "Share") else {
        return Err(OutOfMemory);
    };
    Rows::new(
        alloc,
        node(NodeId(2), NodeId(1), name),
        u64::from(next.max(17)),
    )
}

/// The name that a text is, and its key, where no child of the directory has it.
fn free_name(
    alloc: Global,
    rows: &Rows,
    dir: NodeId,
    text: &str,
) -> Result<Option<(Name, Bytes)>, OutOfMemory>
    ensures { IfOk result (λ found. IfSome found (λ named. (named.1 ≡ name_key named.0) × (child_by_key rows.now.rows dir.0 named.1 ≡ None))) }
{
    let Some(name) = name_of(alloc, text) else {
        return Ok(None);
    };
    let key = name.key(alloc)?;
    if rows.child(dir, key.as_slice()).is_some() {
        return Ok(None);
    }
    Ok(Some((name, key)))
}

/// Adds a directory with the next id.
pub fn add(
    alloc: Global,
    rows: &mut Rows,
    dir: NodeId,
    text: &str,
) -> Result<Option<NodeId>, OutOfMemory> {
    add_node(alloc, rows, dir, text, false)
}

/// Adds a file with the next id, or a directory.
pub fn add_node(
    alloc: Global,
    rows: &mut Rows,
    dir: NodeId,
    text: &str,
    is_file: bool,
) -> Result<Option<NodeId>, OutOfMemory> {
    rows.reserve()?;
    let Some(id) = rows.next_id() else {
        return Ok(None);
    };
    match free_name(alloc, rows, dir, text)? {
        Some((name, key)) => {
            rows.insert(file_or_directory(id, dir, name, is_file), key);
            Ok(Some(id))
        }
        None => Ok(None),
    }
}

/// Whether an id is below the next one, and no node's.
fn is_free(rows: &Rows, id: NodeId) -> bool
    ensures low { result ≡ true → 17 ≤ id.0 }
    ensures drawn { result ≡ true → id.0 < rows.now.next_id }
{
    let drawn = match rows.next_id() {
        Some(next) => id.0 < next.0,
        None => true,
    };
    id.0 >= 17 && drawn
}

/// Admits a node with an id that was drawn before.
pub fn admit(
    alloc: Global,
    rows: &mut Rows,
    id: NodeId,
    dir: NodeId,
    text: &str,
) -> Result<Option<NodeId>, OutOfMemory> {
    rows.reserve()?;
    if !is_free(rows, id) || rows.get(id).is_some() {
        return Ok(None);
    }
    match free_name(alloc, rows, dir, text)? {
        Some((name, key)) => {
            rows.admit(node(id, dir, name), key);
            Ok(Some(id))
        }
        None => Ok(None),
    }
}

/// Gives a node another place.
pub fn move_to(
    alloc: Global,
    rows: &mut Rows,
    id: NodeId,
    dir: NodeId,
    text: &str,
) -> Result<Option<NodeId>, OutOfMemory> {
    tables_tell_the_tree();
    let Some(name) = name_of(alloc, text) else {
        return Ok(None);
    };
    let key = name.key(alloc)?;
    let _nodes = rows.nodes();
    match rows.child(dir, key.as_slice()) {
        Some(other) => {
            if other.0 != id.0 {
                return Ok(None);
            }
        }
        None => {}
    }
    rows.place(id, dir, name, key);
    Ok(Some(id))
}
