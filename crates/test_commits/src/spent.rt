//! A keeper in memory whose volume has given out its last id, with records of the older version.
use afp_base::{Bytes, OutOfMemory};
use record_keeper::{Change, Keeper, MemoryKeeper, Record};
use std::alloc::Global;
use volume_keeper_records::{Head, Node, TableRow, record_of};
use volume_spec::limits::NEVER;

/// The head whose next id is past the last, as the older version has it.
const HEAD: Head = Head {
    version: 1,
    created: 100,
    modified: 100,
    backup: NEVER,
    next_id: 0x1_0000_0000,
};

/// The root, of this name, as the older version has it.
fn root(alloc: Global, name: &str) -> Result<TableRow, OutOfMemory> {
    Ok(TableRow::Node(Node {
        id: 2,
        is_directory: true,
        parent: 1,
        attributes: 0,
        created: 100,
        modified: 100,
        backup: NEVER,
        finder: [0; 32],
        is_filed: false,
        data_length: 0,
        resource_length: 0,
        privileges: None,
        name: Bytes::of(alloc, name.as_bytes())?,
    }))
}

fn put(alloc: Global, changes: &mut Vec<Change>, row: &TableRow) -> Result<(), OutOfMemory> {
    let Record { key, value } = record_of(alloc, row)?;
    changes.push(Change::Put { key, value })?;
    Ok(())
}

/// A keeper of the records of that head and of a root of this name.
pub fn spent_keeper(alloc: Global, name: &str) -> Result<MemoryKeeper, OutOfMemory> {
    let mut changes = Vec::new(alloc);
    put(alloc, &mut changes, &TableRow::Head(HEAD))?;
    put(alloc, &mut changes, &root(alloc, name)?)?;
    let mut keeper = MemoryKeeper::new(alloc, Vec::new(alloc));
    match keeper.commit(alloc, changes) {
        Ok(()) => Ok(keeper),
        Err(_) => Err(OutOfMemory),
    }
}
