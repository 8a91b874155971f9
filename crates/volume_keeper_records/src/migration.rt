//! The rows of the older version turned into those of the one that is written, and the changes that have a keeper hold them.
ghost use Rattle.std.specs.Prelude.{◌≡◌, ◌==◌, ◌++◌, ◌∷◌, [], ℕ, IfOk, OnOk, map, flat_map};
ghost use Rattle.volume_spec.specs.VolumeState.{VolumeState, guest, new_privileges};
ghost use Rattle.record_keeper.specs.declared.record.Change.TheVariants.{Put};
ghost use Rattle.volume_keeper_records.specs.Records.{version, old_version};
ghost use Rattle.volume_keeper_records.specs.Image.{IsOld, rows_of, tables_of};
ghost use Rattle.volume_keeper_records.specs.Migration.{migration as the_migration};
ghost use Rattle.volume_keeper_records.specs.lemma.Raising.{raised, raised_node, puts_of};

use crate::limits::{OLD_VERSION, VERSION};
use crate::rows::{Head, Node, Privileges, TableRow};
use crate::write::{head_record, node_record};
use afp_base::OutOfMemory;
use record_keeper::{Change, Record};
use std::alloc::Global;
use volume_spec::limits::{ALL_RIGHTS, GUEST, ONLY_GROUP};

/// The owner, group and rights of a file or directory of which records say none: a directory is the guest's, with all rights for all.
pub fn guest_privileges(is_directory: bool) -> Privileges
    ensures { result ≡ new_privileges is_directory guest }
{
    if is_directory {
        Privileges {
            owner: GUEST,
            group: ONLY_GROUP,
            rights: [ALL_RIGHTS, ALL_RIGHTS, ALL_RIGHTS],
        }
    } else {
        Privileges {
            owner: 0,
            group: 0,
            rights: [0, 0, 0],
        }
    }
}

/// Whether the rows of a volume, by rising key, are those of the older version.
pub fn are_of_older_version(rows: &[TableRow]) -> bool
    ensures { (number : ℕ) (v : VolumeState) → rows.now ≡ rows_of (tables_of number v) → result ≡ (number == old_version) }
{
    match rows.first() {
        Some(TableRow::Head(head)) => head.version == OLD_VERSION,
        _ => false,
    }
}

fn raise_node(node: &mut Node)
    ensures { node.new ≡ raised_node node.old }
{
    if node.privileges.is_none() {
        node.privileges = Some(guest_privileges(node.is_directory));
    }
}

fn raise_head(head: &mut Head)
    ensures { head.new ≡ record head.old { version = version } }
{
    head.version = VERSION;
}

fn raise_row(row: &mut TableRow)
    ensures { row.new ≡ raised row.old }
{
    match row {
        TableRow::Head(head) => raise_head(head),
        TableRow::Node(node) => raise_node(node),
        TableRow::Block(_) => {}
        TableRow::Comment(_) => {}
        TableRow::Icon(_) => {}
        TableRow::Appl(_) => {}
    }
}

fn raise_all(rows: &mut [TableRow])
    ensures { rows.new ≡ map raised rows.old }
{
    for i in 0..rows.len() {
        raise_row(&mut rows[i]);
    }
}

/// Turns the rows of a volume in the older version into those of the version that is written: the head has its number, and each node the owner, group and
/// rights that the older version leaves unsaid.
pub fn raise_rows(rows: &mut Vec<TableRow>)
    ensures { (v : VolumeState) → rows.old.items ≡ rows_of (tables_of old_version v) → IsOld v → rows.new.items ≡ rows_of (tables_of version v) }
{
    raise_all(rows.as_mut_slice());
}

/// Puts a record.
fn put(changes: &mut Vec<Change>, kept: Record) -> Result<(), OutOfMemory>
    ensures { OnOk result (changes.new.items ≡ changes.old.items ++ Put kept.key kept.value ∷ []) }
{
    let Record { key, value } = kept;
    changes.push(Change::Put { key, value })?;
    Ok(())
}

fn put_row(alloc: Global, changes: &mut Vec<Change>, row: &TableRow) -> Result<(), OutOfMemory>
    ensures { OnOk result (changes.new.items ≡ changes.old.items ++ puts_of row.now) }
{
    match row {
        TableRow::Head(head) => put(changes, head_record(alloc, head)?),
        TableRow::Node(node) => put(changes, node_record(alloc, node)?),
        TableRow::Block(_) => Ok(()),
        TableRow::Comment(_) => Ok(()),
        TableRow::Icon(_) => Ok(()),
        TableRow::Appl(_) => Ok(()),
    }
}

fn all_puts(alloc: Global, rows: &[TableRow]) -> Result<Vec<Change>, OutOfMemory>
    ensures { IfOk result (λ changes. changes.items ≡ flat_map puts_of rows.now) }
{
    let mut changes = Vec::new(alloc);
    for row in rows {
        put_row(alloc, &mut changes, row)?;
    }
    Ok(changes)
}

/// The changes by which a keeper that holds a volume in the older version comes to hold it in the version that is written, of the rows of that version.
/// The one error is want of memory.
pub fn migration_of(alloc: Global, rows: &[TableRow]) -> Result<Vec<Change>, OutOfMemory>
    ensures { IfOk result (λ changes. (v : VolumeState) → rows.now ≡ rows_of (tables_of version v) → changes.items ≡ the_migration v) }
{
    all_puts(alloc, rows)
}
