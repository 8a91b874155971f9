//! A volume that nobody has used, and its records.
ghost use Rattle.std.specs.Prelude.{◌≡◌, ◌++◌, ◌∷◌, [], None, map, IfOk, OnOk, true, List, ℕ};
ghost use Rattle.afp_names.specs.Name.{name_fault};
ghost use Rattle.volume_spec.specs.VolumeState.{fresh_volume, guest, new_row, root_id, root_parent};
ghost use Rattle.record_keeper.specs.declared.record.Change.TheVariants.{Put};
ghost use Rattle.volume_keeper_records.specs.Image.{node_of, rows_of, tables_of};
ghost use Rattle.volume_keeper_records.specs.Migration.{put_of as the_put};
ghost use Rattle.volume_keeper_records.specs.Records.{version};
ghost use Rattle.volume_keeper.specs.loading.lemma.Loading.{IsMadeOf};

use crate::loading::made::Made;
use afp_base::{Bytes, Moment, OutOfMemory};
use desktop_db::Desktop;
use record_keeper::{Change, Record};
use std::alloc::Global;
use volume_edits::WholeVolume;
use volume_keeper_records::{Head, Node, VERSION, guest_privileges, head_record, node_record};
use volume_spec::laws::{fresh_volumes_are_sound, numbers_stay_in_their_ranges};
use volume_spec::limits::{FIRST_ID, NEVER, ROOT_ID, ROOT_PARENT_ID};
use volume_tree::Volume;

/// The head of a volume that is made at a moment.
fn head_of(now: Moment) -> Head
    ensures { (name : List ℕ) → result ≡ (tables_of version (fresh_volume name now)).head }
{
    let date = now.seconds() as i32;
    Head {
        version: VERSION,
        created: date,
        modified: date,
        backup: NEVER,
        next_id: FIRST_ID as u64,
    }
}

/// The root of a volume that is made at a moment: the guest owns it, and all have all rights.
fn root_of(alloc: Global, name: &str, now: Moment) -> Result<Node, OutOfMemory>
    ensures { IfOk result (λ root. root ≡ node_of version (new_row true guest root_id root_parent name.now now)) }
{
    let date = now.seconds() as i32;
    Ok(Node {
        id: ROOT_ID,
        is_directory: true,
        parent: ROOT_PARENT_ID,
        attributes: 0,
        created: date,
        modified: date,
        backup: NEVER,
        finder: [0; 32],
        is_filed: false,
        data_length: 0,
        resource_length: 0,
        privileges: Some(guest_privileges(true)),
        name: Bytes::of(alloc, name.as_bytes())?,
    })
}

/// Puts a record.
fn put(changes: &mut Vec<Change>, kept: Record) -> Result<(), OutOfMemory>
    ensures { OnOk result (changes.new.items ≡ changes.old.items ++ Put kept.key kept.value ∷ []) }
{
    let Record { key, value } = kept;
    changes.push(Change::Put { key, value })?;
    Ok(())
}

/// The records of a volume that is made at a moment, to be put.
fn fresh_changes(alloc: Global, name: &str, now: Moment) -> Result<Vec<Change>, OutOfMemory>
    ensures { IfOk result (λ changes. changes.items ≡ map the_put (rows_of (tables_of version (fresh_volume name.now now)))) }
{
    let mut changes = Vec::new(alloc);
    let head = head_of(now);
    put(&mut changes, head_record(alloc, &head)?)?;
    let root = root_of(alloc, name, now)?;
    put(&mut changes, node_record(alloc, &root)?)?;
    Ok(changes)
}

/// A volume that is made at a moment, with an empty desktop database.
fn fresh_whole(alloc: Global, name: &str, now: Moment) -> Result<WholeVolume, OutOfMemory>
    requires { name_fault name.now ≡ None }
    ensures { IfOk result (λ whole. whole.state ≡ fresh_volume name.now now) }
{
    fresh_volumes_are_sound();
    numbers_stay_in_their_ranges();
    let _ = now.seconds();
    let tree = Volume::fresh(alloc, name, now)?;
    Ok(WholeVolume {
        tree,
        desktop: Desktop::new(alloc),
    })
}

/// A volume that is made at a moment where nothing is kept: all its records are put.
pub(crate) fn fresh_made(alloc: Global, name: &str, now: Moment) -> Result<Made, OutOfMemory>
    requires { name_fault name.now ≡ None }
    ensures { IfOk result (λ made. IsMadeOf name.now now [] made.changes.items made.whole.state) }
{
    fresh_volumes_are_sound();
    let changes = fresh_changes(alloc, name, now)?;
    let whole = fresh_whole(alloc, name, now)?;
    Ok(Made { whole, changes })
}
