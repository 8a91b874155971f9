//! The volume that rows of either version say.
ghost use Rattle.std.specs.Prelude.{◌≡◌, [], IfOk};
ghost use Rattle.volume_keeper_records.specs.Image.{IsOld, rows_of, tables_of};
ghost use Rattle.volume_keeper_records.specs.Migration.{migration};
ghost use Rattle.volume_keeper_records.specs.Records.{old_version, version};
ghost use Rattle.volume_edits.specs.edits.lemma.Whole.{IsWhole};
ghost use Rattle.volume_spec.specs.VolumeState.{VolumeState};
ghost use Rattle.volume_keeper.specs.loading.lemma.Loading.{AreRowsOf, IsMadeOfRows};

use crate::loading::made::Made;
use crate::loading::rebuild::whole_of;
use afp_base::OutOfMemory;
use std::alloc::Global;
use volume_keeper_records::{TableRow, are_of_older_version, migration_of, raise_rows};

/// The volume of rows of the version that is written: nothing changes.
fn made_again(alloc: Global, rows: Vec<TableRow>) -> Result<Made, OutOfMemory>
    requires { (v : VolumeState) × IsWhole v × (rows.items ≡ rows_of (tables_of version v)) }
    ensures made { IfOk result (λ made. (v : VolumeState) → IsWhole v → rows.items ≡ rows_of (tables_of version v) → made.whole.state ≡ v) }
    ensures changes { IfOk result (λ made. made.changes.items ≡ []) }
{
    let changes = Vec::new(alloc);
    let whole = whole_of(alloc, rows)?;
    Ok(Made { whole, changes })
}

/// The volume of rows of the older version, which are turned into those of the version that is written.
fn made_raised(alloc: Global, rows: Vec<TableRow>) -> Result<Made, OutOfMemory>
    requires { (v : VolumeState) × IsWhole v × IsOld v × (rows.items ≡ rows_of (tables_of old_version v)) }
    ensures made { IfOk result (λ made. (v : VolumeState) → IsWhole v → IsOld v → rows.items ≡ rows_of (tables_of old_version v) → made.whole.state ≡ v) }
    ensures changes { IfOk result (λ made. (v : VolumeState) → IsWhole v → IsOld v → rows.items ≡ rows_of (tables_of old_version v) → made.changes.items ≡ migration v) }
{
    let mut rows = rows;
    raise_rows(&mut rows);
    let changes = migration_of(alloc, rows.as_slice())?;
    let whole = whole_of(alloc, rows)?;
    Ok(Made { whole, changes })
}

/// The volume of rows of either version, and what turns its records into those of the version that is written. The one error is want of memory.
pub(crate) fn made_of(alloc: Global, rows: Vec<TableRow>) -> Result<Made, OutOfMemory>
    requires { (v : VolumeState) × AreRowsOf rows.items v }
    ensures { IfOk result (λ made. (v : VolumeState) → AreRowsOf rows.items v → IsMadeOfRows rows.items made.changes.items made.whole.state v) }
{
    if are_of_older_version(rows.as_slice()) {
        made_raised(alloc, rows)
    } else {
        made_again(alloc, rows)
    }
}
