//! Changes that are gathered key by key.
ghost use Rattle.std.specs.Prelude.{◌≡◌, ◌++◌, ◌∷◌, [], OnOk, IfOk, map, option_map, if◌then◌else◌};
ghost use Rattle.fork_bytes.specs.Kept.{is_empty};
ghost use Rattle.record_keeper.specs.declared.record.Change.TheVariants.{Put, Remove};
ghost use Rattle.volume_keeper_records.specs.Records as records;
ghost use Rattle.volume_changes.specs.records.Differences.{turned};
ghost use Rattle.volume_changes.specs.records.Values.{block_change};

use afp_base::{Bytes, OutOfMemory};
use fork_bytes::Block;
use record_keeper::{Change, RecordKey};
use std::alloc::Global;
use volume_keeper_records::{TAG_SIZE, block_key};

/// Adds a change.
pub(crate) fn push(changes: &mut Vec<Change>, change: Change) -> Result<(), OutOfMemory>
    ensures { OnOk result (changes.new.items ≡ changes.old.items ++ change ∷ []) }
{
    changes.push(change)?;
    Ok(())
}

/// Adds the change of a key, where its value is another one.
pub(crate) fn note(
    changes: &mut Vec<Change>,
    key: RecordKey,
    old: Option<Bytes>,
    new: Option<Bytes>,
) -> Result<(), OutOfMemory>
    ensures { OnOk result (changes.new.items ≡ changes.old.items ++ turned key old new) }
{
    match (old, new) {
        (None, None) => Ok(()),
        (None, Some(value)) => push(changes, Change::Put { key, value }),
        (Some(_), None) => push(changes, Change::Remove { key }),
        (Some(old), Some(value)) => {
            if old.as_slice() == value.as_slice() {
                return Ok(());
            }
            push(changes, Change::Put { key, value })
        }
    }
}

/// What the record of an APPL mapping has.
pub(crate) fn appl_value(alloc: Global, tag: Option<u32>) -> Result<Option<Bytes>, OutOfMemory>
    ensures { IfOk result (λ value. value ≡ option_map records.long_bytes tag) }
{
    match tag {
        Some(tag) => {
            let mut value = Bytes::with_room(alloc, TAG_SIZE)?;
            value.push_u32(tag)?;
            Ok(Some(value))
        }
        None => Ok(None),
    }
}

/// The key has these bytes from now on, or nothing where there are none.
fn change_of(key: RecordKey, value: Bytes) -> Change
    ensures { result ≡ (if is_empty value then Remove key else Put key value) }
{
    if value.as_slice().is_empty() {
        return Change::Remove { key };
    }
    Change::Put { key, value }
}

/// Adds the change to a block as it is afterwards.
fn change_block(
    alloc: Global,
    id: u32,
    resource: bool,
    block: Block,
    changes: &mut Vec<Change>,
) -> Result<(), OutOfMemory>
    ensures { OnOk result (changes.new.items ≡ changes.old.items ++ block_change id resource block ∷ []) }
{
    let key = block_key(alloc, id, resource, block.index)?;
    push(changes, change_of(key, block.bytes))
}

/// Adds the changes to blocks as they are afterwards.
pub(crate) fn change_blocks(
    alloc: Global,
    id: u32,
    resource: bool,
    blocks: Vec<Block>,
    changes: &mut Vec<Change>,
) -> Result<(), OutOfMemory>
    ensures { OnOk result (changes.new.items ≡ changes.old.items ++ map (block_change id resource) blocks.items) }
{
    for block in blocks {
        change_block(alloc, id, resource, block, changes)?;
    }
    Ok(())
}
