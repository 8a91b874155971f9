//! Files and directories of the server, as its replies tell them.
use afp_base::{Bytes, OutOfMemory};
use afp_bitmap::{DirValues, FileValues, Values};
use afp_replies::{ListEntry, Reply};

/// A file or a directory. A directory's size is how many it holds.
#[derive(Drop)]
pub(crate) struct Entry {
    pub(crate) name: Bytes,
    pub(crate) facts: Facts,
}

/// What is told of it beside its name.
#[derive(Clone, Copy)]
pub(crate) struct Facts {
    pub(crate) is_dir: bool,
    pub(crate) size: u64,
    pub(crate) resource: u64,
    pub(crate) created: i32,
    pub(crate) modified: i32,
    pub(crate) backup: i32,
    pub(crate) finder: [u8; 32],
    pub(crate) id: u32,
    pub(crate) owner: u32,
    pub(crate) group: u32,
    pub(crate) rights: u32,
    pub(crate) attributes: u16,
}

/// What is told of a file.
fn file_facts(file: &FileValues) -> Facts {
    Facts {
        is_dir: false,
        size: file.ext_data_length,
        resource: file.ext_resource_length,
        created: file.created,
        modified: file.modified,
        backup: file.backup,
        finder: file.finder,
        id: file.id,
        owner: 0,
        group: 0,
        rights: 0,
        attributes: file.attributes,
    }
}

/// What is told of a directory.
fn dir_facts(dir: &DirValues) -> Facts {
    Facts {
        is_dir: true,
        size: u64::from(dir.offspring),
        resource: 0,
        created: dir.created,
        modified: dir.modified,
        backup: dir.backup,
        finder: dir.finder,
        id: dir.id,
        owner: dir.owner,
        group: dir.group,
        rights: dir.rights,
        attributes: dir.attributes,
    }
}

/// The entry of a file's or a directory's values.
fn entry_of(values: &Values) -> Result<Option<Entry>, OutOfMemory> {
    match values {
        Values::Volume(_) => Ok(None),
        Values::File(file) => Ok(Some(Entry {
            name: file.utf8_name.copy()?,
            facts: file_facts(file),
        })),
        Values::Dir(dir) => Ok(Some(Entry {
            name: dir.utf8_name.copy()?,
            facts: dir_facts(dir),
        })),
    }
}

/// The entry that a reply tells.
pub(crate) fn entry_in(reply: &Reply) -> Result<Option<Entry>, OutOfMemory> {
    match reply {
        Reply::FileDirParams { values, .. } => entry_of(values),
        _ => Ok(None),
    }
}

/// Appends entries.
fn put_rows(rows: &[ListEntry], out: &mut Vec<Entry>) -> Result<(), OutOfMemory> {
    for row in rows {
        if let Some(entry) = entry_of(&row.values)? {
            out.push(entry)?;
        }
    }
    Ok(())
}

/// Appends the entries that a reply lists: how many it has.
pub(crate) fn put_list(reply: &Reply, out: &mut Vec<Entry>) -> Result<Option<usize>, OutOfMemory> {
    match reply {
        Reply::List { rows, .. } => {
            put_rows(rows.as_slice(), out)?;
            Ok(Some(rows.as_slice().len()))
        }
        _ => Ok(None),
    }
}

/// The bytes in all of a volume, and those that are free.
pub(crate) fn room_in(reply: &Reply) -> Option<(u64, u64)> {
    match reply {
        Reply::Params {
            values: Values::Volume(volume),
            ..
        } => Some((volume.ext_total, volume.ext_free)),
        _ => None,
    }
}

/// The names of the server's volumes.
pub(crate) fn volumes_in(reply: &Reply, out: &mut Vec<Bytes>) -> Result<bool, OutOfMemory> {
    match reply {
        Reply::ServerParams { volumes, .. } => {
            for volume in volumes.as_slice() {
                let name = volume.name.copy()?;
                out.push(name)?;
            }
            Ok(true)
        }
        _ => Ok(false),
    }
}
