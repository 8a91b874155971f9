//! Fields with their names, as text.
use afp_bitmap::{DirValues, FileValues, Values, VolumeValues};
use std::alloc::Global;
use test_lines::{CaseFault, put_word};

/// A space, the name and the number, where it is not 0.
pub fn put_number(text: &mut String, name: &str, number: i64) -> Result<(), CaseFault> {
    if number != 0 {
        write!(text, " {name} {number}")?;
    }
    Ok(())
}

/// The same of each number.
pub fn put_numbers(text: &mut String, numbers: &[(&str, i64)]) -> Result<(), CaseFault> {
    for (name, number) in numbers {
        put_number(text, name, *number)?;
    }
    Ok(())
}

/// Whether one of the bytes is not 0.
fn is_some(bytes: &[u8]) -> bool {
    bytes.iter().any(|byte| *byte != 0)
}

/// A space, the name and the bytes, where one is not 0.
pub fn put_bytes(
    alloc: Global,
    text: &mut String,
    name: &str,
    bytes: &[u8],
) -> Result<(), CaseFault> {
    if is_some(bytes) {
        write!(text, " {name} ")?;
        put_word(alloc, text, bytes)?;
    }
    Ok(())
}

/// A number of 8 bytes; one that is too large for a text of these cases counts as the largest.
fn wide(number: u64) -> i64 {
    i64::try_from(number).unwrap_or(i64::MAX)
}

fn volume_text(alloc: Global, volume: &VolumeValues, text: &mut String) -> Result<(), CaseFault> {
    text.push_str("volume")?;
    put_numbers(
        text,
        &[
            ("attributes", i64::from(volume.attributes)),
            ("signature", i64::from(volume.signature)),
            ("created", i64::from(volume.created)),
            ("modified", i64::from(volume.modified)),
            ("backup", i64::from(volume.backup)),
            ("volume", i64::from(volume.volume)),
        ],
    )?;
    put_numbers(
        text,
        &[
            ("free", i64::from(volume.free)),
            ("total", i64::from(volume.total)),
            ("ext_free", wide(volume.ext_free)),
            ("ext_total", wide(volume.ext_total)),
            ("block_size", i64::from(volume.block_size)),
        ],
    )?;
    put_bytes(alloc, text, "name", volume.name.as_slice())
}

/// The fields that files and directories share, but for their numbers.
fn put_texts(
    alloc: Global,
    text: &mut String,
    finder: &[u8],
    long_name: &[u8],
    utf8_name: &[u8],
) -> Result<(), CaseFault> {
    put_bytes(alloc, text, "finder", finder)?;
    put_bytes(alloc, text, "long_name", long_name)?;
    put_bytes(alloc, text, "utf8_name", utf8_name)
}

fn put_file_numbers(file: &FileValues, text: &mut String) -> Result<(), CaseFault> {
    put_numbers(
        text,
        &[
            ("attributes", i64::from(file.attributes)),
            ("parent", i64::from(file.parent)),
            ("created", i64::from(file.created)),
            ("modified", i64::from(file.modified)),
            ("backup", i64::from(file.backup)),
            ("id", i64::from(file.id)),
            ("data_length", i64::from(file.data_length)),
            ("resource_length", i64::from(file.resource_length)),
            ("ext_data_length", wide(file.ext_data_length)),
            ("ext_resource_length", wide(file.ext_resource_length)),
        ],
    )
}

fn file_text(alloc: Global, file: &FileValues, text: &mut String) -> Result<(), CaseFault> {
    text.push_str("file")?;
    put_file_numbers(file, text)?;
    put_texts(
        alloc,
        text,
        &file.finder,
        file.long_name.as_slice(),
        file.utf8_name.as_slice(),
    )
}

fn put_directory_numbers(directory: &DirValues, text: &mut String) -> Result<(), CaseFault> {
    put_numbers(
        text,
        &[
            ("attributes", i64::from(directory.attributes)),
            ("parent", i64::from(directory.parent)),
            ("created", i64::from(directory.created)),
            ("modified", i64::from(directory.modified)),
            ("backup", i64::from(directory.backup)),
            ("id", i64::from(directory.id)),
            ("offspring", i64::from(directory.offspring)),
            ("owner", i64::from(directory.owner)),
            ("group", i64::from(directory.group)),
            ("rights", i64::from(directory.rights)),
        ],
    )
}

fn directory_text(
    alloc: Global,
    directory: &DirValues,
    text: &mut String,
) -> Result<(), CaseFault> {
    text.push_str("directory")?;
    put_directory_numbers(directory, text)?;
    put_texts(
        alloc,
        text,
        &directory.finder,
        directory.long_name.as_slice(),
        directory.utf8_name.as_slice(),
    )
}

/// What the values are of, and those that are not zero.
pub fn values_text(alloc: Global, values: &Values, text: &mut String) -> Result<(), CaseFault> {
    match values {
        Values::Volume(volume) => volume_text(alloc, volume, text),
        Values::File(file) => file_text(alloc, file, text),
        Values::Dir(directory) => directory_text(alloc, directory, text),
    }
}
