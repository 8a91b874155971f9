//! A parcel that is written.
ghost use Rattle.std.specs.Prelude.{◌≡◌, ◌+◌, ◌*◌, ◌≤◌, ◌<◌, ◌^◌, ◌++◌, length, OnOk, OnErr, IfOk, IfSome};
ghost use Rattle.afp_base.specs.Appended.{Keeps};
ghost use Rattle.apple_double.specs.Contents.{name_id, comment_id};
ghost use Rattle.apple_double.specs.Written.{descriptor_bytes, described, contents, header, entry_if, data_entry, dates_bytes, entries, parcel_bytes, IsComment};

use crate::parcel::{
    COMMENT, DATA, DATES, DATES_SIZE, DESCRIPTOR, FILLER, FINDER, FINDER_SIZE, HEADER, NAME, NEVER,
    Parcel, RESOURCE, Shape, VERSION, magic_of,
};
use afp_base::{Bytes, OutOfMemory};
use afp_names::Name;

/// How many entries are written.
fn count_of(p: &Parcel, shape: Shape) -> u16
    ensures value { result ≡ length (entries shape p.now) }
    ensures most { result ≤ 6 }
{
    let data = shape == Shape::Single;
    3 + p.name.is_some() as u16 + p.comment.is_some() as u16 + data as u16
}

/// Appends the header of a file with so many entries. After an error, any part of it may stand there.
fn put_header(shape: Shape, count: u16, out: &mut Bytes) -> Result<(), OutOfMemory>
    ensures ok { OnOk result (out.new ≡ out.old ++ header shape count) }
    ensures err { OnErr result (Keeps out.old out.new) }
{
    out.push_u32(magic_of(shape))?;
    out.push_u32(VERSION)?;
    out.extend(&[0; FILLER])?;
    out.push_u16(count)?;
    Ok(())
}

/// Appends a descriptor, and answers the offset of what follows the entry.
fn put_descriptor(
    id: u32,
    size: usize,
    offset: usize,
    out: &mut Bytes,
) -> Result<usize, OutOfMemory>
    requires { offset + size < 2 ^ 32 }
    ensures next { IfOk result (λ next. next ≡ offset + size) }
    ensures ok { OnOk result (out.new ≡ out.old ++ descriptor_bytes id offset size) }
    ensures err { OnErr result (Keeps out.old out.new) }
{
    out.push_u32(id)?;
    out.push_u32(offset as u32)?;
    out.push_u32(size as u32)?;
    Ok(offset + size)
}

/// Appends the descriptor of a name that there is.
fn put_name_descriptor(
    name: &Option<Name>,
    offset: usize,
    out: &mut Bytes,
) -> Result<usize, OutOfMemory>
    requires { offset + length (contents (entry_if name_id name.now)) < 2 ^ 32 }
    ensures next { IfOk result (λ next. next ≡ offset + length (contents (entry_if name_id name.now))) }
    ensures ok { OnOk result (out.new ≡ out.old ++ described offset (entry_if name_id name.now)) }
    ensures err { OnErr result (Keeps out.old out.new) }
{
    match name {
        Some(name) => put_descriptor(NAME, name.as_str().len(), offset, out),
        None => Ok(offset),
    }
}

/// Appends the descriptor of a comment that there is.
fn put_comment_descriptor(
    comment: &Option<Bytes>,
    offset: usize,
    out: &mut Bytes,
) -> Result<usize, OutOfMemory>
    requires { offset + length (contents (entry_if comment_id comment.now)) < 2 ^ 32 }
    ensures next { IfOk result (λ next. next ≡ offset + length (contents (entry_if comment_id comment.now))) }
    ensures ok { OnOk result (out.new ≡ out.old ++ described offset (entry_if comment_id comment.now)) }
    ensures err { OnErr result (Keeps out.old out.new) }
{
    match comment {
        Some(comment) => put_descriptor(COMMENT, comment.as_slice().len(), offset, out),
        None => Ok(offset),
    }
}

/// Appends the descriptor of the data, where the file holds them.
fn put_data_descriptor(
    shape: Shape,
    fork: &Bytes,
    offset: usize,
    out: &mut Bytes,
) -> Result<(), OutOfMemory>
    requires { offset + length (contents (data_entry shape fork.now)) < 2 ^ 32 }
    ensures ok { OnOk result (out.new ≡ out.old ++ described offset (data_entry shape fork.now)) }
    ensures err { OnErr result (Keeps out.old out.new) }
{
    match shape {
        Shape::Single => {
            put_descriptor(DATA, fork.as_slice().len(), offset, out)?;
            Ok(())
        }
        Shape::Double => Ok(()),
    }
}

/// The Finder's information is 32 bytes.
pub(crate) fn finder_is_whole(finder: &[u8; 32])
    ensures { length finder.now ≡ 32 }
{}

/// Appends the descriptors of entries whose bytes stand from an offset on.
fn put_descriptors(
    p: &Parcel,
    shape: Shape,
    offset: usize,
    out: &mut Bytes,
) -> Result<(), OutOfMemory>
    requires { offset + length (contents (entries shape p.now)) < 2 ^ 32 }
    ensures ok { OnOk result (out.new ≡ out.old ++ described offset (entries shape p.now)) }
    ensures err { OnErr result (Keeps out.old out.new) }
{
    finder_is_whole(&p.finder);
    let dates = put_name_descriptor(&p.name, offset, out)?;
    let finder = put_descriptor(DATES, DATES_SIZE, dates, out)?;
    let comment = put_descriptor(FINDER, FINDER_SIZE, finder, out)?;
    let resource = put_comment_descriptor(&p.comment, comment, out)?;
    let data = put_descriptor(RESOURCE, p.resource_fork.as_slice().len(), resource, out)?;
    put_data_descriptor(shape, &p.data_fork, data, out)?;
    Ok(())
}

/// Appends a name that there is.
fn put_name(name: &Option<Name>, out: &mut Bytes) -> Result<(), OutOfMemory>
    ensures ok { OnOk result (out.new ≡ out.old ++ contents (entry_if name_id name.now)) }
    ensures err { OnErr result (Keeps out.old out.new) }
{
    match name {
        Some(name) => out.extend(name.as_str().as_bytes()),
        None => Ok(()),
    }
}

/// Appends a comment that there is.
fn put_comment(comment: &Option<Bytes>, out: &mut Bytes) -> Result<(), OutOfMemory>
    ensures ok { OnOk result (out.new ≡ out.old ++ contents (entry_if comment_id comment.now)) }
    ensures err { OnErr result (Keeps out.old out.new) }
{
    match comment {
        Some(comment) => out.extend(comment.as_slice()),
        None => Ok(()),
    }
}

/// Appends the data, where the file holds them.
fn put_data(shape: Shape, fork: &Bytes, out: &mut Bytes) -> Result<(), OutOfMemory>
    ensures ok { OnOk result (out.new ≡ out.old ++ contents (data_entry shape fork.now)) }
    ensures err { OnErr result (Keeps out.old out.new) }
{
    match shape {
        Shape::Single => out.extend(fork.as_slice()),
        Shape::Double => Ok(()),
    }
}

/// Appends the dates.
fn put_dates(p: &Parcel, out: &mut Bytes) -> Result<(), OutOfMemory>
    ensures ok { OnOk result (out.new ≡ out.old ++ dates_bytes p.now) }
    ensures err { OnErr result (Keeps out.old out.new) }
{
    out.push_u32(p.created.cast_unsigned())?;
    out.push_u32(p.modified.cast_unsigned())?;
    out.push_u32(p.backup.cast_unsigned())?;
    out.push_u32(NEVER)?;
    Ok(())
}

/// Appends the entries' bytes.
fn put_contents(p: &Parcel, shape: Shape, out: &mut Bytes) -> Result<(), OutOfMemory>
    ensures ok { OnOk result (out.new ≡ out.old ++ contents (entries shape p.now)) }
    ensures err { OnErr result (Keeps out.old out.new) }
{
    put_name(&p.name, out)?;
    put_dates(p, out)?;
    out.extend(&p.finder)?;
    put_comment(&p.comment, out)?;
    out.extend(p.resource_fork.as_slice())?;
    put_data(shape, &p.data_fork, out)?;
    Ok(())
}

/// Appends the parcel. After an error, any part of it may stand there.
fn put_parcel(p: &Parcel, shape: Shape, out: &mut Bytes) -> Result<(), OutOfMemory>
    requires { length (parcel_bytes shape p.now) < 2 ^ 32 }
    ensures ok { OnOk result (out.new ≡ out.old ++ parcel_bytes shape p.now) }
    ensures err { OnErr result (Keeps out.old out.new) }
{
    let count = count_of(p, shape);
    put_header(shape, count, out)?;
    put_descriptors(p, shape, HEADER + DESCRIPTOR * count as usize, out)?;
    put_contents(p, shape, out)?;
    Ok(())
}

/// Bytes of a name that there is.
fn name_size(name: &Option<Name>) -> usize
    ensures { result ≡ length (contents (entry_if name_id name.now)) }
{
    match name {
        Some(name) => name.as_str().len(),
        None => 0,
    }
}

/// Bytes of a comment that there is.
fn comment_size(comment: &Option<Bytes>) -> usize
    ensures { result ≡ length (contents (entry_if comment_id comment.now)) }
{
    match comment {
        Some(comment) => comment.as_slice().len(),
        None => 0,
    }
}

/// Bytes of the data, where the file holds them.
fn data_size(shape: Shape, fork: &Bytes) -> usize
    ensures { result ≡ length (contents (data_entry shape fork.now)) }
{
    match shape {
        Shape::Single => fork.as_slice().len(),
        Shape::Double => 0,
    }
}

/// Bytes of the parcel of a file.
pub fn parcel_size(p: &Parcel, shape: Shape) -> u128
    ensures { result ≡ length (parcel_bytes shape p.now) }
{
    finder_is_whole(&p.finder);
    let place = HEADER + DESCRIPTOR * count_of(p, shape) as usize;
    place as u128
        + name_size(&p.name) as u128
        + DATES_SIZE as u128
        + FINDER_SIZE as u128
        + comment_size(&p.comment) as u128
        + p.resource_fork.as_slice().len() as u128
        + data_size(shape, &p.data_fork) as u128
}

/// Appends the parcel of a file: its name where it has one, its dates, the Finder's information, its comment where it has
/// one, its resource fork, and in an AppleSingle file its data fork, in this order and without gaps. The filler is zeros,
/// and the date of the last access is "never". Offsets count from the parcel's first byte. A comment must have 1 to 199
/// bytes, and the parcel fewer than 2^32, which [`parcel_size`] tells. An error changes nothing.
pub fn write_parcel(p: &Parcel, shape: Shape, out: &mut Bytes) -> Result<(), OutOfMemory>
    requires comment { IfSome p.now.comment IsComment }
    requires size { length (parcel_bytes shape p.now) < 2 ^ 32 }
    ensures ok { OnOk result (out.new ≡ out.old ++ parcel_bytes shape p.now) }
    ensures err { OnErr result (out.new ≡ out.old) }
{
    let before = out.as_slice().len();
    match put_parcel(p, shape, out) {
        Ok(()) => Ok(()),
        Err(error) => {
            out.truncate(before);
            Err(error)
        }
    }
}
