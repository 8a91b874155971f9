//! A parcel that is read.
ghost use Rattle.std.specs.Prelude.{◌≡◌, ◌≢◌, ℕ, ◌+◌, ◌*◌, ◌≤◌, ◌<◌, ◌++◌, nat_lt, length, take, None, Some, IfOk, IfErr, OnOk, OnErr};
ghost use Rattle.afp_names.specs.MacRoman.{mac_roman_text};
ghost use Rattle.afp_base.specs.Choice.{first_holding};
ghost use Rattle.apple_double.specs.Contents.{is_read, if_name, name_in, date_in, finder_in, comment_in, data_in, data_id, resource_id, name_id, comment_id, dates_id, finder_id, dates_size, longest_comment};
ghost use Rattle.apple_double.specs.Faults.{header_faults, field_faults, entry_faults, entry_fault, is_bad_content, parcel_fault};
ghost use Rattle.apple_double.specs.Format.{magic_in, magic_of, count_in, header_size, descriptor_size, descriptor_at, part};
ghost use Rattle.apple_double.specs.Parcel.{Parcels, Refuses};

use crate::descriptor::{
    Descriptor, count_in, descriptor_at, first_with_id, front_of, number_at, part, slice_of,
};
use crate::parcel::{
    COMMENT, DATA, DATES, DATES_SIZE, DOUBLE, FILLER, FINDER, FINDER_SIZE, HEADER, LONGEST_COMMENT,
    NAME, NEVER, Parcel, ParcelFault, RESOURCE, SINGLE, Shape, VERSION,
};
use afp_base::{Bytes, OutOfMemory};
use afp_names::mac_roman::mac_roman_text;
use afp_names::{LONGEST_NAME, Name, NameFault};
use std::alloc::Global;

/// Refuses bytes that lack the field of so many bytes at a place of the header.
fn need(bytes: &[u8], place: usize, size: usize) -> Result<(), ParcelFault>
    requires { place + size ≤ header_size }
    ensures there { OnOk result (place + size ≤ length bytes.now) }
    ensures short { OnErr result (length bytes.now < place + size) }
    ensures fault { IfErr result (λ fault. fault ≡ ParcelFault.Short place) }
{
    if bytes.len() < place + size {
        return Err(ParcelFault::Short { at: place });
    }
    Ok(())
}

/// Judges the header, and answers the format.
fn read_header(bytes: &[u8]) -> Result<Shape, ParcelFault>
    ensures format { IfOk result (λ shape. magic_in bytes.now ≡ magic_of shape) }
    ensures whole { OnOk result (header_size ≤ length bytes.now) }
    ensures good { OnOk result (first_holding (header_faults bytes.now) ≡ None) }
    ensures fault { IfErr result (λ fault. first_holding (header_faults bytes.now) ≡ Some fault) }
{
    need(bytes, 0, 4)?;
    let magic = number_at(bytes, 0);
    if magic != SINGLE && magic != DOUBLE {
        return Err(ParcelFault::Magic);
    }
    need(bytes, 4, 4)?;
    if number_at(bytes, 4) != VERSION {
        return Err(ParcelFault::Version);
    }
    need(bytes, 8, FILLER)?;
    need(bytes, 24, 2)?;
    Ok(if magic == SINGLE {
        Shape::Single
    } else {
        Shape::Double
    })
}

/// Judges whether the fields of the descriptors are all there.
fn judge_fields(bytes: &[u8]) -> Result<(), ParcelFault>
    requires { header_size ≤ length bytes.now }
    ensures whole { OnOk result (header_size + descriptor_size * count_in bytes.now ≤ length bytes.now) }
    ensures good { OnOk result (first_holding (field_faults bytes.now) ≡ None) }
    ensures fault { IfErr result (λ fault. first_holding (field_faults bytes.now) ≡ Some fault) }
{
    let fields = 3 * count_in(bytes) as usize;
    let whole = (bytes.len() - HEADER) / 4;
    if whole < fields {
        return Err(ParcelFault::Short {
            at: HEADER + 4 * whole,
        });
    }
    Ok(())
}

/// An entry with this id is read.
fn is_read(id: u32) -> bool
    ensures { result ≡ is_read id }
{
    id == DATA || id == RESOURCE || id == NAME || id == COMMENT || id == DATES || id == FINDER
}

/// The name that these bytes are in UTF-8.
fn name_if(alloc: Global, bytes: &[u8]) -> Result<Option<Name>, OutOfMemory>
    ensures { IfOk result (λ name. name ≡ if_name bytes.now) }
{
    match Name::new(alloc, bytes) {
        Ok(name) => Ok(Some(name)),
        Err(fault) => match fault {
            NameFault::Memory => Err(OutOfMemory),
            _ => Ok(None),
        },
    }
}

/// The name that these bytes are, as UTF-8 or else in the character set of long names.
fn name_in(alloc: Global, bytes: &[u8]) -> Result<Option<Name>, OutOfMemory>
    ensures { IfOk result (λ name. name ≡ name_in bytes.now) }
{
    match name_if(alloc, bytes)? {
        Some(name) => Ok(Some(name)),
        None => mac_roman_name(alloc, bytes),
    }
}

/// The name that these bytes are in the character set of long names. Bytes that are too long as they stand are no name, and are not spelt out.
fn mac_roman_name(alloc: Global, bytes: &[u8]) -> Result<Option<Name>, OutOfMemory>
    ensures { IfOk result (λ name. name ≡ if_name (mac_roman_text bytes.now)) }
{
    if bytes.len() > LONGEST_NAME {
        return Ok(None);
    }
    let text = mac_roman_text(alloc, bytes)?;
    name_if(alloc, text.as_bytes())
}

/// The entry has fewer bytes than its id asks for, or they are no name.
fn is_bad_content(alloc: Global, bytes: &[u8], descriptor: Descriptor) -> Result<bool, OutOfMemory>
    ensures { IfOk result (λ bad. bad ≡ is_bad_content bytes.now descriptor) }
{
    match descriptor.id {
        DATES => Ok((descriptor.size as usize) < DATES_SIZE),
        FINDER => Ok((descriptor.size as usize) < FINDER_SIZE),
        NAME => {
            let name = name_in(alloc, slice_of(bytes, descriptor))?;
            Ok(name.is_none())
        }
        _ => Ok(false),
    }
}

/// The entry with this index is read, and is bad.
fn is_bad_entry(alloc: Global, bytes: &[u8], index: usize) -> Result<bool, OutOfMemory>
    requires { header_size + descriptor_size * (index + 1) ≤ length bytes.now }
    ensures { IfOk result (λ bad. bad ≡ (entry_fault bytes.now index).0) }
{
    let descriptor = descriptor_at(bytes, index);
    if !is_read(descriptor.id) {
        return Ok(false);
    }
    if first_with_id(bytes, descriptor.id, index).is_some() {
        return Ok(true);
    }
    if bytes.len() < descriptor.offset as usize + descriptor.size as usize {
        return Ok(true);
    }
    is_bad_content(alloc, bytes, descriptor)
}

/// Judges the entries.
fn judge_entries(alloc: Global, bytes: &[u8]) -> Result<(), ParcelFault>
    requires header { header_size ≤ length bytes.now }
    requires descriptors { header_size + descriptor_size * count_in bytes.now ≤ length bytes.now }
    ensures good { OnOk result (first_holding (entry_faults bytes.now) ≡ None) }
    ensures fault { IfErr result (λ fault. fault ≢ ParcelFault.Memory → first_holding (entry_faults bytes.now) ≡ Some fault) }
{
    for index in 0..count_in(bytes) as usize {
        let bad = is_bad_entry(alloc, bytes, index)?;
        if bad {
            return Err(ParcelFault::Entry { index });
        }
    }
    Ok(())
}

/// Judges all: the format of a parcel, or its first fault.
fn judge(alloc: Global, bytes: &[u8]) -> Result<Shape, ParcelFault>
    ensures good { OnOk result (parcel_fault bytes.now ≡ None) }
    ensures format { IfOk result (λ shape. magic_in bytes.now ≡ magic_of shape) }
    ensures whole { OnOk result (header_size + descriptor_size * count_in bytes.now ≤ length bytes.now) }
    ensures fault { IfErr result (Refuses bytes.now) }
{
    let shape = match read_header(bytes) {
        Ok(shape) => shape,
        Err(fault) => return Err(fault),
    };
    match judge_fields(bytes) {
        Ok(()) => {}
        Err(fault) => return Err(fault),
    }
    match judge_entries(alloc, bytes) {
        Ok(()) => Ok(shape),
        Err(fault) => Err(fault),
    }
}

/// The date at a place of the dates.
fn date_in(dates: &[u8], place: usize) -> i32
    requires { place < dates_size }
    ensures { result ≡ date_in place dates.now }
{
    if dates.len() < place + 4 {
        return NEVER.cast_signed();
    }
    number_at(dates, place).cast_signed()
}

/// The Finder's information at the front of these bytes, zeros where there are none.
fn finder_in(bytes: &[u8]) -> [u8; 32]
    ensures { result ≡ finder_in bytes.now }
{
    let mut finder = [0; FINDER_SIZE];
    if bytes.len() >= FINDER_SIZE {
        finder.copy_from_slice(&bytes[..FINDER_SIZE]);
    }
    finder
}

/// A comment, cut; an empty one is none.
fn comment_in(alloc: Global, bytes: &[u8]) -> Result<Option<Bytes>, OutOfMemory>
    ensures { IfOk result (λ comment. comment ≡ comment_in bytes.now) }
{
    if bytes.is_empty() {
        return Ok(None);
    }
    let comment = Bytes::of(alloc, front_of(bytes, LONGEST_COMMENT))?;
    Ok(Some(comment))
}

/// The data fork, which a header file does not hold.
fn data_in(alloc: Global, shape: Shape, bytes: &[u8]) -> Result<Bytes, OutOfMemory>
    ensures { IfOk result (λ fork. fork ≡ data_in shape bytes.now) }
{
    match shape {
        Shape::Single => Bytes::of(alloc, bytes),
        Shape::Double => Ok(Bytes::new(alloc)),
    }
}

/// The file that is held by bytes without a fault.
fn take_parcel(alloc: Global, shape: Shape, bytes: &[u8]) -> Result<Parcel, OutOfMemory>
    requires good { parcel_fault bytes.now ≡ None }
    requires format { magic_in bytes.now ≡ magic_of shape }
    requires header { header_size ≤ length bytes.now }
    requires descriptors { header_size + descriptor_size * count_in bytes.now ≤ length bytes.now }
    ensures { IfOk result (λ p. Parcels bytes.now shape p) }
{
    let dates = part(bytes, DATES);
    let name = name_in(alloc, part(bytes, NAME))?;
    let comment = comment_in(alloc, part(bytes, COMMENT))?;
    let data_fork = data_in(alloc, shape, part(bytes, DATA))?;
    let resource_fork = Bytes::of(alloc, part(bytes, RESOURCE))?;
    Ok(Parcel {
        name,
        created: date_in(dates, 0),
        modified: date_in(dates, 4),
        backup: date_in(dates, 8),
        finder: finder_in(part(bytes, FINDER)),
        comment,
        data_fork,
        resource_fork,
    })
}

/// The file that a parcel holds, and the format. Where the bytes are no parcel, the fault is the first that holds, in the
/// order of the fields: those of the header, then those of the descriptors, then the entries by index.
///
/// Entries of other ids, the filler and the date of the last access are skipped, and so is what follows the 32 bytes of the
/// Finder's information. Entries may share bytes. A comment is cut to [`LONGEST_COMMENT`] bytes, and an empty one is none.
/// Parts that are not there are empty, zeros, the date "never", or none. Of a header file the data are empty. A name is
/// taken as UTF-8, or else by the character set of long names.
pub fn read_parcel(alloc: Global, bytes: &[u8]) -> Result<(Shape, Parcel), ParcelFault>
    ensures parcel { IfOk result (λ found. Parcels bytes.now found.0 found.1) }
    ensures fault { IfErr result (Refuses bytes.now) }
{
    let shape = judge(alloc, bytes)?;
    let parcel = take_parcel(alloc, shape, bytes)?;
    Ok((shape, parcel))
}
