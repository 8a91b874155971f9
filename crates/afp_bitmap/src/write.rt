//! Fields into a block.
ghost use Rattle.std.specs.Prelude.{◌≡◌, ◌+◌, ◌-◌, ◌≤◌, ◌<◌, ◌^◌, ◌++◌, drop, length, map, take, true, false, OnOk, OnErr, IfOk};
ghost use Rattle.std.specs.List.{concat, AllByRecursion};
ghost use Rattle.afp_bitmap.specs.Bits.{is_asked};
ghost use Rattle.afp_bitmap.specs.Field.{fixed_bytes, IsCountable};
ghost use Rattle.afp_bitmap.specs.Params.{asked_of, parts, size_of_fixed_part};
ghost use Rattle.afp_base.specs.Appended.{Keeps};
ghost use Rattle.afp_bitmap.specs.lemma.Writing.{field_of, row_of, spot_of, spots_of, noted, all_noted, no_spots, padded, patched, with_long_name, with_utf8_name, CanName, Formed, IsSized};

use crate::table::is_asked;
use afp_base::{Bytes, OutOfMemory};
use byteorder::{BigEndian, ByteOrder};

/// A field on its way into a block.
#[derive(Drop)]
pub(crate) enum Field<'a> {
    Short(u16),
    Long(u32),
    Wide(u64),
    Date(i32),
    Finder(&'a [u8]),
    LongName(&'a [u8]),
    Utf8Name(&'a [u8]),
}

/// A bit, and the field that it asks for.
#[derive(Drop)]
pub(crate) struct FieldRow<'a>(pub(crate) u32, pub(crate) Field<'a>);

/// A name, and where in its block its own place is still to be written.
#[derive(Drop)]
struct NameSpot<'a> {
    at: usize,
    name: &'a [u8],
}

/// The asked names.
#[derive(Drop)]
struct NameSpots<'a> {
    long_name: Option<NameSpot<'a>>,
    utf8_name: Option<NameSpot<'a>>,
}

/// The bytes for the Finder.
pub(crate) fn finder_bytes(info: &[u8; 32]) -> &[u8]
    ensures value { result.now ≡ info.now }
    ensures size { length result.now ≡ 32 }
{
    info.as_slice()
}

const ZEROS: [u8; 6] = [0; 6];

/// Appends a field of the fixed part, with 0 where the place of a name is to stand. An error changes nothing.
fn put_fixed(field: &Field<'_>, out: &mut Bytes) -> Result<(), OutOfMemory>
    ensures ok { OnOk result (out.new ≡ out.old ++ fixed_bytes 0 (field_of field.now)) }
    ensures err { OnErr result (out.new ≡ out.old) }
{
    match field {
        Field::Short(number) => out.push_u16(*number),
        Field::Long(number) => out.push_u32(*number),
        Field::Wide(number) => out.push_u64(*number),
        Field::Date(seconds) => out.push_u32(seconds.cast_unsigned()),
        Field::Finder(info) => out.extend(info),
        Field::LongName(_) => out.extend(&ZEROS[..2]),
        Field::Utf8Name(_) => out.extend(&ZEROS),
    }
}

/// Notes a name whose field of the fixed part begins at `at`.
fn noted<'a>(spots: NameSpots<'a>, at: usize, field: &Field<'a>) -> NameSpots<'a>
    ensures { spots_of result ≡ noted at (field_of field.now) (spots_of spots.entry) }
{
    match field {
        Field::LongName(name) => NameSpots {
            long_name: Some(NameSpot { at, name: *name }),
            utf8_name: spots.utf8_name,
        },
        Field::Utf8Name(name) => NameSpots {
            long_name: spots.long_name,
            utf8_name: Some(NameSpot { at, name: *name }),
        },
        _ => spots,
    }
}

/// Appends one field of the fixed part of the block that begins at `base`, where it is asked.
fn put_row<'a>(
    bits: u16,
    row: &FieldRow<'a>,
    spots: NameSpots<'a>,
    base: usize,
    out: &mut Bytes,
) -> Result<NameSpots<'a>, OutOfMemory>
    requires { base ≤ length out.old }
    ensures spots { is_asked bits row.now.0 ≡ true
        → IfOk result (λ next. spots_of next ≡ noted (length out.old - base) (field_of row.now.1) (spots_of spots.entry)) }
    ensures bytes { is_asked bits row.now.0 ≡ true
        → OnOk result (out.new ≡ out.old ++ fixed_bytes 0 (field_of row.now.1)) }
    ensures same_spots { is_asked bits row.now.0 ≡ false → IfOk result (λ next. spots_of next ≡ spots_of spots.entry) }
    ensures same_bytes { is_asked bits row.now.0 ≡ false → OnOk result (out.new ≡ out.old) }
    ensures err { OnErr result (out.new ≡ out.old) }
{
    if !is_asked(bits, row.0) {
        return Ok(spots);
    }
    let spots = noted(spots, out.as_slice().len() - base, &row.1);
    put_fixed(&row.1, out)?;
    Ok(spots)
}

/// Appends the asked fields, with 0 in place of the places, and tells where in the block these are to stand.
fn put_fixed_part<'a>(
    bits: u16,
    rows: &[FieldRow<'a>],
    out: &mut Bytes,
) -> Result<NameSpots<'a>, OutOfMemory>
    ensures spots { IfOk result (λ spots. spots_of spots ≡ all_noted 0 (asked_of bits (map row_of rows.now)) no_spots) }
    ensures bytes { OnOk result (out.new ≡ out.old ++ concat (map (fixed_bytes 0) (asked_of bits (map row_of rows.now)))) }
    ensures err { OnErr result (Keeps out.old out.new) }
{
    let base = out.as_slice().len();
    let mut spots = NameSpots {
        long_name: None,
        utf8_name: None,
    };
    for row in rows {
        spots = put_row(bits, row, spots, base, out)?;
    }
    Ok(spots)
}

/// Writes a number over the 2 bytes at `at`.
fn patch(at: usize, number: u16, out: &mut Bytes)
    requires { at + 2 ≤ length out.old }
    ensures { out.new ≡ patched at number out.old }
{
    out.put_u16(at, number);
}

/// Appends a name, and a zero where it is odd in length.
fn put_padded(head: &[u8], name: &[u8], out: &mut Bytes) -> Result<(), OutOfMemory>
    requires { length head.now + length name.now < 2 ^ 64 }
    ensures ok { OnOk result (out.new ≡ out.old ++ padded (head.now ++ name.now)) }
    ensures err { OnErr result (Keeps out.old out.new) }
{
    out.extend(head)?;
    out.extend(name)?;
    if (head.len() + name.len()) % 2 == 1 {
        out.push_u8(0)?;
    }
    Ok(())
}

/// Writes the place of a name, and appends its head, its bytes and its pad. The block begins at `base`.
fn put_name(
    spot: NameSpot<'_>,
    head: &[u8],
    base: usize,
    out: &mut Bytes,
) -> Result<(), OutOfMemory>
    requires inside { base + spot.at + 2 ≤ length out.old }
    requires small { length out.old < base + 65536 }
    requires fits { length head.now + length spot.name.now < 2 ^ 64 }
    ensures ok { OnOk result (out.new ≡ take base out.old
        ++ (patched spot.entry.at (length out.old - base) (drop base out.old) ++ padded (head.now ++ spot.entry.name.now))) }
    ensures err { OnErr result (take base out.new ≡ take base out.old) }
{
    let place = out.as_slice().len() - base;
    patch(base + spot.at, place as u16, out);
    put_padded(head, spot.name, out)
}

/// Appends the long name, where there is one, and writes its place. The block begins at `base`.
fn put_long_name(
    spot: Option<NameSpot<'_>>,
    base: usize,
    out: &mut Bytes,
) -> Result<(), OutOfMemory>
    requires begun { base ≤ length out.old }
    requires can { CanName 256 (spot_of spot) (drop base out.old) }
    ensures ok { OnOk result (out.new ≡ take base out.old ++ with_long_name (spot_of spot.entry) (drop base out.old)) }
    ensures err { OnErr result (take base out.new ≡ take base out.old) }
{
    match spot {
        None => Ok(()),
        Some(spot) => {
            let head = [spot.name.len() as u8];
            put_name(spot, &head, base, out)
        }
    }
}

/// Appends the UTF-8 name, where there is one, and writes its place. The block begins at `base`.
fn put_utf8_name(
    spot: Option<NameSpot<'_>>,
    base: usize,
    out: &mut Bytes,
) -> Result<(), OutOfMemory>
    requires begun { base ≤ length out.old }
    requires can { CanName 65536 (spot_of spot) (drop base out.old) }
    ensures ok { OnOk result (out.new ≡ take base out.old ++ with_utf8_name (spot_of spot.entry) (drop base out.old)) }
    ensures err { OnErr result (take base out.new ≡ take base out.old) }
{
    match spot {
        None => Ok(()),
        Some(spot) => {
            let mut head = [0; 6];
            BigEndian::write_u16(&mut head[4..], spot.name.len() as u16);
            put_name(spot, &head, base, out)
        }
    }
}

/// Appends the block of the asked fields. After an error, any part of it may stand there.
pub(crate) fn put_rows(bits: u16, rows: &[FieldRow<'_>], out: &mut Bytes) -> Result<(), OutOfMemory>
    requires formed { Formed (asked_of bits (map row_of rows.now)) }
    requires small { size_of_fixed_part (asked_of bits (map row_of rows.now)) < 65000 }
    requires names { AllByRecursion IsCountable (asked_of bits (map row_of rows.now)) }
    requires sized { AllByRecursion IsSized (asked_of bits (map row_of rows.now)) }
    ensures ok { OnOk result (out.new ≡ out.old ++ concat (parts (asked_of bits (map row_of rows.now)))) }
    ensures err { OnErr result (Keeps out.old out.new) }
{
    let base = out.as_slice().len();
    let spots = put_fixed_part(bits, rows, out)?;
    put_long_name(spots.long_name, base, out)?;
    put_utf8_name(spots.utf8_name, base, out)
}
