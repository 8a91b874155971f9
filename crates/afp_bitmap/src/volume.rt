//! The parameters of a volume.
ghost use Rattle.std.specs.Prelude.{◌≡◌, ◌++◌, map, OnOk, OnErr};
ghost use Rattle.std.specs.List.{concat, AllByRecursion};
ghost use Rattle.afp_bitmap.specs.Field.{IsCountable};
ghost use Rattle.afp_bitmap.specs.Params.{asked_of, parts};
ghost use Rattle.afp_bitmap.specs.lemma.Read.{volume_at};
ghost use Rattle.afp_bitmap.specs.lemma.Reading.{Gives};
ghost use Rattle.afp_bitmap.specs.Table.{volume_rows};
ghost use Rattle.afp_base.specs.Appended.{Keeps};
ghost use Rattle.afp_bitmap.specs.lemma.Writing.{row_of};

use crate::judge::judge;
use crate::params::ParamFault;
use crate::table::{Shape, Slot};
use crate::take::FieldCursor;
use crate::write::{Field, FieldRow, put_rows};
use afp_base::{Bytes, OutOfMemory};
use std::alloc::Global;

/// What is told of a volume, in the order of the bits (AFP Reference, "Volume Bitmap"). A field that
/// was not asked is zero or empty.
#[derive(Drop)]
pub struct VolumeValues {
    /// The attribute bits.
    pub attributes: u16,
    /// How ids are given: 2 for fixed directory ids.
    pub signature: u16,
    /// The creation date, in seconds from 2000-01-01 00:00 GMT.
    pub created: i32,
    /// The modification date, in the same seconds.
    pub modified: i32,
    /// The backup date, in the same seconds; the least number means never.
    pub backup: i32,
    /// The volume's id.
    pub volume: u16,
    /// Free bytes, in a field of 4 bytes.
    pub free: u32,
    /// All bytes, in a field of 4 bytes.
    pub total: u32,
    /// The volume's name, at most 255 bytes.
    pub name: Bytes,
    /// Free bytes, in a field of 8 bytes.
    pub ext_free: u64,
    /// All bytes, in a field of 8 bytes.
    pub ext_total: u64,
    /// Bytes in a block.
    pub block_size: u32,
}

/// The fields by their bits.
const TABLE: [Slot; 12] = [
    Slot(0, Shape::Plain(2)),
    Slot(1, Shape::Plain(2)),
    Slot(2, Shape::Plain(4)),
    Slot(3, Shape::Plain(4)),
    Slot(4, Shape::Plain(4)),
    Slot(5, Shape::Plain(2)),
    Slot(6, Shape::Plain(4)),
    Slot(7, Shape::Plain(4)),
    Slot(8, Shape::LongName),
    Slot(9, Shape::Plain(8)),
    Slot(10, Shape::Plain(8)),
    Slot(11, Shape::Plain(4)),
];

/// The rows of the table with these values.
#[tactic(auto, unfolding(crate::specs::Table::volume_rows))]
fn rows_of(values: &VolumeValues) -> [FieldRow<'_>; 12]
    ensures { map row_of result ≡ volume_rows values.now }
{
    [
        FieldRow(0, Field::Short(values.attributes)),
        FieldRow(1, Field::Short(values.signature)),
        FieldRow(2, Field::Date(values.created)),
        FieldRow(3, Field::Date(values.modified)),
        FieldRow(4, Field::Date(values.backup)),
        FieldRow(5, Field::Short(values.volume)),
        FieldRow(6, Field::Long(values.free)),
        FieldRow(7, Field::Long(values.total)),
        FieldRow(8, Field::LongName(values.name.as_slice())),
        FieldRow(9, Field::Wide(values.ext_free)),
        FieldRow(10, Field::Wide(values.ext_total)),
        FieldRow(11, Field::Long(values.block_size)),
    ]
}

/// Appends the block of the asked values. After an error, any part of it may stand there.
pub(crate) fn put_volume(
    bits: u16,
    values: &VolumeValues,
    out: &mut Bytes,
) -> Result<(), OutOfMemory>
    requires { AllByRecursion IsCountable (asked_of bits (volume_rows values.now)) }
    ensures ok { OnOk result (out.new ≡ out.old ++ concat (parts (asked_of bits (volume_rows values.now)))) }
    ensures err { OnErr result (Keeps out.old out.new) }
{
    let rows = rows_of(values);
    put_rows(bits, &rows, out)
}

/// The values of a block.
#[tactic(auto, unfolding(crate::specs::lemma::Read::volume_at, crate::specs::lemma::Reading::volume_from))]
pub(crate) fn read_volume(
    alloc: Global,
    bits: u16,
    bytes: &[u8],
) -> Result<VolumeValues, ParamFault>
    ensures { Gives (λ v. v) result (volume_at bits bytes.now) }
{
    let names = judge(bits, &TABLE, bytes)?;
    let name = Bytes::of(alloc, names.long)?;
    let mut fields = FieldCursor::new(bits, bytes);
    let attributes = fields.short(0);
    let signature = fields.short(1);
    let created = fields.date(2);
    let modified = fields.date(3);
    let backup = fields.date(4);
    let volume = fields.short(5);
    let free = fields.long(6);
    let total = fields.long(7);
    fields.skip(8, 2);
    let ext_free = fields.wide(9);
    let ext_total = fields.wide(10);
    let block_size = fields.long(11);
    Ok(VolumeValues {
        attributes,
        signature,
        created,
        modified,
        backup,
        volume,
        free,
        total,
        name,
        ext_free,
        ext_total,
        block_size,
    })
}
