//! The parameters of a file.
ghost use Rattle.std.specs.Prelude.{◌≡◌, ◌++◌, length, map, OnOk, OnErr};
ghost use Rattle.std.specs.List.{concat, AllByRecursion};
ghost use Rattle.afp_bitmap.specs.Field.{IsCountable};
ghost use Rattle.afp_bitmap.specs.Params.{asked_of, parts};
ghost use Rattle.afp_bitmap.specs.lemma.Read.{file_at};
ghost use Rattle.afp_bitmap.specs.lemma.Reading.{Gives};
ghost use Rattle.afp_bitmap.specs.Table.{file_rows};
ghost use Rattle.afp_base.specs.Appended.{Keeps};
ghost use Rattle.afp_bitmap.specs.lemma.Writing.{row_of};

use crate::judge::judge;
use crate::params::ParamFault;
use crate::table::{Shape, Slot};
use crate::take::FieldCursor;
use crate::write::{Field, FieldRow, finder_bytes, put_rows};
use afp_base::{Bytes, OutOfMemory};
use std::alloc::Global;

/// What is told of a file, in the order of the bits (AFP Reference, "File Bitmap"). A field that
/// was not asked is zero or empty.
#[derive(Drop)]
pub struct FileValues {
    /// The attribute bits.
    pub attributes: u16,
    /// The id of the directory that holds it.
    pub parent: u32,
    /// The creation date, in seconds from 2000-01-01 00:00 GMT.
    pub created: i32,
    /// The modification date, in the same seconds.
    pub modified: i32,
    /// The backup date, in the same seconds; the least number means never.
    pub backup: i32,
    /// The Finder information, as it is.
    pub finder: [u8; 32],
    /// The long name, at most 255 bytes.
    pub long_name: Bytes,
    /// The file's id.
    pub id: u32,
    /// Bytes in the data fork, in a field of 4 bytes.
    pub data_length: u32,
    /// Bytes in the resource fork, in a field of 4 bytes.
    pub resource_length: u32,
    /// Bytes in the data fork, in a field of 8 bytes.
    pub ext_data_length: u64,
    /// The UTF-8 name, at most 65,535 bytes.
    pub utf8_name: Bytes,
    /// Bytes in the resource fork, in a field of 8 bytes.
    pub ext_resource_length: u64,
}

/// The fields by their bits.
const TABLE: [Slot; 13] = [
    Slot(0, Shape::Plain(2)),
    Slot(1, Shape::Plain(4)),
    Slot(2, Shape::Plain(4)),
    Slot(3, Shape::Plain(4)),
    Slot(4, Shape::Plain(4)),
    Slot(5, Shape::Plain(32)),
    Slot(6, Shape::LongName),
    Slot(8, Shape::Plain(4)),
    Slot(9, Shape::Plain(4)),
    Slot(10, Shape::Plain(4)),
    Slot(11, Shape::Plain(8)),
    Slot(13, Shape::Utf8Name),
    Slot(14, Shape::Plain(8)),
];

/// The rows of the table with these values.
#[tactic(auto, unfolding(crate::specs::Table::file_rows))]
fn rows_of(values: &FileValues) -> [FieldRow<'_>; 13]
    ensures rows { map row_of result ≡ file_rows values.now }
    ensures finder { length values.now.finder ≡ 32 }
{
    [
        FieldRow(0, Field::Short(values.attributes)),
        FieldRow(1, Field::Long(values.parent)),
        FieldRow(2, Field::Date(values.created)),
        FieldRow(3, Field::Date(values.modified)),
        FieldRow(4, Field::Date(values.backup)),
        FieldRow(5, Field::Finder(finder_bytes(&values.finder))),
        FieldRow(6, Field::LongName(values.long_name.as_slice())),
        FieldRow(8, Field::Long(values.id)),
        FieldRow(9, Field::Long(values.data_length)),
        FieldRow(10, Field::Long(values.resource_length)),
        FieldRow(11, Field::Wide(values.ext_data_length)),
        FieldRow(13, Field::Utf8Name(values.utf8_name.as_slice())),
        FieldRow(14, Field::Wide(values.ext_resource_length)),
    ]
}

/// Appends the block of the asked values. After an error, any part of it may stand there.
pub(crate) fn put_file(bits: u16, values: &FileValues, out: &mut Bytes) -> Result<(), OutOfMemory>
    requires { AllByRecursion IsCountable (asked_of bits (file_rows values.now)) }
    ensures ok { OnOk result (out.new ≡ out.old ++ concat (parts (asked_of bits (file_rows values.now)))) }
    ensures err { OnErr result (Keeps out.old out.new) }
{
    let rows = rows_of(values);
    put_rows(bits, &rows, out)
}

/// The values of a block.
#[tactic(auto, unfolding(crate::specs::lemma::Read::file_at, crate::specs::lemma::Reading::file_from))]
pub(crate) fn read_file(alloc: Global, bits: u16, bytes: &[u8]) -> Result<FileValues, ParamFault>
    ensures { Gives (λ v. v) result (file_at bits bytes.now) }
{
    let names = judge(bits, &TABLE, bytes)?;
    let long_name = Bytes::of(alloc, names.long)?;
    let utf8_name = Bytes::of(alloc, names.utf8)?;
    let mut fields = FieldCursor::new(bits, bytes);
    let attributes = fields.short(0);
    let parent = fields.long(1);
    let created = fields.date(2);
    let modified = fields.date(3);
    let backup = fields.date(4);
    let finder = fields.finder(5);
    fields.skip(6, 2);
    let id = fields.long(8);
    let data_length = fields.long(9);
    let resource_length = fields.long(10);
    let ext_data_length = fields.wide(11);
    fields.skip(13, 6);
    let ext_resource_length = fields.wide(14);
    Ok(FileValues {
        attributes,
        parent,
        created,
        modified,
        backup,
        finder,
        long_name,
        id,
        data_length,
        resource_length,
        ext_data_length,
        utf8_name,
        ext_resource_length,
    })
}
