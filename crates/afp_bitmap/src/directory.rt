//! The parameters of a directory.
ghost use Rattle.std.specs.Prelude.{◌≡◌, ◌++◌, length, map, OnOk, OnErr};
ghost use Rattle.std.specs.List.{concat, AllByRecursion};
ghost use Rattle.afp_bitmap.specs.Field.{IsCountable};
ghost use Rattle.afp_bitmap.specs.Params.{asked_of, parts};
ghost use Rattle.afp_bitmap.specs.lemma.Read.{dir_at};
ghost use Rattle.afp_bitmap.specs.lemma.Reading.{Gives};
ghost use Rattle.afp_bitmap.specs.Table.{dir_rows};
ghost use Rattle.afp_base.specs.Appended.{Keeps};
ghost use Rattle.afp_bitmap.specs.lemma.Writing.{row_of};

use crate::judge::judge;
use crate::params::ParamFault;
use crate::table::{Shape, Slot};
use crate::take::FieldCursor;
use crate::write::{Field, FieldRow, finder_bytes, put_rows};
use afp_base::{Bytes, OutOfMemory};
use std::alloc::Global;

/// What is told of a directory, in the order of the bits (AFP Reference, "Directory Bitmap"). A field that
/// was not asked is zero or empty.
#[derive(Drop)]
pub struct DirValues {
    /// The attribute bits.
    pub attributes: u16,
    /// The id of the directory that holds it.
    pub parent: u32,
    /// The creation date, in seconds from 2000-01-01 00:00 GMT.
    pub created: i32,
    /// The modification date, in the same seconds.
    pub modified: i32,
    /// The backup date, in the same seconds; the least number means never.
    pub backup: i32,
    /// The Finder information, as it is.
    pub finder: [u8; 32],
    /// The long name, at most 255 bytes.
    pub long_name: Bytes,
    /// The directory's id.
    pub id: u32,
    /// How many files and directories it holds.
    pub offspring: u16,
    /// The owner's id.
    pub owner: u32,
    /// The group's id.
    pub group: u32,
    /// The access rights, one byte for the user and one each for everyone, group and owner.
    pub rights: u32,
    /// The UTF-8 name, at most 65,535 bytes.
    pub utf8_name: Bytes,
}

/// The fields by their bits.
const TABLE: [Slot; 13] = [
    Slot(0, Shape::Plain(2)),
    Slot(1, Shape::Plain(4)),
    Slot(2, Shape::Plain(4)),
    Slot(3, Shape::Plain(4)),
    Slot(4, Shape::Plain(4)),
    Slot(5, Shape::Plain(32)),
    Slot(6, Shape::LongName),
    Slot(8, Shape::Plain(4)),
    Slot(9, Shape::Plain(2)),
    Slot(10, Shape::Plain(4)),
    Slot(11, Shape::Plain(4)),
    Slot(12, Shape::Plain(4)),
    Slot(13, Shape::Utf8Name),
];

/// The rows of the table with these values.
#[tactic(auto, unfolding(crate::specs::Table::dir_rows))]
fn rows_of(values: &DirValues) -> [FieldRow<'_>; 13]
    ensures rows { map row_of result ≡ dir_rows values.now }
    ensures finder { length values.now.finder ≡ 32 }
{
    [
        FieldRow(0, Field::Short(values.attributes)),
        FieldRow(1, Field::Long(values.parent)),
        FieldRow(2, Field::Date(values.created)),
        FieldRow(3, Field::Date(values.modified)),
        FieldRow(4, Field::Date(values.backup)),
        FieldRow(5, Field::Finder(finder_bytes(&values.finder))),
        FieldRow(6, Field::LongName(values.long_name.as_slice())),
        FieldRow(8, Field::Long(values.id)),
        FieldRow(9, Field::Short(values.offspring)),
        FieldRow(10, Field::Long(values.owner)),
        FieldRow(11, Field::Long(values.group)),
        FieldRow(12, Field::Long(values.rights)),
        FieldRow(13, Field::Utf8Name(values.utf8_name.as_slice())),
    ]
}

/// Appends the block of the asked values. After an error, any part of it may stand there.
pub(crate) fn put_dir(bits: u16, values: &DirValues, out: &mut Bytes) -> Result<(), OutOfMemory>
    requires { AllByRecursion IsCountable (asked_of bits (dir_rows values.now)) }
    ensures ok { OnOk result (out.new ≡ out.old ++ concat (parts (asked_of bits (dir_rows values.now)))) }
    ensures err { OnErr result (Keeps out.old out.new) }
{
    let rows = rows_of(values);
    put_rows(bits, &rows, out)
}

/// The values of a block.
#[tactic(auto, unfolding(crate::specs::lemma::Read::dir_at, crate::specs::lemma::Reading::dir_from))]
pub(crate) fn read_dir(alloc: Global, bits: u16, bytes: &[u8]) -> Result<DirValues, ParamFault>
    ensures { Gives (λ v. v) result (dir_at bits bytes.now) }
{
    let names = judge(bits, &TABLE, bytes)?;
    let long_name = Bytes::of(alloc, names.long)?;
    let utf8_name = Bytes::of(alloc, names.utf8)?;
    let mut fields = FieldCursor::new(bits, bytes);
    let attributes = fields.short(0);
    let parent = fields.long(1);
    let created = fields.date(2);
    let modified = fields.date(3);
    let backup = fields.date(4);
    let finder = fields.finder(5);
    fields.skip(6, 2);
    let id = fields.long(8);
    let offspring = fields.short(9);
    let owner = fields.long(10);
    let group = fields.long(11);
    let rights = fields.long(12);
    fields.skip(13, 6);
    Ok(DirValues {
        attributes,
        parent,
        created,
        modified,
        backup,
        finder,
        long_name,
        id,
        offspring,
        owner,
        group,
        rights,
        utf8_name,
    })
}
