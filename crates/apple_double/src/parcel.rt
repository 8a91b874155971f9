//! A Macintosh file as a parcel holds it, and the numbers of the format.
ghost use Rattle.std.specs.Prelude.{◌≡◌};
ghost use Rattle.apple_double.specs.Format.{magic_of};
ghost use Rattle.apple_double.specs.declared.parcel.ParcelFault.TheVariants.{Memory};

use afp_base::{Bytes, OutOfMemory};
use afp_names::Name;
use thiserror::Error;

/// AppleSingle: the whole file. AppleDouble: a header file, whose data fork stands in a file of its own.
#[derive(Clone, Copy, Debug, PartialEq, Eq)]
pub enum Shape {
    Single,
    Double,
}

/// A Macintosh file. Dates are in seconds from 2000-01-01 00:00 GMT; the least number means never.
#[derive(Drop)]
pub struct Parcel {
    pub name: Option<Name>,
    pub created: i32,
    pub modified: i32,
    pub backup: i32,
    /// The Finder's information.
    pub finder: [u8; 32],
    /// One that is read has 1 to [`LONGEST_COMMENT`] bytes, and only such a one can be written.
    pub comment: Option<Bytes>,
    pub data_fork: Bytes,
    pub resource_fork: Bytes,
}

/// Why bytes are no parcel: the first that holds, in the order of the fields.
#[derive(Clone, Copy, Debug, PartialEq, Eq, Error)]
pub enum ParcelFault {
    /// The field of the header or of a descriptor that begins at `at`, in bytes from the first, is not all there.
    #[error("the field that begins at byte {at} is not all there")]
    Short { at: usize },
    /// They begin with neither magic number.
    #[error("the bytes begin with no magic number of AppleSingle or AppleDouble")]
    Magic,
    /// Their version is another than 2.
    #[error("the version is not 2")]
    Version,
    /// The entry with this index, from 0, is one of those that are read, and its id stands earlier, it passes the end of the bytes, it is
    /// dates of fewer than 16 or Finder's information of fewer than 32 bytes, or it is a name that is none.
    #[error("the entry at index {index} is bad")]
    Entry { index: usize },
    /// There is no memory.
    #[error("out of memory")]
    Memory,
}

impl From<OutOfMemory> for ParcelFault {
    ghost from_gives = { λ _ fault. fault ≡ Memory };

    fn from(_error: OutOfMemory) -> ParcelFault {
        ParcelFault::Memory
    }
}

/// The most bytes of a comment.
pub const LONGEST_COMMENT: usize = 199;

/// The magic number of each format, and the version of both.
pub(crate) const SINGLE: u32 = 0x0005_1600;

pub(crate) const DOUBLE: u32 = 0x0005_1607;

pub(crate) const VERSION: u32 = 0x0002_0000;

/// Bytes of the header, of its filler, and of a descriptor.
pub(crate) const HEADER: usize = 26;

pub(crate) const FILLER: usize = 16;

pub(crate) const DESCRIPTOR: usize = 12;

/// The ids of the entries that are read and written.
pub(crate) const DATA: u32 = 1;

pub(crate) const RESOURCE: u32 = 2;

pub(crate) const NAME: u32 = 3;

pub(crate) const COMMENT: u32 = 4;

pub(crate) const DATES: u32 = 8;

pub(crate) const FINDER: u32 = 9;

/// Bytes of the dates and of the Finder's information.
pub(crate) const DATES_SIZE: usize = 16;

pub(crate) const FINDER_SIZE: usize = 32;

/// The date that means never, as its four bytes are.
pub(crate) const NEVER: u32 = 0x8000_0000;

/// The number that a file of this format begins with.
pub(crate) fn magic_of(shape: Shape) -> u32
    ensures { result ≡ magic_of shape }
{
    match shape {
        Shape::Single => SINGLE,
        Shape::Double => DOUBLE,
    }
}
