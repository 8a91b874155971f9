//! The numbers of the records' table.
ghost use Rattle.std.specs.Prelude.{◌≡◌};
ghost use Rattle.volume_keeper_records.specs.Records.{version, old_version};

/// The first byte of a key, by what the record is of.
pub(crate) const HEAD: u8 = 0;

pub(crate) const NODE: u8 = 1;

pub(crate) const BLOCK: u8 = 2;

pub(crate) const COMMENT: u8 = 3;

pub(crate) const ICON: u8 = 4;

pub(crate) const APPL: u8 = 5;

/// The version of a volume's records.
pub const VERSION: u16 = 2;

/// The older version, whose nodes have no owner, group and rights.
pub(crate) const OLD_VERSION: u16 = 1;

/// The versions are those of the definition.
pub fn versions_are_told()
    ensures written { VERSION ≡ version }
    ensures older { OLD_VERSION ≡ old_version }
{}
