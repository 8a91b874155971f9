//! The numbers of a volume that code above goes by.
ghost use Rattle.std.specs.Prelude.{◌≡◌};
ghost use Rattle.volume_spec.specs.Rights.{read_right, search_right, write_right};
ghost use Rattle.volume_spec.specs.SoundVolume.{dir_attributes, file_attributes, last_next_id, longest_comment, longest_icon, most_appls, most_icons, most_nodes};
ghost use Rattle.volume_spec.specs.VolumeState.{all_rights, first_id, guest, only_group, root_id, root_parent};

/// The id of the root (AFP Reference, "Directory IDs").
pub const ROOT_ID: u32 = 2;

/// The id that the root has as its parent (AFP Reference, "Directory IDs").
pub const ROOT_PARENT_ID: u32 = 1;

/// The first id of other nodes (AFP Reference, "Directory IDs").
pub const FIRST_ID: u32 = 17;

/// The next id where all ids of 4 bytes have been given.
pub const LAST_NEXT_ID: u64 = 4_294_967_296;

/// The date of what never happened (AFP Reference, "Date and time").
pub const NEVER: i32 = -2_147_483_648;

/// The attributes that a call may set of a file (AFP Reference, "File attributes").
pub const FILE_ATTRIBUTES: u16 = 0x01e5;

/// The attributes that a call may set of a directory (AFP Reference, "Directory attributes").
pub const DIRECTORY_ATTRIBUTES: u16 = 0x01c5;

/// The id of the user who logged in without a name, who owns the root of a fresh volume.
pub const GUEST: u32 = 500;

/// The id of the one group, which is each user's.
pub const ONLY_GROUP: u32 = 500;

/// The right to go down from a directory, that to read what is in it, and that to change it (AFP Reference, "Access rights").
pub const SEARCH_RIGHT: u8 = 1;

pub const READ_RIGHT: u8 = 2;

pub const WRITE_RIGHT: u8 = 4;

/// Search, read and write (AFP Reference, "Access rights").
pub const ALL_RIGHTS: u8 = 7;

/// The most nodes of a volume.
pub const MOST_NODES: usize = 100_000;

/// The most icons of a volume.
pub const MOST_ICONS: usize = 1024;

/// The most APPL mappings of a volume.
pub const MOST_APPLS: usize = 4096;

/// The most bytes of a comment.
pub const LONGEST_COMMENT: usize = 199;

/// The most bytes of an icon.
pub const LONGEST_ICON: usize = 65_535;

/// The constants are what the definitions of a volume speak of.
pub fn limits_are_told()
    ensures root { ROOT_ID ≡ root_id }
    ensures parent { ROOT_PARENT_ID ≡ root_parent }
    ensures first { FIRST_ID ≡ first_id }
    ensures last { LAST_NEXT_ID ≡ last_next_id }
    ensures files { FILE_ATTRIBUTES ≡ file_attributes }
    ensures directories { DIRECTORY_ATTRIBUTES ≡ dir_attributes }
    ensures guest { GUEST ≡ guest }
    ensures group { ONLY_GROUP ≡ only_group }
    ensures search { SEARCH_RIGHT ≡ search_right }
    ensures read { READ_RIGHT ≡ read_right }
    ensures write { WRITE_RIGHT ≡ write_right }
    ensures rights { ALL_RIGHTS ≡ all_rights }
    ensures nodes { MOST_NODES ≡ most_nodes }
    ensures icons { MOST_ICONS ≡ most_icons }
    ensures appls { MOST_APPLS ≡ most_appls }
    ensures comment { LONGEST_COMMENT ≡ longest_comment }
    ensures icon { LONGEST_ICON ≡ longest_icon }
{}
