//! The limits of a house, and the sizes in its status block.

/// The first printable ASCII character, the space.
pub const FIRST_PRINTABLE: u8 = 0x20;

/// The last printable ASCII character, the tilde.
pub const LAST_PRINTABLE: u8 = 0x7e;

/// The most characters of a server's name.
pub const LONGEST_SERVER: usize = 31;

/// The most characters of a user's name.
pub const LONGEST_USER: usize = 31;

/// The most characters of a volume's name.
pub const LONGEST_VOLUME: usize = 27;

/// The most characters of a login message.
pub const LONGEST_MESSAGE: usize = 199;

/// The most users.
pub const MOST_USERS: usize = 256;

/// The most volumes.
pub const MOST_VOLUMES: usize = 8;

/// The id of the first user. The next ones follow it.
pub const FIRST_USER_ID: usize = 501;

/// The offset of an icon that is not there.
pub const NO_ICON: u16 = 0;

/// The size of what stands before the counted name in a status block, in bytes: four offsets and the
/// flags.
pub const SIZE_BEFORE_NAME: usize = 10;

/// The size of the four offsets behind the name and its pad, in bytes.
pub const SIZE_BEHIND_NAME: usize = 8;
