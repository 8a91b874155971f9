//! Why a house is refused.
ghost use Rattle.std.specs.Prelude.{◌≡◌};

use afp_base::OutOfMemory;
use thiserror::Error;

/// Why a house is refused: the first of these that holds, in this order. `Memory` may come at any time.
#[derive(Clone, Copy, Debug, PartialEq, Eq, Error)]
pub enum HouseFault {
    /// The server's name is not printable ASCII (0x20 to 0x7E) of 1 to 31 characters.
    #[error("the server's name is not 1 to 31 printable ASCII characters")]
    Server,

    /// There are more than 256 users.
    #[error("there are more than 256 users")]
    Users,

    /// The first user whose name is not printable ASCII of 1 to 31 characters or is the name of an
    /// earlier user, or whose id is not 501 plus its index.
    #[error("the user at index {index} has a bad name or an id that is not 501 plus its index")]
    User { index: usize },

    /// There is no volume, or there are more than 8.
    #[error("there are not 1 to 8 volumes")]
    Volumes,

    /// The first volume whose name is not printable ASCII of 1 to 27 characters or is the name of an
    /// earlier volume.
    #[error("the volume at index {index} has a bad name")]
    Volume { index: usize },

    /// The login message is not printable ASCII of at most 199 characters.
    #[error("the login message is not at most 199 printable ASCII characters")]
    Message,

    /// There is no memory.
    #[error("out of memory")]
    Memory,
}

impl From<OutOfMemory> for HouseFault {
    ghost use Rattle.afp_serial.specs.declared.house_fault.HouseFault.{HouseFault};

    ghost from_gives = { λ _ fault. fault ≡ HouseFault.Memory };

    fn from(_error: OutOfMemory) -> HouseFault {
        HouseFault::Memory
    }
}
