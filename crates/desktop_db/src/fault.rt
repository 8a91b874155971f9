//! Why nothing was put into a desktop database.
use afp_base::OutOfMemory;
use thiserror::Error;

/// Why an icon or a mapping was not put: the limit of a volume is reached (AFP Reference, DiskFull), or there is no memory.
#[derive(Clone, Copy, Debug, PartialEq, Eq, Error)]
pub enum DeskFault {
    #[error("the desktop database is full")]
    Full,
    #[error("out of memory")]
    Memory,
}

impl From<OutOfMemory> for DeskFault {
    ghost use Rattle.std.specs.Prelude.{◌≡◌};
    ghost use Rattle.desktop_db.specs.declared.fault.DeskFault.TheVariants.{Memory};

    ghost from_gives = { λ _ fault. fault ≡ Memory };

    fn from(_error: OutOfMemory) -> DeskFault {
        DeskFault::Memory
    }
}
