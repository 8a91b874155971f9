//! What a line of a script says.

use afp_base::{Bytes, OutOfMemory};
use thiserror::Error;

/// A line of a script, with its words as they stand in it.
///
/// A path is elements parted by `/` from the root of the volume; `/` alone is the root. In each word `%XX` is a
/// byte in hexadecimal.
#[derive(Drop)]
pub enum ScriptLine {
    /// `mount VOLUME`.
    Mount {
        volume: Bytes,
    },
    /// `mkdir PATH`.
    Mkdir {
        path: Bytes,
    },
    /// `put PATH BYTES`.
    Put {
        path: Bytes,
        piece: Bytes,
    },
    /// `get PATH`.
    Get {
        path: Bytes,
    },
    /// `ls PATH`.
    Ls {
        path: Bytes,
    },
    /// `mv PATH TARGET`.
    Mv {
        path: Bytes,
        target: Bytes,
    },
    /// `cp PATH TARGET`.
    Cp {
        path: Bytes,
        target: Bytes,
    },
    /// `swap PATH TARGET`.
    Swap {
        path: Bytes,
        target: Bytes,
    },
    /// `rm PATH`.
    Rm {
        path: Bytes,
    },
    /// `hold PATH`.
    Hold {
        path: Bytes,
    },
    /// `lock REFERENCE FROM LENGTH`, in decimal.
    Lock {
        reference: Bytes,
        from: Bytes,
        length: Bytes,
    },
    /// `unlock REFERENCE FROM LENGTH`, in decimal.
    Unlock {
        reference: Bytes,
        from: Bytes,
        length: Bytes,
    },
    /// `drop REFERENCE`, in decimal.
    Drop {
        reference: Bytes,
    },
    /// `id PATH`.
    Id {
        path: Bytes,
    },
    /// `find ID`, in decimal.
    Find {
        id: Bytes,
    },
    /// `note PATH TEXT`.
    Note {
        path: Bytes,
        text: Bytes,
    },
    /// `show PATH`.
    Show {
        path: Bytes,
    },
    /// `pack PATH`.
    Pack {
        path: Bytes,
    },
    /// `unpack PATH HEX`, in hexadecimal digits.
    Unpack {
        path: Bytes,
        piece: Bytes,
    },
    /// `bye`.
    Bye,
}

/// Why a line was not read.
#[derive(Clone, Copy, Debug, PartialEq, Eq, Error)]
pub enum LineFault {
    /// It is no line of a script.
    #[error("the line has none of the forms")]
    Bad,
    /// There was no memory.
    #[error("out of memory")]
    Memory,
}

impl From<OutOfMemory> for LineFault {
    ghost use Rattle.std.specs.Prelude.{◌≡◌};
    ghost use Rattle.client_script_lines.specs.declared.lines.line.LineFault.{LineFault};

    ghost from_gives = { λ _ fault. fault ≡ LineFault.Memory };

    fn from(_error: OutOfMemory) -> LineFault {
        LineFault::Memory
    }
}
