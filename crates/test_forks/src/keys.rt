//! Forks, modes, references and ranges of a line's numbers.

use afp_base::{ForkRef, NodeId, VolumeId};
use deny_modes::{ForkKey, Mode};
use range_locks::Range;

/// The data fork of a node of volume 1.
pub fn fork(node: u64) -> ForkKey {
    ForkKey {
        volume: VolumeId(1),
        node: NodeId((node % 4294967296) as u32),
        resource: false,
    }
}

/// The mode of an access mode's bits: 1 read, 2 write, 16 deny reading, 32 deny writing (AFP Reference, FPOpenFork).
pub fn mode(bits: u64) -> Mode {
    Mode {
        read: bits & 1 != 0,
        write: bits & 2 != 0,
        deny_read: bits & 16 != 0,
        deny_write: bits & 32 != 0,
    }
}

pub fn reference(number: u64) -> ForkRef {
    ForkRef((number % 65536) as u16)
}

/// The last byte that a range may have.
const TOP: u64 = 0x7fff_ffff_ffff_ffff;

/// The bytes from the one place to the other. Where that is no range, those from 0 to the top.
pub fn range(from: u64, to: u64) -> Range {
    if from <= to && to <= TOP {
        Range { from, to }
    } else {
        Range { from: 0, to: TOP }
    }
}
