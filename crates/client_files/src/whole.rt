//! Whole pieces from a source, and whoever is told how far a copy is.
ghost use Rattle.std.specs.Prelude.{◌≡◌, ◌<◌, ◌≤◌, ◌-◌, length, take, drop, ℕ};
ghost use Rattle.afp_outside.specs.ends.Source.{SourceReads};
ghost use Rattle.afp_outside.specs.declared.ends.link.ReadResult.{ReadResult};
ghost use Rattle.client_files.specs.Sources.{Fills};

use afp_outside::{ReadResult, Source};

/// Whoever is told how far a copy is.
pub trait Watch {
    /// So many bytes of the fork are where they belong.
    fn moved(&mut self, bytes: u64);
}

/// What filling a room came to.
#[derive(Clone, Copy, Debug, PartialEq, Eq)]
pub enum Filled {
    /// So many bytes begin the room, and fewer than it holds only at the source's end.
    Got(usize),
    /// A read failed; what it gave before is lost.
    Failed,
}

/// Reads once, into the room from `from` on, and no further than `to`.
pub(crate) fn read_into<S: Source>(
    source: &mut S,
    room: &mut [u8],
    from: usize,
    to: usize,
) -> ReadResult
    requires some { from < to }
    requires within { to ≤ length room.old }
    ensures same { take from room.new ≡ take from room.old }
    ensures size { length room.new ≡ length room.old }
    ensures reads { SourceReads (S.source_state source.old) (take (to - from) (drop from room.new)) result (S.source_state source.new) }
    ensures most { (n : ℕ) → result ≡ ReadResult.Got n → n ≤ to - from }
{
    source.read(&mut room[from..to])
}

/// Reads into a room until it is full or the source ends.
pub(crate) fn fill<S: Source>(source: &mut S, room: &mut [u8]) -> Filled
    ensures size { length room.new ≡ length room.old }
    ensures fills { Fills (S.source_state source.old) room.new result (S.source_state source.new) }
{
    let mut got = 0;
    let most = room.len();
    while got < most {
        match read_into(source, room, got, most) {
            ReadResult::Got(n) => got += n,
            ReadResult::End => return Filled::Got(got),
            ReadResult::Failed => return Filled::Failed,
            ReadResult::Quiet => return Filled::Failed,
        }
    }
    Filled::Got(got)
}
