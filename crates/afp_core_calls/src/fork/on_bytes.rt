//! What the calls on the bytes of an open fork share: where one starts, a place as a reply tells it, and whether a lock is in the way.
ghost use Rattle.std.specs.Prelude.{◌≡◌, ◌<◌, ◌≤◌, ℕ, List, Some, true, length, IfOk};
ghost use Rattle.afp_replies.specs.Replies.{canonical_reply};
ghost use Rattle.afp_serial.specs.ForkBytes.{is_from_end, start_in};
ghost use Rattle.afp_serial.specs.World.{is_open, OpenFork};
ghost use Rattle.volume_spec.specs.ForkEffect.{fork_of};
ghost use Rattle.afp_base.specs.Limits.{most_fork_bytes};
ghost use Rattle.volume_spec.specs.SoundVolume.{has_file};
ghost use Rattle.volume_spec.specs.VolumeState.{Row};
ghost use Rattle.volume_spec.specs.Walk.{row_at};
ghost use Rattle.afp_core_calls.specs.fork.lemma.OnForkBytes.{HasRoom, IsFew, IsPlace, end_reply, start_reply};
ghost use Rattle.afp_serial.specs.OnFork.{is_locked};

use afp_base::{Bytes, ForkRef, OutOfMemory};
use afp_core_state::State;
use deny_modes::ForkKey;
use record_keeper::Keeper;
use std::alloc::Global;
use volume_keeper::KeptVolume;

/// The flag that counts a start from the end of the fork (AFP Reference, "FPWrite", "FPByteRangeLock").
const FROM_END: u8 = 0x80;

/// Whether a start counts from the end of the fork.
pub(crate) fn is_from_end(flag: u8) -> bool
    ensures { result ≡ is_from_end flag }
{
    flag & FROM_END != 0
}

/// A place in a fork: `None` before its first byte.
fn place(offset: i64) -> Option<u64>
    ensures { IsPlace offset result }
{
    if offset < 0 {
        None
    } else {
        Some(offset as u64)
    }
}

/// A place that is counted from the end of a fork of so many bytes: `None` before its first byte.
fn place_behind(len: u64, offset: i64) -> Option<u64>
    requires { len ≤ most_fork_bytes }
    ensures { (bytes : List ℕ) → length bytes ≡ len → IsPlace (start_in bytes true offset) result }
{
    len.checked_add_signed(offset)
}

/// Where a write or a lock starts in a fork of a file: `None` before its first byte. The fork is looked for only where its length counts.
pub(crate) fn start_on<K: Keeper>(
    kept: &KeptVolume<K>,
    fork: &ForkKey,
    from_end: bool,
    offset: i64,
) -> Option<u64>
    requires file { has_file kept.now.state.rows fork.now.node ≡ true }
    ensures place { (file : Row) → row_at kept.now.state.rows fork.now.node ≡ Some file → IsPlace (start_in (fork_of fork.now.resource file) from_end offset) result }
    ensures few { (file : Row) → row_at kept.now.state.rows fork.now.node ≡ Some file → IsFew (fork_of fork.now.resource file) }
{
    kept.keeps_few();
    if from_end {
        place_behind(kept.fork_size(fork.node, fork.resource), offset)
    } else {
        place(offset)
    }
}

/// A number as a reply of 4 or of 8 bytes, where it has room for it.
pub(crate) fn number_block(alloc: Global, wide: bool, number: u64) -> Result<Bytes, OutOfMemory>
    ensures end { IfOk result (λ block. HasRoom wide number → block ≡ canonical_reply (end_reply wide number)) }
    ensures start { IfOk result (λ block. HasRoom wide number → block ≡ canonical_reply (start_reply wide number)) }
{
    let mut block = Bytes::new(alloc);
    if wide {
        block.push_u64(number)?;
    } else {
        block.push_u32(u32::try_from(number).unwrap_or(u32::MAX))?;
    }
    Ok(block)
}

/// Whether another reference's lock covers one of so many bytes of an open fork from a place on.
pub(crate) fn is_locked<K: Keeper>(
    state: &State<K>,
    reference: ForkRef,
    from: u64,
    count: u64,
) -> bool
    requires { is_open state.now.world.opens reference.0 ≡ true }
    ensures { (o : OpenFork) → o.reference ≡ reference.0 → result ≡ is_locked state.now.world o from count }
{
    state.forks.is_locked(reference, from, count)
}
