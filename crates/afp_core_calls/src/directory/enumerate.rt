//! FPEnumerate, FPEnumerateExt and FPEnumerateExt2 (AFP Reference, under these names).
ghost use Rattle.std.specs.Prelude.{◌≡◌, ℕ, false};
ghost use Rattle.afp_calls_grammar.specs.declared.grammar.call.Call.{Call};
ghost use Rattle.afp_serial.specs.Enumerate.{lists};
ghost use Rattle.afp_serial.specs.Rows.{ends_session, row};
ghost use Rattle.volume_spec.specs.Enumerate.{ListAsked as AskedOf};
ghost use Rattle.afp_core_state.specs.OnVolumes.{IsUser};
ghost use Rattle.afp_core_state.specs.Running.{RunsRow};

use afp_base::{Bytes, Code, NodeId, OutOfMemory, SessionNumber, VolumeId};
use afp_core_state::{State, refused, told_of};
use afp_names::Path;
use afp_serial::{Outcome, Told};
use record_keeper::Keeper;
use volume_keeper::ListAsked;

/// Lists a directory of a volume that the session has open, with entries whose lengths are of one byte.
pub fn enumerate<K: Keeper>(
    state: &State<K>,
    session: SessionNumber,
    volume: VolumeId,
    dir: NodeId,
    file_bits: u16,
    dir_bits: u16,
    count: u16,
    start: u16,
    size: u16,
    path: &Path,
) -> Result<(Told, Outcome), OutOfMemory>
    ensures { RunsRow state.now session.0 (Call.Enumerate volume dir file_bits dir_bits count start size path.now) result state.now }
{
    let asked = ListAsked {
        wide: false,
        user: state.user(session),
        file_bits,
        dir_bits,
        count,
        start: u32::from(start),
        size: u32::from(size),
    };
    list(state, session, volume, dir, asked, path)
}

/// The same with lengths of two bytes.
pub fn enumerate_ext<K: Keeper>(
    state: &State<K>,
    session: SessionNumber,
    volume: VolumeId,
    dir: NodeId,
    file_bits: u16,
    dir_bits: u16,
    count: u16,
    start: u16,
    size: u16,
    path: &Path,
) -> Result<(Told, Outcome), OutOfMemory>
    ensures { RunsRow state.now session.0 (Call.EnumerateExt volume dir file_bits dir_bits count start size path.now) result state.now }
{
    let asked = ListAsked {
        wide: true,
        user: state.user(session),
        file_bits,
        dir_bits,
        count,
        start: u32::from(start),
        size: u32::from(size),
    };
    list(state, session, volume, dir, asked, path)
}

/// The same, from any index and up to any size.
pub fn enumerate_ext2<K: Keeper>(
    state: &State<K>,
    session: SessionNumber,
    volume: VolumeId,
    dir: NodeId,
    file_bits: u16,
    dir_bits: u16,
    count: u16,
    start: u32,
    size: u32,
    path: &Path,
) -> Result<(Told, Outcome), OutOfMemory>
    ensures { RunsRow state.now session.0 (Call.EnumerateExt2 volume dir file_bits dir_bits count start size path.now) result state.now }
{
    let asked = ListAsked {
        wide: true,
        user: state.user(session),
        file_bits,
        dir_bits,
        count,
        start,
        size,
    };
    list(state, session, volume, dir, asked, path)
}

/// What the three share: a call whose row is this list, which the session's user asks.
fn list<K: Keeper>(
    state: &State<K>,
    session: SessionNumber,
    volume: VolumeId,
    dir: NodeId,
    asked: ListAsked,
    path: &Path,
) -> Result<(Told, Outcome), OutOfMemory>
    ensures { (call : Call) (asks : ℕ → AskedOf) → row call ≡ lists volume.0 asks dir.0 path.now → ends_session call ≡ false → IsUser state.now session.0 asked.user → asks asked.user ≡ asked → RunsRow state.now session.0 call result state.now }
{
    let Some(index) = state.opened(session, volume) else {
        return Ok((refused(state.alloc, Code::ParamErr), Outcome::Done));
    };
    let opens = state.forks.on(volume);
    let mut block = Bytes::new(state.alloc);
    let answer = state
        .kept_at(index)
        .list(state.alloc, &opens, asked, dir, path, &mut block);
    told_of(state.alloc, answer, block)
}
