//! FPOpenVol (AFP Reference, "FPOpenVol").
ghost use Rattle.std.specs.Prelude.{◌≡◌, ◌+◌, ◌<◌, ◌≤◌, if◌then◌else◌, IfOk, IfSome, MatchOption, None, Some, bytes_eq, length, option_map, position};
ghost use Rattle.afp_base.specs.declared.code.Code.{Code};
ghost use Rattle.afp_replies.specs.Replies.{canonical_reply};
ghost use Rattle.afp_calls_grammar.specs.declared.grammar.call.Call.{Call};
ghost use Rattle.afp_serial.specs.Limits.{most_volumes};
ghost use Rattle.afp_serial.specs.OpenVol.{open_vol_reply, state_named, volume_named};
ghost use Rattle.afp_serial.specs.World.{volume_at};
ghost use Rattle.volume_spec.specs.GetVolParms.{get_vol_parms_refusal};
ghost use Rattle.volume_spec.specs.VolumeState.{VolumeState};
ghost use Rattle.afp_core_calls.specs.volume.lemma.NamedVolume.{IsNamed};
ghost use Rattle.afp_core_state.specs.Running.{RunsRow};

use afp_base::{Bytes, Code, OutOfMemory, SessionNumber, VolumeId};
use afp_bitmap::{VolumeBits, is_outside};
use afp_core_state::{State, done, parms_room, refused};
use afp_serial::{Outcome, Told};
use record_keeper::Keeper;

/// Opens the volume of that name, and tells what the bits ask of it.
pub fn open_vol<K: Keeper>(
    state: &mut State<K>,
    session: SessionNumber,
    bits: u16,
    name: &[u8],
) -> Result<(Told, Outcome), OutOfMemory>
    ensures { RunsRow state.old session.0 (Call.OpenVol bits name.now) result state.new }
{
    if are_refused(bits) {
        return Ok((refused(state.alloc, Code::BitmapErr), Outcome::Done));
    }
    let Some(volume) = named(state, name) else {
        return Ok((refused(state.alloc, Code::ObjectNotFound), Outcome::Done));
    };
    let block = volume_block(state, volume, bits)?;
    state.sessions.open_volume(session, volume);
    Ok((done(block), Outcome::Done))
}

/// The id of the volume with exactly that name.
fn named<K: Keeper>(state: &State<K>, name: &[u8]) -> Option<VolumeId>
    ensures small { IfSome result (λ id. (1 ≤ id.0) × (id.0 ≤ most_volumes)) }
    ensures named { MatchOption result (state_named state.now.world (volume_named state.now.world name.now) ≡ None) (λ id. IsNamed state.now.world name.now id.0) }
{
    let volume = volume_named(state.house.volumes(), name)?;
    match state.index(volume) {
        Some(_) => Some(volume),
        None => None,
    }
}

/// What the bits ask of the volume of an id.
fn volume_block<K: Keeper>(
    state: &State<K>,
    volume: VolumeId,
    bits: u16,
) -> Result<Bytes, OutOfMemory>
    requires { get_vol_parms_refusal bits ≡ None }
    ensures { IfOk result (λ block. (v : VolumeState) → volume_at state.now.world.volumes volume.0 ≡ Some v → block ≡ canonical_reply (open_vol_reply bits volume.0 v)) }
{
    let mut block = parms_room(state.alloc)?;
    let Some(index) = state.index(volume) else {
        return Ok(block);
    };
    match state
        .kept_at(index)
        .get_vol_parms(state.alloc, volume, bits, &mut block)
    {
        Ok(()) => Ok(block),
        // The bits are not refused, so there was no memory.
        Err(_) => Err(OutOfMemory),
    }
}

/// Whether no bit is asked, or one that a volume has not (AFP Reference, "Volume Bitmap").
#[tactic(auto, unfolding(volume_spec::specs::GetVolParms::get_vol_parms_refusal))]
fn are_refused(bits: u16) -> bool
    ensures { get_vol_parms_refusal bits ≡ (if result then Some Code.BitmapErr else None) }
{
    is_outside(VolumeBits::MASK, bits) || bits == 0
}

/// The id of the volume with exactly that name. Ids count from 1, in the house's order.
fn volume_named(volumes: &[Bytes], name: &[u8]) -> Option<VolumeId>
    requires { length volumes.now ≤ most_volumes }
    ensures small { IfSome result (λ id. (1 ≤ id.0) × (id.0 ≤ most_volumes)) }
    ensures value { option_map (λ id. id.0) result ≡ option_map (λ index. index + 1) (position (λ other. bytes_eq other name.now) volumes.now) }
{
    match index_of(volumes, name) {
        Some(index) => Some(VolumeId(index as u16 + 1)),
        None => None,
    }
}

/// The place of the volume with exactly that name.
fn index_of(volumes: &[Bytes], name: &[u8]) -> Option<usize>
    ensures place { result ≡ position (λ other. bytes_eq other name.now) volumes.now }
    ensures within { IfSome result (λ index. index < length volumes.now) }
{
    volumes.iter().position(|other| other.as_slice() == name)
}
