//! The parameters of a volume.
ghost use Rattle.std.specs.Prelude.{◌≡◌, ◌++◌, ◌<◌, IfOk, OnOk, OnErr, length};
ghost use Rattle.afp_bitmap.specs.Bits.{IsWithin, volume_mask};
ghost use Rattle.afp_bitmap.specs.Params.{params};
ghost use Rattle.afp_bitmap.specs.declared.params.Values.TheVariants as told;
ghost use Rattle.volume_spec.specs.GetVolParms.{free_bytes, volume_values};

use crate::replies::asked::{date_or, long_or, short_or, wide_or};
use crate::replies::names::name_or;
use afp_base::{Bytes, MOST_FORK_BYTES, OutOfMemory, VolumeId};
use afp_bitmap::{Values, VolumeValues, put_params};
use fork_bytes::BLOCK_SIZE;
use std::alloc::Global;
use volume_tree::Volume;

/// The attributes of each volume: it has file ids, and names in UTF-8 (AFP Reference, "Volume Attributes Bitmap").
const ATTRIBUTES: u16 = 0x0044;

/// The signature of a volume with fixed directory ids (AFP Reference, "Volume Signature").
const FIXED_DIRECTORY_IDS: u16 = 2;

/// The bytes that forks may still take.
#[tactic(auto, unfolding(volume_spec::specs::GetVolParms::free_bytes))]
fn free_bytes(volume: &Volume) -> u32
    ensures { result ≡ free_bytes volume.now.state }
{
    volume.keeps_sound();
    (MOST_FORK_BYTES - volume.used()) as u32
}

/// What is told of a volume: each value whose bit is asked.
#[tactic(auto, unfolding(volume_spec::specs::GetVolParms::volume_values))]
fn volume_values(
    alloc: Global,
    volume: &Volume,
    id: VolumeId,
    bits: u16,
) -> Result<VolumeValues, OutOfMemory>
    ensures values { IfOk result (λ values. values ≡ volume_values volume.now.state id.0 bits) }
    ensures short { IfOk result (λ values. length values.name < 256) }
{
    let head = volume.head();
    let free = free_bytes(volume);
    let name = name_or(alloc, bits, 8, volume.name())?;
    Ok(VolumeValues {
        attributes: short_or(bits, 0, ATTRIBUTES),
        signature: short_or(bits, 1, FIXED_DIRECTORY_IDS),
        created: date_or(bits, 2, head.created),
        modified: date_or(bits, 3, head.modified),
        backup: date_or(bits, 4, head.backup),
        volume: short_or(bits, 5, id.0),
        free: long_or(bits, 6, free),
        total: long_or(bits, 7, MOST_FORK_BYTES as u32),
        name,
        ext_free: wide_or(bits, 9, u64::from(free)),
        ext_total: wide_or(bits, 10, MOST_FORK_BYTES),
        block_size: long_or(bits, 11, BLOCK_SIZE as u32),
    })
}

/// Appends the parameters of a volume that has this id (AFP Reference, "FPGetVolParms"). An error changes nothing.
pub fn volume_params(
    alloc: Global,
    volume: &Volume,
    id: VolumeId,
    bits: u16,
    out: &mut Bytes,
) -> Result<(), OutOfMemory>
    requires { IsWithin volume_mask bits }
    ensures ok { OnOk result (out.new ≡ out.old ++ params bits (told.Volume (volume_values volume.now.state id.0 bits))) }
    ensures err { OnErr result (out.new ≡ out.old) }
{
    let values = volume_values(alloc, volume, id, bits)?;
    put_params(bits, &Values::Volume(values), out)
}
