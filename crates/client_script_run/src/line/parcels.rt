//! `pack` and `unpack`, in a volume.
ghost use Rattle.afp_base.specs.declared.ids.VolumeId.{VolumeId};
ghost use Rattle.client_script_commands.specs.parcels.Pack.{pack};
ghost use Rattle.client_script_commands.specs.parcels.Unpack.{unpack};
ghost use Rattle.client_script_commands.specs.parts.Parts.{Comes};
ghost use Rattle.client_script_run.specs.line.Run.{in_volume};
ghost use Rattle.client_script_run.specs.line.Values.{path_text, spelt_text};

use crate::line::places::no_volume;
use crate::line::values::{path_of, spelt_of};
use afp_base::{Bytes, VolumeId};
use client_script_commands::parcels::pack::pack;
use client_script_commands::parcels::unpack::unpack;
use client_script_commands::{Asker, Stop, parts_end};
use std::alloc::Global;

/// `pack PATH`, in a volume.
pub(crate) fn run_pack<A: Asker>(
    alloc: Global,
    asker: &mut A,
    mounted: Option<VolumeId>,
    path: &[u8],
) -> Result<Bytes, Stop<A::End>>
    ensures { Comes (A.exchanges asker.old) (in_volume mounted (λ (volume : VolumeId). pack volume (path_text path.now))) result (A.exchanges asker.new) }
{
    parts_end::<A>();
    let Some(volume) = mounted else {
        return Ok(no_volume(alloc)?);
    };
    let path = path_of(alloc, path)?;
    pack(alloc, asker, volume, path.as_slice())
}

/// `unpack PATH HEX`, in a volume.
pub(crate) fn run_unpack<A: Asker>(
    alloc: Global,
    asker: &mut A,
    mounted: Option<VolumeId>,
    path: &[u8],
    digits: &[u8],
) -> Result<Bytes, Stop<A::End>>
    ensures { Comes (A.exchanges asker.old) (in_volume mounted (λ (volume : VolumeId). unpack volume (path_text path.now) (spelt_text digits.now))) result (A.exchanges asker.new) }
{
    parts_end::<A>();
    let Some(volume) = mounted else {
        return Ok(no_volume(alloc)?);
    };
    let path = path_of(alloc, path)?;
    let bytes = spelt_of(alloc, digits)?;
    unpack(alloc, asker, volume, path.as_slice(), bytes.as_slice())
}
