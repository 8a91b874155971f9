//! `unpack PATH HEX`.
ghost use Rattle.std.specs.Prelude.{◌≤◌, length};
ghost use Rattle.client_script_lines.specs.calls.Places.{IsPlace, longest_place};
ghost use Rattle.client_script_commands.specs.parcels.Unpack.{unpack, unpack_file};
ghost use Rattle.client_script_commands.specs.parcels.lemma.Telling.{FitsLine};
ghost use Rattle.client_script_commands.specs.parts.Parts.{Comes};

use crate::parcels::held::parcel_of;
use crate::parcels::printed::bad_parcel;
use crate::parcels::writes::{make_file, set_parms, write_comment, write_data, write_resource};
use crate::parts::{Asker, Stop, parts_end};
use afp_base::{Bytes, VolumeId};
use apple_double::Parcel;
use client_script_lines::numbered;
use std::alloc::Global;

/// Makes the file, writes its forks, and sets its dates, its Finder information and its comment.
#[tactic(auto, unfolding(crate::specs::parcels::Unpack::unpack_file))]
fn unpack_file<A: Asker>(
    alloc: Global,
    asker: &mut A,
    volume: VolumeId,
    path: &[u8],
    p: &Parcel,
) -> Result<Bytes, Stop<A::End>>
    requires path { IsPlace path.now }
    requires fits { FitsLine p.now }
    ensures { Comes (A.exchanges asker.old) (unpack_file volume path.now p.now) result (A.exchanges asker.new) }
{
    parts_end::<A>();
    make_file(alloc, asker, volume, path)?;
    let data_fork = p.data_fork.as_slice();
    write_data(alloc, asker, volume, path, data_fork)?;
    let resource_fork = p.resource_fork.as_slice();
    write_resource(alloc, asker, volume, path, resource_fork)?;
    set_parms(alloc, asker, volume, path, p)?;
    write_comment(alloc, asker, volume, path, &p.comment)?;
    let size = (data_fork.len() + resource_fork.len()) as u64;
    Ok(numbered(alloc, b"unpacked ", size)?)
}

/// `unpack PATH HEX`, of the bytes that the digits spell.
pub fn unpack<A: Asker>(
    alloc: Global,
    asker: &mut A,
    volume: VolumeId,
    path: &[u8],
    bytes: &[u8],
) -> Result<Bytes, Stop<A::End>>
    requires path { IsPlace path.now }
    requires bytes { length bytes.now ≤ longest_place }
    ensures { Comes (A.exchanges asker.old) (unpack volume path.now bytes.now) result (A.exchanges asker.new) }
{
    parts_end::<A>();
    match parcel_of(alloc, bytes)? {
        Some(parcel) => unpack_file(alloc, asker, volume, path, &parcel),
        None => Ok(bad_parcel(alloc)?),
    }
}
