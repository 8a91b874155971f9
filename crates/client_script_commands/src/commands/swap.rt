//! `swap PATH TARGET`.
ghost use Rattle.client_script_commands.specs.parts.Parts.{Comes};
ghost use Rattle.client_script_commands.specs.commands.Swap.{swap};
ghost use Rattle.client_script_lines.specs.calls.Places.{IsPlace};

use crate::parts::{Asker, Stop, must_do, parts_end};
use afp_base::{Bytes, VolumeId};
use client_script_lines::calls;
use std::alloc::Global;

/// `swap PATH TARGET`.
pub fn swap<A: Asker>(
    alloc: Global,
    asker: &mut A,
    volume: VolumeId,
    path: &[u8],
    target: &[u8],
) -> Result<Bytes, Stop<A::End>>
    requires path { IsPlace path.now }
    requires target { IsPlace target.now }
    ensures { Comes (A.exchanges asker.old) (swap volume path.now target.now) result (A.exchanges asker.new) }
{
    parts_end::<A>();
    must_do(asker, calls::exchange(alloc, volume, path, target)?)?;
    Ok(Bytes::of(alloc, b"ok")?)
}
