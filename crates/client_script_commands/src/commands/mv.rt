//! `mv PATH TARGET`, where the target is a directory and a name in it.
ghost use Rattle.client_script_commands.specs.parts.Parts.{Comes};
ghost use Rattle.client_script_commands.specs.commands.Mv.{mv};
ghost use Rattle.client_script_lines.specs.calls.Places.{IsPlace};

use crate::parts::{Asker, Stop, must_do, parts_end};
use afp_base::{Bytes, VolumeId};
use client_script_lines::calls;
use std::alloc::Global;

/// `mv PATH TARGET`, where the target is a directory and a name in it.
pub fn mv<A: Asker>(
    alloc: Global,
    asker: &mut A,
    volume: VolumeId,
    path: &[u8],
    target: &[u8],
    name: &[u8],
) -> Result<Bytes, Stop<A::End>>
    requires path { IsPlace path.now }
    requires target { IsPlace target.now }
    requires name { IsPlace name.now }
    ensures { Comes (A.exchanges asker.old) (mv volume path.now target.now name.now) result (A.exchanges asker.new) }
{
    parts_end::<A>();
    must_do(asker, calls::move_to(alloc, volume, path, target, name)?)?;
    Ok(Bytes::of(alloc, b"ok")?)
}
