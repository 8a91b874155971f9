//! `rm PATH`.
ghost use Rattle.client_script_commands.specs.parts.Parts.{Comes};
ghost use Rattle.client_script_commands.specs.commands.Rm.{rm};
ghost use Rattle.client_script_lines.specs.calls.Places.{IsPlace};

use crate::parts::{Asker, Stop, must_do, parts_end};
use afp_base::{Bytes, VolumeId};
use client_script_lines::calls;
use std::alloc::Global;

/// `rm PATH`.
pub fn rm<A: Asker>(
    alloc: Global,
    asker: &mut A,
    volume: VolumeId,
    path: &[u8],
) -> Result<Bytes, Stop<A::End>>
    requires { IsPlace path.now }
    ensures { Comes (A.exchanges asker.old) (rm volume path.now) result (A.exchanges asker.new) }
{
    parts_end::<A>();
    must_do(asker, calls::delete(alloc, volume, path)?)?;
    Ok(Bytes::of(alloc, b"ok")?)
}
