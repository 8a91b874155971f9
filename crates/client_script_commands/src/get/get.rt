//! `get PATH`.
ghost use Rattle.client_script_lines.specs.calls.Places.{IsPlace};
ghost use Rattle.client_script_commands.specs.get.Get.{get};
ghost use Rattle.client_script_commands.specs.parts.Parts.{Comes};

use crate::get::reads::read_fork;
use crate::parts::{Asker, Stop, parts_end};
use afp_base::{Bytes, VolumeId};
use client_script_lines::{calls, got_text};
use std::alloc::Global;

/// `get PATH`.
pub fn get<A: Asker>(
    alloc: Global,
    asker: &mut A,
    volume: VolumeId,
    path: &[u8],
) -> Result<Bytes, Stop<A::End>>
    requires { IsPlace path.now }
    ensures { Comes (A.exchanges asker.old) (get volume path.now) result (A.exchanges asker.new) }
{
    parts_end::<A>();
    let bytes = read_fork(alloc, asker, calls::open_fork(alloc, volume, 1, path)?)?;
    Ok(got_text(alloc, bytes.as_slice())?)
}
