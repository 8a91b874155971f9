//! `id PATH`.
ghost use Rattle.client_script_commands.specs.parts.Parts.{Comes};
ghost use Rattle.client_script_commands.specs.commands.Id.{id};
ghost use Rattle.client_script_lines.specs.calls.Places.{IsPlace};

use crate::commands::replies::ask_id;
use crate::parts::{Asker, Stop, parts_end};
use afp_base::{Bytes, VolumeId};
use client_script_lines::{calls, numbered};
use std::alloc::Global;

/// `id PATH`.
pub fn id<A: Asker>(
    alloc: Global,
    asker: &mut A,
    volume: VolumeId,
    path: &[u8],
) -> Result<Bytes, Stop<A::End>>
    requires { IsPlace path.now }
    ensures { Comes (A.exchanges asker.old) (id volume path.now) result (A.exchanges asker.new) }
{
    parts_end::<A>();
    let id = ask_id(asker, calls::get_id(alloc, volume, path)?)?;
    Ok(numbered(alloc, b"id ", u64::from(id))?)
}
