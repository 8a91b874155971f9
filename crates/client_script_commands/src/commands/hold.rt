//! `hold PATH`: the fork stays open.
ghost use Rattle.client_script_commands.specs.parts.Parts.{Comes};
ghost use Rattle.client_script_commands.specs.commands.Hold.{hold};
ghost use Rattle.client_script_lines.specs.calls.Places.{IsPlace};

use crate::commands::replies::ask_fork;
use crate::parts::{Asker, Stop, parts_end};
use afp_base::{Bytes, VolumeId};
use client_script_lines::{calls, numbered};
use std::alloc::Global;

/// `hold PATH`: the fork stays open.
pub fn hold<A: Asker>(
    alloc: Global,
    asker: &mut A,
    volume: VolumeId,
    path: &[u8],
) -> Result<Bytes, Stop<A::End>>
    requires { IsPlace path.now }
    ensures { Comes (A.exchanges asker.old) (hold volume path.now) result (A.exchanges asker.new) }
{
    parts_end::<A>();
    let reference = ask_fork(asker, calls::open_fork(alloc, volume, 3, path)?)?;
    Ok(numbered(alloc, b"ref ", u64::from(reference.0))?)
}
