//! `mkdir PATH`.
ghost use Rattle.client_script_commands.specs.parts.Parts.{Comes};
ghost use Rattle.client_script_commands.specs.commands.Mkdir.{mkdir};
ghost use Rattle.client_script_lines.specs.calls.Places.{IsPlace};

use crate::commands::replies::ask_node;
use crate::parts::{Asker, Stop, parts_end};
use afp_base::{Bytes, VolumeId};
use client_script_lines::{calls, numbered};
use std::alloc::Global;

/// `mkdir PATH`.
pub fn mkdir<A: Asker>(
    alloc: Global,
    asker: &mut A,
    volume: VolumeId,
    path: &[u8],
) -> Result<Bytes, Stop<A::End>>
    requires { IsPlace path.now }
    ensures { Comes (A.exchanges asker.old) (mkdir volume path.now) result (A.exchanges asker.new) }
{
    parts_end::<A>();
    let id = ask_node(asker, calls::create_dir(alloc, volume, path)?)?;
    Ok(numbered(alloc, b"dir ", u64::from(id))?)
}
