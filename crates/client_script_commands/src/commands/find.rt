//! `find ID`.
ghost use Rattle.client_script_commands.specs.parts.Parts.{Comes};
ghost use Rattle.client_script_commands.specs.commands.Find.{find};

use crate::commands::replies::ask_name;
use crate::parts::{Asker, Stop, parts_end};
use afp_base::{Bytes, NodeId, VolumeId};
use client_script_lines::{calls, worded};
use std::alloc::Global;

/// `find ID`.
pub fn find<A: Asker>(
    alloc: Global,
    asker: &mut A,
    volume: VolumeId,
    id: NodeId,
) -> Result<Bytes, Stop<A::End>>
    ensures { Comes (A.exchanges asker.old) (find volume id) result (A.exchanges asker.new) }
{
    parts_end::<A>();
    let name = ask_name(asker, calls::resolve(volume, id))?;
    Ok(worded(alloc, b"name ", name.as_slice())?)
}
