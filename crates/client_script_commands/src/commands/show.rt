//! `show PATH`.
ghost use Rattle.client_script_commands.specs.parts.Parts.{Comes};
ghost use Rattle.client_script_commands.specs.commands.Show.{show};
ghost use Rattle.client_script_lines.specs.calls.Places.{IsPlace};

use crate::commands::replies::{ask_comment, ask_desk};
use crate::parts::{Asker, Stop, parts_end};
use afp_base::{Bytes, VolumeId};
use client_script_lines::{calls, worded};
use std::alloc::Global;

/// `show PATH`.
pub fn show<A: Asker>(
    alloc: Global,
    asker: &mut A,
    volume: VolumeId,
    path: &[u8],
) -> Result<Bytes, Stop<A::End>>
    requires { IsPlace path.now }
    ensures { Comes (A.exchanges asker.old) (show volume path.now) result (A.exchanges asker.new) }
{
    parts_end::<A>();
    let dt = ask_desk(asker, calls::open_desk(volume))?;
    let comment = ask_comment(asker, calls::get_comment(alloc, dt, path)?)?;
    Ok(worded(alloc, b"note ", comment.as_slice())?)
}
