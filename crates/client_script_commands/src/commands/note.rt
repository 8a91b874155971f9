//! `note PATH TEXT`.
ghost use Rattle.std.specs.Prelude.{◌<◌, length};
ghost use Rattle.client_script_commands.specs.parts.Parts.{Comes};
ghost use Rattle.client_script_commands.specs.commands.Note.{note};
ghost use Rattle.client_script_lines.specs.calls.Places.{IsPlace};

use crate::commands::replies::ask_desk;
use crate::parts::{Asker, Stop, must_do, parts_end};
use afp_base::{Bytes, VolumeId};
use client_script_lines::calls;
use std::alloc::Global;

/// `note PATH TEXT`.
pub fn note<A: Asker>(
    alloc: Global,
    asker: &mut A,
    volume: VolumeId,
    path: &[u8],
    text: &[u8],
) -> Result<Bytes, Stop<A::End>>
    requires path { IsPlace path.now }
    requires text { length text.now < 256 }
    ensures { Comes (A.exchanges asker.old) (note volume path.now text.now) result (A.exchanges asker.new) }
{
    parts_end::<A>();
    let dt = ask_desk(asker, calls::open_desk(volume))?;
    must_do(asker, calls::add_comment(alloc, dt, path, text)?)?;
    Ok(Bytes::of(alloc, b"ok")?)
}
