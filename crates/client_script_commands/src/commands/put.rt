//! `put PATH BYTES`.
ghost use Rattle.std.specs.Prelude.{◌≤◌, length};
ghost use Rattle.client_script_commands.specs.parts.Parts.{Comes};
ghost use Rattle.client_script_commands.specs.commands.Put.{put};
ghost use Rattle.client_script_lines.specs.calls.Places.{IsPlace, longest_place};

use crate::commands::replies::ask_fork;
use crate::parts::{Asker, Stop, in_fork, must_do, parts_end};
use afp_base::{Bytes, VolumeId};
use client_script_lines::{calls, numbered};
use std::alloc::Global;

/// `put PATH BYTES`.
pub fn put<A: Asker>(
    alloc: Global,
    asker: &mut A,
    volume: VolumeId,
    path: &[u8],
    piece: &[u8],
) -> Result<Bytes, Stop<A::End>>
    requires path { IsPlace path.now }
    requires piece { length piece.now ≤ longest_place }
    ensures { Comes (A.exchanges asker.old) (put volume path.now piece.now) result (A.exchanges asker.new) }
{
    parts_end::<A>();
    must_do(asker, calls::create_file(alloc, volume, path)?)?;
    let reference = ask_fork(asker, calls::open_fork(alloc, volume, 0x22, path)?)?;
    in_fork(asker, reference, calls::write(reference, piece))?;
    must_do(asker, calls::close_fork(reference))?;
    Ok(numbered(alloc, b"put ", piece.len() as u64)?)
}
