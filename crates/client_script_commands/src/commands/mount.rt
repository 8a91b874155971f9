//! `mount VOLUME`.
ghost use Rattle.std.specs.Prelude.{◌<◌, length};
ghost use Rattle.client_script_commands.specs.parts.Parts.{Comes};
ghost use Rattle.client_script_commands.specs.commands.Mount.{mount};

use crate::commands::replies::ask_volume;
use crate::parts::{Asker, Stop, parts_end};
use afp_base::Bytes;
use client_script_lines::{calls, numbered};
use std::alloc::Global;

/// `mount VOLUME`.
pub fn mount<A: Asker>(alloc: Global, asker: &mut A, name: &[u8]) -> Result<Bytes, Stop<A::End>>
    requires { length name.now < 256 }
    ensures { Comes (A.exchanges asker.old) (mount name.now) result (A.exchanges asker.new) }
{
    parts_end::<A>();
    let volume = ask_volume(asker, calls::open_volume(alloc, name)?)?;
    Ok(numbered(alloc, b"mounted ", u64::from(volume.0))?)
}
