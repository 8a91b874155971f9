//! `unlock REFERENCE FROM LENGTH`.
ghost use Rattle.std.specs.Prelude.{◌<◌, ◌^◌};
ghost use Rattle.client_script_commands.specs.parts.Parts.{Comes};
ghost use Rattle.client_script_commands.specs.commands.Unlock.{unlock};

use crate::commands::replies::ask_start;
use crate::parts::{Asker, Stop, parts_end};
use afp_base::{Bytes, ForkRef};
use client_script_lines::{calls, numbered};
use std::alloc::Global;

/// `unlock REFERENCE FROM LENGTH`.
pub fn unlock<A: Asker>(
    alloc: Global,
    asker: &mut A,
    reference: ForkRef,
    from: u64,
    size: u64,
) -> Result<Bytes, Stop<A::End>>
    requires from { from < 2 ^ 63 }
    requires size { size < 2 ^ 63 }
    ensures { Comes (A.exchanges asker.old) (unlock reference from size) result (A.exchanges asker.new) }
{
    parts_end::<A>();
    let start = ask_start(asker, calls::unlock(reference, from, size))?;
    Ok(numbered(alloc, b"start ", start)?)
}
