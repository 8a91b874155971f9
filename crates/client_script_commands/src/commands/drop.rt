//! `drop REFERENCE`.
ghost use Rattle.client_script_commands.specs.parts.Parts.{Comes};
ghost use Rattle.client_script_commands.specs.commands.Drop.{drop};

use crate::parts::{Asker, Stop, must_do, parts_end};
use afp_base::{Bytes, ForkRef};
use client_script_lines::calls;
use std::alloc::Global;

/// `drop REFERENCE`.
pub fn drop<A: Asker>(
    alloc: Global,
    asker: &mut A,
    reference: ForkRef,
) -> Result<Bytes, Stop<A::End>>
    ensures { Comes (A.exchanges asker.old) (drop reference) result (A.exchanges asker.new) }
{
    parts_end::<A>();
    must_do(asker, calls::close_fork(reference))?;
    Ok(Bytes::of(alloc, b"ok")?)
}
