//! `bye`.
ghost use Rattle.client_script_commands.specs.parts.Parts.{Comes};
ghost use Rattle.client_script_commands.specs.commands.Bye.{bye};

use crate::parts::{Asker, Stop, must_do, parts_end};
use afp_base::Bytes;
use client_script_lines::calls;
use std::alloc::Global;

/// `bye`.
pub fn bye<A: Asker>(alloc: Global, asker: &mut A) -> Result<Bytes, Stop<A::End>>
    ensures { Comes (A.exchanges asker.old) (bye) result (A.exchanges asker.new) }
{
    parts_end::<A>();
    must_do(asker, calls::logout())?;
    Ok(Bytes::of(alloc, b"ok")?)
}
