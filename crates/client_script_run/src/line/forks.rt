//! Commands on open forks.
ghost use Rattle.client_script_commands.specs.commands.Drop.{drop};
ghost use Rattle.client_script_commands.specs.commands.Lock.{lock};
ghost use Rattle.client_script_commands.specs.commands.Unlock.{unlock};
ghost use Rattle.client_script_commands.specs.parts.Parts.{Comes};
ghost use Rattle.client_script_run.specs.line.Run.{fork_of};
ghost use Rattle.client_script_run.specs.line.Values.{number_of};

use crate::line::values::number_of;
use afp_base::{Bytes, ForkRef};
use client_script_commands::{Asker, Stop, commands, parts_end};
use client_script_lines::{LAST_PLACE, LAST_REFERENCE};
use std::alloc::Global;

/// `lock REFERENCE FROM LENGTH`.
pub(crate) fn run_lock<A: Asker>(
    alloc: Global,
    asker: &mut A,
    reference: &[u8],
    from: &[u8],
    size: &[u8],
) -> Result<Bytes, Stop<A::End>>
    ensures { Comes (A.exchanges asker.old) (lock (fork_of reference.now) (number_of from.now) (number_of size.now)) result (A.exchanges asker.new) }
{
    parts_end::<A>();
    let number = number_of(reference, LAST_REFERENCE)?;
    let from = number_of(from, LAST_PLACE)?;
    let size = number_of(size, LAST_PLACE)?;
    commands::lock::lock(alloc, asker, ForkRef(number as u16), from, size)
}

/// `unlock REFERENCE FROM LENGTH`.
pub(crate) fn run_unlock<A: Asker>(
    alloc: Global,
    asker: &mut A,
    reference: &[u8],
    from: &[u8],
    size: &[u8],
) -> Result<Bytes, Stop<A::End>>
    ensures { Comes (A.exchanges asker.old) (unlock (fork_of reference.now) (number_of from.now) (number_of size.now)) result (A.exchanges asker.new) }
{
    parts_end::<A>();
    let number = number_of(reference, LAST_REFERENCE)?;
    let from = number_of(from, LAST_PLACE)?;
    let size = number_of(size, LAST_PLACE)?;
    commands::unlock::unlock(alloc, asker, ForkRef(number as u16), from, size)
}

/// `drop REFERENCE`.
pub(crate) fn run_drop<A: Asker>(
    alloc: Global,
    asker: &mut A,
    reference: &[u8],
) -> Result<Bytes, Stop<A::End>>
    ensures { Comes (A.exchanges asker.old) (drop (fork_of reference.now)) result (A.exchanges asker.new) }
{
    parts_end::<A>();
    let number = number_of(reference, LAST_REFERENCE)?;
    commands::drop::drop(alloc, asker, ForkRef(number as u16))
}
