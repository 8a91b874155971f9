//! The requests about open forks, by their numbers and by their names.
ghost use Rattle.afp_calls_grammar.specs.grammar.Call.{IsSpellable};
ghost use Rattle.afp_calls_grammar.specs.grammar.Group.{Fork};
ghost use Rattle.afp_calls_grammar.specs.grammar.Readers.{fork_readers};
ghost use Rattle.afp_calls_grammar.specs.fields.Taking.{GivesBy};
ghost use Rattle.afp_calls_grammar.specs.fields.Putting.{WritesCall};

use crate::fork::{
    read_close_fork, read_flush_fork, read_get_fork_parms, read_open_fork, read_set_fork_parms,
    write_close_fork, write_flush_fork, write_get_fork_parms, write_open_fork,
    write_set_fork_parms,
};
use crate::fork_bytes::{
    read_read, read_read_ext, read_write, read_write_ext, write_read, write_read_ext, write_write,
    write_write_ext,
};
use crate::lock::{
    read_byte_range_lock, read_byte_range_lock_ext, write_byte_range_lock,
    write_byte_range_lock_ext,
};
use afp_base::{Bytes, OutOfMemory};
use afp_calls_grammar::grammar::commands::{
    BYTE_RANGE_LOCK, BYTE_RANGE_LOCK_EXT, CLOSE_FORK, FLUSH_FORK, GET_FORK_PARMS, OPEN_FORK, READ,
    READ_EXT, SET_FORK_PARMS, WRITE, WRITE_EXT,
};
use afp_calls_grammar::{Call, Fields, ReadFault};
use std::alloc::Global;

/// Reads the request of that number, whose fields stand behind it; `Param` where no spelling of it
/// fits, or where none of these requests has the number.
pub fn read_fork_call<'a>(
    alloc: Global,
    command: u8,
    fields: &mut Fields<'a>,
) -> Result<Call<'a>, ReadFault>
    ensures { GivesBy fork_readers command fields.old result }
{
    match command {
        OPEN_FORK => read_open_fork(alloc, fields),
        CLOSE_FORK => read_close_fork(fields),
        FLUSH_FORK => read_flush_fork(fields),
        GET_FORK_PARMS => read_get_fork_parms(fields),
        SET_FORK_PARMS => read_set_fork_parms(alloc, fields),
        READ => read_read(fields),
        READ_EXT => read_read_ext(fields),
        WRITE => read_write(fields),
        WRITE_EXT => read_write_ext(fields),
        BYTE_RANGE_LOCK => read_byte_range_lock(fields),
        BYTE_RANGE_LOCK_EXT => read_byte_range_lock_ext(fields),
        _ => Err(ReadFault::Param),
    }
}

/// Appends the canonical block of a request; `None` where it is none of these. An error keeps what
/// stood there, and may leave some of the block behind it.
pub fn write_fork_call(
    alloc: Global,
    out: &mut Bytes,
    call: &Call,
) -> Option<Result<(), OutOfMemory>>
    requires { IsSpellable call.now }
    ensures { WritesCall Fork call.now result out.old out.new }
{
    match call {
        Call::OpenFork {
            flag,
            volume,
            dir,
            bits,
            mode,
            path,
        } => Some(write_open_fork(alloc, out, *flag, *volume, *dir, *bits, *mode, path)),
        Call::CloseFork { reference } => Some(write_close_fork(out, *reference)),
        Call::FlushFork { reference } => Some(write_flush_fork(out, *reference)),
        Call::GetForkParms { reference, bits } => Some(write_get_fork_parms(
            out, *reference, *bits,
        )),
        Call::SetForkParms {
            reference,
            bits,
            tail,
        } => Some(write_set_fork_parms(out, *reference, *bits, tail)),
        Call::Read {
            reference,
            offset,
            count,
            mask,
            character,
        } => Some(write_read(out, *reference, *offset, *count, *mask, *character)),
        Call::ReadExt {
            reference,
            offset,
            count,
        } => Some(write_read_ext(out, *reference, *offset, *count)),
        Call::Write {
            flag,
            reference,
            offset,
            count,
            ..
        } => Some(write_write(out, *flag, *reference, *offset, *count)),
        Call::WriteExt {
            flag,
            reference,
            offset,
            count,
            ..
        } => Some(write_write_ext(out, *flag, *reference, *offset, *count)),
        Call::ByteRangeLock {
            flags,
            reference,
            offset,
            length,
        } => Some(write_byte_range_lock(out, *flags, *reference, *offset, *length)),
        Call::ByteRangeLockExt {
            flags,
            reference,
            offset,
            length,
        } => Some(write_byte_range_lock_ext(out, *flags, *reference, *offset, *length)),
        _ => None,
    }
}
