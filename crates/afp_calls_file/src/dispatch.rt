//! The requests about files, by their numbers and by their names.
ghost use Rattle.afp_calls_grammar.specs.grammar.Call.{IsSpellable};
ghost use Rattle.afp_calls_grammar.specs.grammar.Group.{File};
ghost use Rattle.afp_calls_grammar.specs.grammar.Readers.{file_readers};
ghost use Rattle.afp_calls_grammar.specs.fields.Taking.{GivesBy};
ghost use Rattle.afp_calls_grammar.specs.fields.Putting.{WritesCall};

use crate::file::{
    read_copy_file, read_create_file, read_exchange_files, read_set_file_parms, write_copy_file,
    write_create_file, write_exchange_files, write_set_file_parms,
};
use crate::file_id::{
    read_create_id, read_delete_id, read_resolve_id, write_create_id, write_delete_id,
    write_resolve_id,
};
use afp_base::{Bytes, OutOfMemory};
use afp_calls_grammar::grammar::commands::{
    COPY_FILE, CREATE_FILE, CREATE_ID, DELETE_ID, EXCHANGE_FILES, RESOLVE_ID, SET_FILE_PARMS,
};
use afp_calls_grammar::{Call, Fields, ReadFault};
use std::alloc::Global;

/// Reads the request of that number, whose fields stand behind it; `Param` where no spelling of it
/// fits, or where none of these requests has the number.
pub fn read_file_call<'a>(
    alloc: Global,
    command: u8,
    fields: &mut Fields<'a>,
) -> Result<Call<'a>, ReadFault>
    ensures { GivesBy file_readers command fields.old result }
{
    match command {
        CREATE_FILE => read_create_file(alloc, fields),
        COPY_FILE => read_copy_file(alloc, fields),
        SET_FILE_PARMS => read_set_file_parms(alloc, fields),
        EXCHANGE_FILES => read_exchange_files(alloc, fields),
        CREATE_ID => read_create_id(alloc, fields),
        DELETE_ID => read_delete_id(fields),
        RESOLVE_ID => read_resolve_id(fields),
        _ => Err(ReadFault::Param),
    }
}

/// Appends the canonical block of a request; `None` where it is none of these. An error keeps what
/// stood there, and may leave some of the block behind it.
pub fn write_file_call(
    alloc: Global,
    out: &mut Bytes,
    call: &Call,
) -> Option<Result<(), OutOfMemory>>
    requires { IsSpellable call.now }
    ensures { WritesCall File call.now result out.old out.new }
{
    match call {
        Call::CreateFile {
            flag,
            volume,
            dir,
            path,
        } => Some(write_create_file(alloc, out, *flag, *volume, *dir, path)),
        Call::CopyFile {
            volume,
            dir,
            target_volume,
            target_dir,
            path,
            target_path,
            new_path,
        } => Some(write_copy_file(
            alloc,
            out,
            *volume,
            *dir,
            *target_volume,
            *target_dir,
            path,
            target_path,
            new_path,
        )),
        Call::SetFileParms {
            volume,
            dir,
            bits,
            path,
            tail,
        } => Some(write_set_file_parms(alloc, out, *volume, *dir, *bits, path, tail)),
        Call::ExchangeFiles {
            volume,
            dir,
            second_dir,
            path,
            second_path,
        } => Some(write_exchange_files(alloc, out, *volume, *dir, *second_dir, path, second_path)),
        Call::CreateID { volume, dir, path } => Some(write_create_id(
            alloc, out, *volume, *dir, path,
        )),
        Call::DeleteID { volume, id } => Some(write_delete_id(out, *volume, *id)),
        Call::ResolveID { volume, id, bits } => Some(write_resolve_id(out, *volume, *id, *bits)),
        _ => None,
    }
}
