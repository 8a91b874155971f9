//! The requests about directories, and on files and directories alike, by their numbers and by their names.
ghost use Rattle.afp_calls_grammar.specs.grammar.Call.{IsSpellable};
ghost use Rattle.afp_calls_grammar.specs.grammar.Group.{Directory};
ghost use Rattle.afp_calls_grammar.specs.grammar.Readers.{directory_readers};
ghost use Rattle.afp_calls_grammar.specs.fields.Taking.{GivesBy};
ghost use Rattle.afp_calls_grammar.specs.fields.Putting.{WritesCall};

use crate::directory::{
    read_close_dir, read_create_dir, read_open_dir, write_close_dir, write_create_dir,
    write_open_dir,
};
use crate::enumerate::{
    read_enumerate, read_enumerate_ext, read_enumerate_ext2, write_enumerate, write_enumerate_ext,
    write_enumerate_ext2,
};
use crate::parameters::{
    read_get_file_dir_parms, read_set_dir_parms, read_set_file_dir_parms, write_get_file_dir_parms,
    write_set_dir_parms, write_set_file_dir_parms,
};
use crate::place::{
    read_delete, read_move_and_rename, read_rename, write_delete, write_move_and_rename,
    write_rename,
};
use afp_base::{Bytes, OutOfMemory};
use afp_calls_grammar::grammar::commands::{
    CLOSE_DIR, CREATE_DIR, DELETE, ENUMERATE, ENUMERATE_EXT, ENUMERATE_EXT2, GET_FILE_DIR_PARMS,
    MOVE_AND_RENAME, OPEN_DIR, RENAME, SET_DIR_PARMS, SET_FILE_DIR_PARMS,
};
use afp_calls_grammar::{Call, Fields, ReadFault};
use std::alloc::Global;

/// Reads the request of that number, whose fields stand behind it; `Param` where no spelling of it
/// fits, or where none of these requests has the number.
pub fn read_directory_call<'a>(
    alloc: Global,
    command: u8,
    fields: &mut Fields<'a>,
) -> Result<Call<'a>, ReadFault>
    ensures { GivesBy directory_readers command fields.old result }
{
    match command {
        CREATE_DIR => read_create_dir(alloc, fields),
        OPEN_DIR => read_open_dir(alloc, fields),
        CLOSE_DIR => read_close_dir(fields),
        ENUMERATE => read_enumerate(alloc, fields),
        ENUMERATE_EXT => read_enumerate_ext(alloc, fields),
        ENUMERATE_EXT2 => read_enumerate_ext2(alloc, fields),
        SET_DIR_PARMS => read_set_dir_parms(alloc, fields),
        GET_FILE_DIR_PARMS => read_get_file_dir_parms(alloc, fields),
        SET_FILE_DIR_PARMS => read_set_file_dir_parms(alloc, fields),
        DELETE => read_delete(alloc, fields),
        RENAME => read_rename(alloc, fields),
        MOVE_AND_RENAME => read_move_and_rename(alloc, fields),
        _ => Err(ReadFault::Param),
    }
}

/// Appends the canonical block of a request; `None` where it is none of these. An error keeps what
/// stood there, and may leave some of the block behind it.
pub fn write_directory_call(
    alloc: Global,
    out: &mut Bytes,
    call: &Call,
) -> Option<Result<(), OutOfMemory>>
    requires { IsSpellable call.now }
    ensures { WritesCall Directory call.now result out.old out.new }
{
    match call {
        Call::CreateDir { volume, dir, path } => Some(write_create_dir(
            alloc, out, *volume, *dir, path,
        )),
        Call::OpenDir { volume, dir, path } => Some(write_open_dir(
            alloc, out, *volume, *dir, path,
        )),
        Call::CloseDir { volume, dir } => Some(write_close_dir(out, *volume, *dir)),
        Call::Enumerate {
            volume,
            dir,
            file_bits,
            dir_bits,
            count,
            start,
            size,
            path,
        } => Some(write_enumerate(
            alloc, out, *volume, *dir, *file_bits, *dir_bits, *count, *start, *size, path,
        )),
        Call::EnumerateExt {
            volume,
            dir,
            file_bits,
            dir_bits,
            count,
            start,
            size,
            path,
        } => Some(write_enumerate_ext(
            alloc, out, *volume, *dir, *file_bits, *dir_bits, *count, *start, *size, path,
        )),
        Call::EnumerateExt2 {
            volume,
            dir,
            file_bits,
            dir_bits,
            count,
            start,
            size,
            path,
        } => Some(write_enumerate_ext2(
            alloc, out, *volume, *dir, *file_bits, *dir_bits, *count, *start, *size, path,
        )),
        Call::SetDirParms {
            volume,
            dir,
            bits,
            path,
            tail,
        } => Some(write_set_dir_parms(alloc, out, *volume, *dir, *bits, path, tail)),
        Call::GetFileDirParms {
            volume,
            dir,
            file_bits,
            dir_bits,
            path,
        } => Some(write_get_file_dir_parms(alloc, out, *volume, *dir, *file_bits, *dir_bits, path)),
        Call::SetFileDirParms {
            volume,
            dir,
            bits,
            path,
            tail,
        } => Some(write_set_file_dir_parms(alloc, out, *volume, *dir, *bits, path, tail)),
        Call::Delete { volume, dir, path } => Some(write_delete(alloc, out, *volume, *dir, path)),
        Call::Rename {
            volume,
            dir,
            path,
            new_path,
        } => Some(write_rename(alloc, out, *volume, *dir, path, new_path)),
        Call::MoveAndRename {
            volume,
            dir,
            target_dir,
            path,
            target_path,
            new_path,
        } => Some(write_move_and_rename(
            alloc,
            out,
            *volume,
            *dir,
            *target_dir,
            path,
            target_path,
            new_path,
        )),
        _ => None,
    }
}
