//! Requests that the client asks beside those of a script.
ghost use Rattle.std.specs.Prelude.{◌≡◌, ◌≤◌, ◌<◌, length, IfOk, OnOk};
ghost use Rattle.afp_names.specs.Path.{canonical_path};
ghost use Rattle.client_script_lines.specs.calls.Asked.{IsAskable};
ghost use Rattle.client_script_lines.specs.calls.Places.{IsPlace};

use afp_base::{Bytes, ForkRef, NodeId, OutOfMemory, VolumeId};
use afp_calls_grammar::Call;
use afp_names::{Path, UTF8_NAMES};
use std::alloc::Global;

/// The root of a volume.
const ROOT: NodeId = NodeId(2);

/// What is asked of files: attributes, dates, Finder info, id, both lengths, name.
const FILE_BITS: u16 = 0x693d;

/// What is asked of directories: attributes, dates, Finder info, id, offspring, owner, group, rights, name.
const DIR_BITS: u16 = 0x3f3d;

/// The path that bytes spell.
fn path_of(alloc: Global, text: &[u8]) -> Result<Path, OutOfMemory>
    requires { IsPlace text.now }
    ensures { IfOk result (λ path. length (canonical_path path) ≤ 4096) }
{
    match Path::read(alloc, UTF8_NAMES, text) {
        Ok(path) => Ok(path),
        Err(_) => Err(OutOfMemory),
    }
}

/// FPGetFileDirParms, which asks all that is shown of a file or a directory.
#[tactic(auto, using(crate::proofs::AskableLemmas::askable_get))]
pub(crate) fn get_entry(
    alloc: Global,
    volume: VolumeId,
    path: &[u8],
) -> Result<Call<'static>, OutOfMemory>
    requires { IsPlace path.now }
    ensures { IfOk result (λ call. IsAskable call) }
{
    Ok(Call::GetFileDirParms {
        volume,
        dir: ROOT,
        file_bits: FILE_BITS,
        dir_bits: DIR_BITS,
        path: path_of(alloc, path)?,
    })
}

/// FPEnumerateExt2 of entries from this one on, from 1, which asks the same of each.
#[tactic(auto, using(crate::proofs::AskableLemmas::askable_list))]
pub(crate) fn list_entries(
    alloc: Global,
    volume: VolumeId,
    path: &[u8],
    start: u32,
) -> Result<Call<'static>, OutOfMemory>
    requires { IsPlace path.now }
    ensures { IfOk result (λ call. IsAskable call) }
{
    Ok(Call::EnumerateExt2 {
        volume,
        dir: ROOT,
        file_bits: FILE_BITS,
        dir_bits: DIR_BITS,
        count: 256,
        start,
        size: 65_536,
        path: path_of(alloc, path)?,
    })
}

/// FPCreateFile, where none is.
#[tactic(auto, using(crate::proofs::AskableLemmas::askable_create))]
pub(crate) fn create_file(
    alloc: Global,
    volume: VolumeId,
    path: &[u8],
) -> Result<Call<'static>, OutOfMemory>
    requires { IsPlace path.now }
    ensures { IfOk result (λ call. IsAskable call) }
{
    Ok(Call::CreateFile {
        flag: 0,
        volume,
        dir: ROOT,
        path: path_of(alloc, path)?,
    })
}

/// The four bytes of a number.
fn four_bytes(alloc: Global, number: u32) -> Result<Bytes, OutOfMemory>
    ensures { IfOk result (λ tail. length tail ≤ 44) }
{
    let mut tail = Bytes::new(alloc);
    tail.push_u32(number)?;
    Ok(tail)
}

/// FPSetForkParms, which makes a fork empty: the data fork's bit is 0x0200, the resource fork's 0x0400.
#[tactic(auto, using(crate::proofs::AskableLemmas::askable_set_fork))]
pub(crate) fn empty_fork(
    alloc: Global,
    reference: ForkRef,
    resource: bool,
) -> Result<Call<'static>, OutOfMemory>
    ensures { IfOk result (λ call. IsAskable call) }
{
    let bits = if resource { 0x0400 } else { 0x0200 };
    Ok(Call::SetForkParms {
        reference,
        bits,
        tail: four_bytes(alloc, 0)?,
    })
}

/// FPSetFileDirParms of the modification date.
#[tactic(auto, using(crate::proofs::AskableLemmas::askable_set_date))]
pub(crate) fn set_modified(
    alloc: Global,
    volume: VolumeId,
    path: &[u8],
    date: i32,
) -> Result<Call<'static>, OutOfMemory>
    requires { IsPlace path.now }
    ensures { IfOk result (λ call. IsAskable call) }
{
    Ok(Call::SetFileDirParms {
        volume,
        dir: ROOT,
        bits: 0x0008,
        path: path_of(alloc, path)?,
        tail: four_bytes(alloc, date.cast_unsigned())?,
    })
}

/// FPGetVolParms, which asks the bytes in all and those that are free.
#[tactic(auto, using(crate::proofs::AskableLemmas::askable_room))]
pub(crate) fn get_room(volume: VolumeId) -> Call<'static>
    ensures { IsAskable result }
{
    Call::GetVolParms {
        volume,
        bits: 0x0600,
    }
}

/// FPGetSrvrParms, which asks the volumes.
#[tactic(auto, using(crate::proofs::AskableLemmas::askable_volumes))]
pub(crate) fn get_volumes() -> Call<'static>
    ensures { IsAskable result }
{
    Call::GetSrvrParms
}
