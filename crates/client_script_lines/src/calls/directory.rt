//! Requests about directories and files.
ghost use Rattle.std.specs.Prelude.{◌≡◌, IfOk};
ghost use Rattle.client_script_lines.specs.calls.Asked.{IsAskable};
ghost use Rattle.client_script_lines.specs.calls.Places.{IsPlace};
ghost use Rattle.client_script_lines.specs.calls.Requests.{create_dir, create_file, delete, get_id, list};

use crate::calls::path::{ROOT, path_of};
use afp_base::{OutOfMemory, VolumeId};
use afp_calls_grammar::Call;
use std::alloc::Global;

/// FPCreateDir.
#[tactic(auto, using(crate::proofs::OfCalls::AskableLemmas::askable_create_dir))]
pub fn create_dir(
    alloc: Global,
    volume: VolumeId,
    path: &[u8],
) -> Result<Call<'static>, OutOfMemory>
    requires { IsPlace path.now }
    ensures call { IfOk result (λ call. call ≡ create_dir volume path.now) }
    ensures askable { IfOk result (λ call. IsAskable call) }
{
    Ok(Call::CreateDir {
        volume,
        dir: ROOT,
        path: path_of(alloc, path)?,
    })
}

/// FPCreateFile, in place of a file that is there.
#[tactic(auto, using(crate::proofs::OfCalls::AskableLemmas::askable_create_file))]
pub fn create_file(
    alloc: Global,
    volume: VolumeId,
    path: &[u8],
) -> Result<Call<'static>, OutOfMemory>
    requires { IsPlace path.now }
    ensures call { IfOk result (λ call. call ≡ create_file volume path.now) }
    ensures askable { IfOk result (λ call. IsAskable call) }
{
    Ok(Call::CreateFile {
        flag: 0x80,
        volume,
        dir: ROOT,
        path: path_of(alloc, path)?,
    })
}

/// FPDelete.
#[tactic(auto, using(crate::proofs::OfCalls::AskableLemmas::askable_delete))]
pub fn delete(alloc: Global, volume: VolumeId, path: &[u8]) -> Result<Call<'static>, OutOfMemory>
    requires { IsPlace path.now }
    ensures call { IfOk result (λ call. call ≡ delete volume path.now) }
    ensures askable { IfOk result (λ call. IsAskable call) }
{
    Ok(Call::Delete {
        volume,
        dir: ROOT,
        path: path_of(alloc, path)?,
    })
}

/// FPGetFileDirParms, which asks the id.
#[tactic(auto, using(crate::proofs::OfCalls::AskableLemmas::askable_get_id))]
pub fn get_id(alloc: Global, volume: VolumeId, path: &[u8]) -> Result<Call<'static>, OutOfMemory>
    requires { IsPlace path.now }
    ensures call { IfOk result (λ call. call ≡ get_id volume path.now) }
    ensures askable { IfOk result (λ call. IsAskable call) }
{
    Ok(Call::GetFileDirParms {
        volume,
        dir: ROOT,
        file_bits: 0x100,
        dir_bits: 0x100,
        path: path_of(alloc, path)?,
    })
}

/// FPEnumerateExt2 of 64 entries from this one on, from 1, which asks ids and names.
#[tactic(auto, using(crate::proofs::OfCalls::AskableLemmas::askable_list))]
pub fn list(
    alloc: Global,
    volume: VolumeId,
    path: &[u8],
    start: u32,
) -> Result<Call<'static>, OutOfMemory>
    requires { IsPlace path.now }
    ensures call { IfOk result (λ call. call ≡ list volume path.now start) }
    ensures askable { IfOk result (λ call. IsAskable call) }
{
    Ok(Call::EnumerateExt2 {
        volume,
        dir: ROOT,
        file_bits: 0x2100,
        dir_bits: 0x2100,
        count: 64,
        start,
        size: 65_536,
        path: path_of(alloc, path)?,
    })
}
