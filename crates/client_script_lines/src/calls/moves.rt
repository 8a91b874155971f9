//! Requests that name two places.
ghost use Rattle.std.specs.Prelude.{◌≡◌, IfOk};
ghost use Rattle.client_script_lines.specs.calls.Asked.{IsAskable};
ghost use Rattle.client_script_lines.specs.calls.Places.{IsPlace};
ghost use Rattle.client_script_lines.specs.calls.Requests.{copy_to, exchange, move_to};

use crate::calls::path::{ROOT, path_of};
use afp_base::{OutOfMemory, VolumeId};
use afp_calls_grammar::Call;
use std::alloc::Global;

/// FPMoveAndRename into a directory, under a new name.
#[tactic(auto, using(crate::proofs::OfCalls::AskableLemmas::askable_move_to))]
pub fn move_to(
    alloc: Global,
    volume: VolumeId,
    path: &[u8],
    target: &[u8],
    name: &[u8],
) -> Result<Call<'static>, OutOfMemory>
    requires path { IsPlace path.now }
    requires target { IsPlace target.now }
    requires name { IsPlace name.now }
    ensures call { IfOk result (λ call. call ≡ move_to volume path.now target.now name.now) }
    ensures askable { IfOk result (λ call. IsAskable call) }
{
    Ok(Call::MoveAndRename {
        volume,
        dir: ROOT,
        target_dir: ROOT,
        path: path_of(alloc, path)?,
        target_path: path_of(alloc, target)?,
        new_path: path_of(alloc, name)?,
    })
}

/// FPCopyFile into a directory, under a new name.
#[tactic(auto, using(crate::proofs::OfCalls::AskableLemmas::askable_copy_to))]
pub fn copy_to(
    alloc: Global,
    volume: VolumeId,
    path: &[u8],
    target: &[u8],
    name: &[u8],
) -> Result<Call<'static>, OutOfMemory>
    requires path { IsPlace path.now }
    requires target { IsPlace target.now }
    requires name { IsPlace name.now }
    ensures call { IfOk result (λ call. call ≡ copy_to volume path.now target.now name.now) }
    ensures askable { IfOk result (λ call. IsAskable call) }
{
    Ok(Call::CopyFile {
        volume,
        dir: ROOT,
        target_volume: volume,
        target_dir: ROOT,
        path: path_of(alloc, path)?,
        target_path: path_of(alloc, target)?,
        new_path: path_of(alloc, name)?,
    })
}

/// FPExchangeFiles.
#[tactic(auto, using(crate::proofs::OfCalls::AskableLemmas::askable_exchange))]
pub fn exchange(
    alloc: Global,
    volume: VolumeId,
    path: &[u8],
    target: &[u8],
) -> Result<Call<'static>, OutOfMemory>
    requires path { IsPlace path.now }
    requires target { IsPlace target.now }
    ensures call { IfOk result (λ call. call ≡ exchange volume path.now target.now) }
    ensures askable { IfOk result (λ call. IsAskable call) }
{
    Ok(Call::ExchangeFiles {
        volume,
        dir: ROOT,
        second_dir: ROOT,
        path: path_of(alloc, path)?,
        second_path: path_of(alloc, target)?,
    })
}
