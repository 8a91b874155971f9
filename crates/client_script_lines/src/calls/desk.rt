//! Requests about the desktop database.
ghost use Rattle.std.specs.Prelude.{◌≡◌, ◌<◌, length, IfOk};
ghost use Rattle.client_script_lines.specs.calls.Asked.{IsAskable};
ghost use Rattle.client_script_lines.specs.calls.Places.{IsPlace};
ghost use Rattle.client_script_lines.specs.calls.Requests.{add_comment, get_comment, open_desk};

use crate::calls::path::{ROOT, path_of};
use afp_base::{Bytes, OutOfMemory, VolumeId};
use afp_calls_grammar::Call;
use std::alloc::Global;

/// FPOpenDT.
#[tactic(auto, using(crate::proofs::OfCalls::AskableLemmas::askable_open_dt))]
pub fn open_desk(volume: VolumeId) -> Call<'static>
    ensures call { result ≡ open_desk volume }
    ensures askable { IsAskable result }
{
    Call::OpenDT { volume }
}

/// FPAddComment.
#[tactic(auto, using(crate::proofs::OfCalls::AskableLemmas::askable_add_comment))]
pub fn add_comment(
    alloc: Global,
    dt: u16,
    path: &[u8],
    text: &[u8],
) -> Result<Call<'static>, OutOfMemory>
    requires path { IsPlace path.now }
    requires text { length text.now < 256 }
    ensures call { IfOk result (λ call. call ≡ add_comment dt path.now text.now) }
    ensures askable { IfOk result (λ call. IsAskable call) }
{
    Ok(Call::AddComment {
        dt,
        dir: ROOT,
        path: path_of(alloc, path)?,
        comment: Bytes::of(alloc, text)?,
    })
}

/// FPGetComment.
#[tactic(auto, using(crate::proofs::OfCalls::AskableLemmas::askable_get_comment))]
pub fn get_comment(alloc: Global, dt: u16, path: &[u8]) -> Result<Call<'static>, OutOfMemory>
    requires { IsPlace path.now }
    ensures call { IfOk result (λ call. call ≡ get_comment dt path.now) }
    ensures askable { IfOk result (λ call. IsAskable call) }
{
    Ok(Call::GetComment {
        dt,
        dir: ROOT,
        path: path_of(alloc, path)?,
    })
}
