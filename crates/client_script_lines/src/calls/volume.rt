//! Requests about volumes and sessions.
ghost use Rattle.std.specs.Prelude.{◌≡◌, ◌<◌, length, IfOk};
ghost use Rattle.afp_calls_grammar.specs.declared.grammar.call.Call.TheVariants as calls;
ghost use Rattle.client_script_lines.specs.calls.Asked.{IsAskable};
ghost use Rattle.client_script_lines.specs.calls.Requests.{open_volume, resolve};

use afp_base::{Bytes, NodeId, OutOfMemory, VolumeId};
use afp_calls_grammar::Call;
use std::alloc::Global;

/// FPOpenVol of a volume, which asks its id.
#[tactic(auto, using(crate::proofs::OfCalls::AskableLemmas::askable_open_vol))]
pub fn open_volume(alloc: Global, name: &[u8]) -> Result<Call<'static>, OutOfMemory>
    requires { length name.now < 256 }
    ensures call { IfOk result (λ call. call ≡ open_volume name.now) }
    ensures askable { IfOk result (λ call. IsAskable call) }
{
    Ok(Call::OpenVol {
        bits: 0x20,
        name: Bytes::of(alloc, name)?,
    })
}

/// FPResolveID of a file, which asks its name.
#[tactic(auto, using(crate::proofs::OfCalls::AskableLemmas::askable_resolve))]
pub fn resolve(volume: VolumeId, id: NodeId) -> Call<'static>
    ensures call { result ≡ resolve volume id }
    ensures askable { IsAskable result }
{
    Call::ResolveID {
        volume,
        id,
        bits: 0x2000,
    }
}

/// FPLogout.
#[tactic(auto, using(crate::proofs::OfCalls::AskableLemmas::askable_logout))]
pub fn logout() -> Call<'static>
    ensures call { result ≡ calls.Logout }
    ensures askable { IsAskable result }
{
    Call::Logout
}
