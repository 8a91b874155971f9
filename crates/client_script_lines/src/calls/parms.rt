//! Requests about the parameters of files.
ghost use Rattle.std.specs.Prelude.{◌≡◌, ◌≤◌, ◌++◌, length, IfOk, OnOk};
ghost use Rattle.client_script_lines.specs.calls.Asked.{IsAskable};
ghost use Rattle.client_script_lines.specs.calls.Places.{IsPlace};
ghost use Rattle.client_script_lines.specs.calls.Requests.{date_bytes, get_shown, set_file, settings_of};

use crate::calls::path::{ROOT, path_of};
use afp_base::{Bytes, OutOfMemory, VolumeId};
use afp_calls_grammar::Call;
use std::alloc::Global;

/// FPGetFileDirParms, which asks the dates, the Finder information and the name of a file, and the id of a directory.
#[tactic(auto, using(crate::proofs::OfCalls::AskableLemmas::askable_get_id))]
pub fn get_shown(alloc: Global, volume: VolumeId, path: &[u8]) -> Result<Call<'static>, OutOfMemory>
    requires { IsPlace path.now }
    ensures call { IfOk result (λ call. call ≡ get_shown volume path.now) }
    ensures askable { IfOk result (λ call. IsAskable call) }
{
    Ok(Call::GetFileDirParms {
        volume,
        dir: ROOT,
        file_bits: 0x203c,
        dir_bits: 0x100,
        path: path_of(alloc, path)?,
    })
}

/// The Finder information is 32 bytes.
fn finder_is_whole(finder: &[u8; 32])
    ensures { length finder.now ≡ 32 }
{}

/// Appends a date.
fn put_date(out: &mut Bytes, date: i32) -> Result<(), OutOfMemory>
    ensures { OnOk result (out.new ≡ out.old ++ date_bytes date) }
{
    out.push_u32(date.cast_unsigned())
}

/// The dates of a file and its Finder information, as FPSetFileParms has them.
#[tactic(auto, using(crate::proofs::OfCalls::SizeLemmas::settings_size))]
fn settings_of(
    alloc: Global,
    created: i32,
    modified: i32,
    backup: i32,
    finder: &[u8; 32],
) -> Result<Bytes, OutOfMemory>
    ensures settings { IfOk result (λ settings. settings ≡ settings_of created modified backup finder.now) }
    ensures short { IfOk result (λ settings. length settings ≤ 44) }
{
    finder_is_whole(finder);
    let mut settings = Bytes::new(alloc);
    put_date(&mut settings, created)?;
    put_date(&mut settings, modified)?;
    put_date(&mut settings, backup)?;
    settings.extend(finder)?;
    Ok(settings)
}

/// FPSetFileParms of the dates of a file and its Finder information.
#[tactic(auto, using(crate::proofs::OfCalls::AskableLemmas::askable_set_file))]
pub fn set_file(
    alloc: Global,
    volume: VolumeId,
    path: &[u8],
    created: i32,
    modified: i32,
    backup: i32,
    finder: &[u8; 32],
) -> Result<Call<'static>, OutOfMemory>
    requires { IsPlace path.now }
    ensures call { IfOk result (λ call. call ≡ set_file volume path.now (settings_of created modified backup finder.now)) }
    ensures askable { IfOk result (λ call. IsAskable call) }
{
    let tail = settings_of(alloc, created, modified, backup, finder)?;
    Ok(Call::SetFileParms {
        volume,
        dir: ROOT,
        bits: 0x3c,
        path: path_of(alloc, path)?,
        tail,
    })
}
