//! What `unpack` writes.
ghost use Rattle.std.specs.Prelude.{◌≡◌, ◌≤◌, ◌<◌, length, IfOk, IfSome};
ghost use Rattle.client_script_lines.specs.calls.Asked.{IsAskable};
ghost use Rattle.client_script_lines.specs.calls.Places.{IsPlace, longest_place};
ghost use Rattle.client_script_lines.specs.calls.Requests.{create_file, open_fork, open_resource_fork, set_file, settings_of, to_put};
ghost use Rattle.client_script_commands.specs.parts.Told.{MustDo};
ghost use Rattle.client_script_commands.specs.parcels.lemma.Telling.{WritesComment, WritesFork, WritesWhole};

use crate::commands::replies::{ask_desk, ask_fork};
use crate::parts::{Asker, Stop, in_fork, must_do, parts_end};
use afp_base::{Bytes, OutOfMemory, VolumeId};
use afp_calls_grammar::Call;
use apple_double::Parcel;
use client_script_lines::calls;
use std::alloc::Global;

/// Lets a call go.
fn let_go(_call: Call) {}

/// Writes a fork that this call opens, and closes it.
#[tactic(auto, unfolding(crate::specs::parcels::Unpack::write_whole))]
fn write_whole<A: Asker>(asker: &mut A, opens: Call, piece: &[u8]) -> Result<(), Stop<A::End>>
    requires opens { IsAskable opens }
    requires piece { length piece.now ≤ longest_place }
    ensures { WritesWhole opens.entry piece.now (A.exchanges asker.old) result (A.exchanges asker.new) }
{
    parts_end::<A>();
    let reference = ask_fork(asker, opens)?;
    in_fork(asker, reference, calls::write(reference, piece))?;
    must_do(asker, calls::close_fork(reference))
}

/// The same, where there are bytes; else the fork is not opened.
#[tactic(auto, using(crate::proofs::OfParcels::WriteLemmas::writes_none, crate::proofs::OfParcels::WriteLemmas::writes_some, crate::proofs::OfParcels::WriteLemmas::writes_stop))]
fn write_fork<A: Asker>(asker: &mut A, opens: Call, piece: &[u8]) -> Result<(), Stop<A::End>>
    requires opens { IsAskable opens }
    requires piece { length piece.now ≤ longest_place }
    ensures { WritesFork opens.entry piece.now (A.exchanges asker.old) result (A.exchanges asker.new) }
{
    if piece.len() == 0 {
        let_go(opens);
        return Ok(());
    }
    match write_whole(asker, opens, piece) {
        Ok(()) => Ok(()),
        Err(stop) => Err(stop),
    }
}

/// Makes a file.
pub(crate) fn make_file<A: Asker>(
    alloc: Global,
    asker: &mut A,
    volume: VolumeId,
    path: &[u8],
) -> Result<(), Stop<A::End>>
    requires { IsPlace path.now }
    ensures { MustDo (create_file volume path.now) (A.exchanges asker.old) result (A.exchanges asker.new) }
{
    parts_end::<A>();
    must_do(asker, calls::create_file(alloc, volume, path)?)
}

/// Writes a file's data fork.
pub(crate) fn write_data<A: Asker>(
    alloc: Global,
    asker: &mut A,
    volume: VolumeId,
    path: &[u8],
    piece: &[u8],
) -> Result<(), Stop<A::End>>
    requires path { IsPlace path.now }
    requires piece { length piece.now ≤ longest_place }
    ensures { WritesFork (open_fork volume to_put path.now) piece.now (A.exchanges asker.old) result (A.exchanges asker.new) }
{
    parts_end::<A>();
    write_fork(asker, calls::open_fork(alloc, volume, 0x22, path)?, piece)
}

/// Writes a file's resource fork.
pub(crate) fn write_resource<A: Asker>(
    alloc: Global,
    asker: &mut A,
    volume: VolumeId,
    path: &[u8],
    piece: &[u8],
) -> Result<(), Stop<A::End>>
    requires path { IsPlace path.now }
    requires piece { length piece.now ≤ longest_place }
    ensures { WritesFork (open_resource_fork volume to_put path.now) piece.now (A.exchanges asker.old) result (A.exchanges asker.new) }
{
    parts_end::<A>();
    write_fork(
        asker,
        calls::open_resource_fork(alloc, volume, 0x22, path)?,
        piece,
    )
}

/// Sets a file's dates and its Finder information.
pub(crate) fn set_parms<A: Asker>(
    alloc: Global,
    asker: &mut A,
    volume: VolumeId,
    path: &[u8],
    p: &Parcel,
) -> Result<(), Stop<A::End>>
    requires { IsPlace path.now }
    ensures { MustDo (set_file volume path.now (settings_of p.now.created p.now.modified p.now.backup p.now.finder)) (A.exchanges asker.old) result (A.exchanges asker.new) }
{
    parts_end::<A>();
    must_do(asker, set_file(alloc, volume, path, p)?)
}

/// The call that sets a file's dates and its Finder information.
fn set_file(
    alloc: Global,
    volume: VolumeId,
    path: &[u8],
    p: &Parcel,
) -> Result<Call<'static>, OutOfMemory>
    requires { IsPlace path.now }
    ensures call { IfOk result (λ call. call ≡ set_file volume path.now (settings_of p.now.created p.now.modified p.now.backup p.now.finder)) }
    ensures askable { IfOk result (λ call. IsAskable call) }
{
    match calls::set_file(
        alloc, volume, path, p.created, p.modified, p.backup, &p.finder,
    ) {
        Ok(call) => Ok(call),
        Err(error) => Err(error),
    }
}

/// Sets a comment, where there is one.
pub(crate) fn write_comment<A: Asker>(
    alloc: Global,
    asker: &mut A,
    volume: VolumeId,
    path: &[u8],
    comment: &Option<Bytes>,
) -> Result<(), Stop<A::End>>
    requires path { IsPlace path.now }
    requires comment { IfSome comment.now (λ text. length text < 256) }
    ensures { WritesComment volume path.now comment.now (A.exchanges asker.old) result (A.exchanges asker.new) }
{
    parts_end::<A>();
    match comment {
        Some(text) => {
            let dt = ask_desk(asker, calls::open_desk(volume))?;
            must_do(asker, calls::add_comment(alloc, dt, path, text.as_slice())?)
        }
        None => Ok(()),
    }
}
