//! `pack PATH`.
ghost use Rattle.client_script_lines.specs.calls.Places.{IsPlace};
ghost use Rattle.client_script_commands.specs.parcels.Pack.{pack, pack_file};
ghost use Rattle.client_script_commands.specs.parts.Parts.{Comes};

use crate::get::reads::read_fork;
use crate::parcels::comments::comment_at;
use crate::parcels::found::{Found, Shown, ask_found};
use crate::parcels::printed::packed;
use crate::parts::{Asker, Stop, parts_end};
use afp_base::{Bytes, Code, VolumeId};
use client_script_lines::{calls, error_text};
use std::alloc::Global;

/// A file: its comment, its data fork, its resource fork.
#[tactic(auto, unfolding(crate::specs::parcels::Pack::pack_file))]
fn pack_file<A: Asker>(
    alloc: Global,
    asker: &mut A,
    volume: VolumeId,
    path: &[u8],
    shown: Shown,
) -> Result<Bytes, Stop<A::End>>
    requires { IsPlace path.now }
    ensures { Comes (A.exchanges asker.old) (pack_file volume path.now shown) result (A.exchanges asker.new) }
{
    parts_end::<A>();
    let comment = comment_at(alloc, asker, volume, path)?;
    let data_fork = read_fork(alloc, asker, calls::open_fork(alloc, volume, 1, path)?)?;
    let resource_fork = read_fork(
        alloc,
        asker,
        calls::open_resource_fork(alloc, volume, 1, path)?,
    )?;
    Ok(packed(alloc, shown, comment, data_fork, resource_fork)?)
}

/// `pack PATH`.
pub fn pack<A: Asker>(
    alloc: Global,
    asker: &mut A,
    volume: VolumeId,
    path: &[u8],
) -> Result<Bytes, Stop<A::End>>
    requires { IsPlace path.now }
    ensures { Comes (A.exchanges asker.old) (pack volume path.now) result (A.exchanges asker.new) }
{
    parts_end::<A>();
    match ask_found(asker, calls::get_shown(alloc, volume, path)?)? {
        Found::Shown(shown) => pack_file(alloc, asker, volume, path, shown),
        Found::Directory => Ok(error_text(alloc, Code::ObjectTypeErr)?),
    }
}
