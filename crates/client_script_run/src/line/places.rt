//! Commands that need a volume.
ghost use Rattle.std.specs.Prelude.{◌≡◌, IfOk, OnOk, codes};
ghost use Rattle.afp_base.specs.declared.ids.VolumeId.{VolumeId};
ghost use Rattle.client_script_commands.specs.commands.Cp.{cp};
ghost use Rattle.client_script_commands.specs.commands.Find.{find};
ghost use Rattle.client_script_commands.specs.commands.Hold.{hold};
ghost use Rattle.client_script_commands.specs.commands.Id.{id};
ghost use Rattle.client_script_commands.specs.commands.Mkdir.{mkdir};
ghost use Rattle.client_script_commands.specs.commands.Mv.{mv};
ghost use Rattle.client_script_commands.specs.commands.Note.{note};
ghost use Rattle.client_script_commands.specs.commands.Put.{put};
ghost use Rattle.client_script_commands.specs.commands.Rm.{rm};
ghost use Rattle.client_script_commands.specs.commands.Show.{show};
ghost use Rattle.client_script_commands.specs.commands.Swap.{swap};
ghost use Rattle.client_script_commands.specs.get.Get.{get};
ghost use Rattle.client_script_commands.specs.ls.Ls.{IsSaid, ls};
ghost use Rattle.client_script_commands.specs.parts.Parts.{Comes};
ghost use Rattle.client_script_run.specs.line.Run.{in_volume, node_of, said_in};
ghost use Rattle.client_script_run.specs.line.Values.{directory_text, name_text, path_text, text_of};

use crate::line::values::{number_of, path_of, piece_of, short_text, target_of};
use afp_base::{Bytes, NodeId, OutOfMemory, VolumeId};
use client_script_commands::get::get::get;
use client_script_commands::ls::ls::ls;
use client_script_commands::{Asker, Stop, commands, parts_end};
use client_script_lines::LAST_ID;
use std::alloc::Global;

/// What is printed where no volume is mounted.
pub(crate) fn no_volume(alloc: Global) -> Result<Bytes, OutOfMemory>
    ensures { IfOk result (λ text. text ≡ codes "no volume") }
{
    Bytes::of(alloc, b"no volume")
}

/// `mkdir PATH`, in a volume.
pub(crate) fn run_mkdir<A: Asker>(
    alloc: Global,
    asker: &mut A,
    mounted: Option<VolumeId>,
    path: &[u8],
) -> Result<Bytes, Stop<A::End>>
    ensures { Comes (A.exchanges asker.old) (in_volume mounted (λ (volume : VolumeId). mkdir volume (path_text path.now))) result (A.exchanges asker.new) }
{
    parts_end::<A>();
    let Some(volume) = mounted else {
        return Ok(no_volume(alloc)?);
    };
    let path = path_of(alloc, path)?;
    commands::mkdir::mkdir(alloc, asker, volume, path.as_slice())
}

/// `get PATH`, in a volume.
pub(crate) fn run_get<A: Asker>(
    alloc: Global,
    asker: &mut A,
    mounted: Option<VolumeId>,
    path: &[u8],
) -> Result<Bytes, Stop<A::End>>
    ensures { Comes (A.exchanges asker.old) (in_volume mounted (λ (volume : VolumeId). get volume (path_text path.now))) result (A.exchanges asker.new) }
{
    parts_end::<A>();
    let Some(volume) = mounted else {
        return Ok(no_volume(alloc)?);
    };
    let path = path_of(alloc, path)?;
    get(alloc, asker, volume, path.as_slice())
}

/// `ls PATH`, in a volume.
pub(crate) fn run_ls<A: Asker>(
    alloc: Global,
    asker: &mut A,
    mounted: Option<VolumeId>,
    path: &[u8],
    said: &mut Bytes,
) -> Result<Bytes, Stop<A::End>>
    ensures comes { Comes (A.exchanges asker.old) (in_volume mounted (λ (volume : VolumeId). ls volume (path_text path.now))) result (A.exchanges asker.new) }
    ensures said { IsSaid (said_in mounted) (A.exchanges asker.old) said.old result said.new (A.exchanges asker.new) }
    ensures silent { OnOk result (said.new ≡ said.old) }
{
    parts_end::<A>();
    let Some(volume) = mounted else {
        return Ok(no_volume(alloc)?);
    };
    let path = path_of(alloc, path)?;
    ls(alloc, asker, volume, path.as_slice(), said)
}

/// `rm PATH`, in a volume.
pub(crate) fn run_rm<A: Asker>(
    alloc: Global,
    asker: &mut A,
    mounted: Option<VolumeId>,
    path: &[u8],
) -> Result<Bytes, Stop<A::End>>
    ensures { Comes (A.exchanges asker.old) (in_volume mounted (λ (volume : VolumeId). rm volume (path_text path.now))) result (A.exchanges asker.new) }
{
    parts_end::<A>();
    let Some(volume) = mounted else {
        return Ok(no_volume(alloc)?);
    };
    let path = path_of(alloc, path)?;
    commands::rm::rm(alloc, asker, volume, path.as_slice())
}

/// `hold PATH`, in a volume.
pub(crate) fn run_hold<A: Asker>(
    alloc: Global,
    asker: &mut A,
    mounted: Option<VolumeId>,
    path: &[u8],
) -> Result<Bytes, Stop<A::End>>
    ensures { Comes (A.exchanges asker.old) (in_volume mounted (λ (volume : VolumeId). hold volume (path_text path.now))) result (A.exchanges asker.new) }
{
    parts_end::<A>();
    let Some(volume) = mounted else {
        return Ok(no_volume(alloc)?);
    };
    let path = path_of(alloc, path)?;
    commands::hold::hold(alloc, asker, volume, path.as_slice())
}

/// `id PATH`, in a volume.
pub(crate) fn run_id<A: Asker>(
    alloc: Global,
    asker: &mut A,
    mounted: Option<VolumeId>,
    path: &[u8],
) -> Result<Bytes, Stop<A::End>>
    ensures { Comes (A.exchanges asker.old) (in_volume mounted (λ (volume : VolumeId). id volume (path_text path.now))) result (A.exchanges asker.new) }
{
    parts_end::<A>();
    let Some(volume) = mounted else {
        return Ok(no_volume(alloc)?);
    };
    let path = path_of(alloc, path)?;
    commands::id::id(alloc, asker, volume, path.as_slice())
}

/// `show PATH`, in a volume.
pub(crate) fn run_show<A: Asker>(
    alloc: Global,
    asker: &mut A,
    mounted: Option<VolumeId>,
    path: &[u8],
) -> Result<Bytes, Stop<A::End>>
    ensures { Comes (A.exchanges asker.old) (in_volume mounted (λ (volume : VolumeId). show volume (path_text path.now))) result (A.exchanges asker.new) }
{
    parts_end::<A>();
    let Some(volume) = mounted else {
        return Ok(no_volume(alloc)?);
    };
    let path = path_of(alloc, path)?;
    commands::show::show(alloc, asker, volume, path.as_slice())
}

/// `put PATH BYTES`, in a volume.
pub(crate) fn run_put<A: Asker>(
    alloc: Global,
    asker: &mut A,
    mounted: Option<VolumeId>,
    path: &[u8],
    piece: &[u8],
) -> Result<Bytes, Stop<A::End>>
    ensures { Comes (A.exchanges asker.old) (in_volume mounted (λ (volume : VolumeId). put volume (path_text path.now) (text_of piece.now))) result (A.exchanges asker.new) }
{
    parts_end::<A>();
    let Some(volume) = mounted else {
        return Ok(no_volume(alloc)?);
    };
    let path = path_of(alloc, path)?;
    let piece = piece_of(alloc, piece)?;
    commands::put::put(alloc, asker, volume, path.as_slice(), piece.as_slice())
}

/// `note PATH TEXT`, in a volume.
pub(crate) fn run_note<A: Asker>(
    alloc: Global,
    asker: &mut A,
    mounted: Option<VolumeId>,
    path: &[u8],
    text: &[u8],
) -> Result<Bytes, Stop<A::End>>
    ensures { Comes (A.exchanges asker.old) (in_volume mounted (λ (volume : VolumeId). note volume (path_text path.now) (text_of text.now))) result (A.exchanges asker.new) }
{
    parts_end::<A>();
    let Some(volume) = mounted else {
        return Ok(no_volume(alloc)?);
    };
    let path = path_of(alloc, path)?;
    let text = short_text(alloc, text)?;
    commands::note::note(alloc, asker, volume, path.as_slice(), text.as_slice())
}

/// `mv PATH TARGET`, in a volume.
pub(crate) fn run_mv<A: Asker>(
    alloc: Global,
    asker: &mut A,
    mounted: Option<VolumeId>,
    path: &[u8],
    target: &[u8],
) -> Result<Bytes, Stop<A::End>>
    ensures { Comes (A.exchanges asker.old) (in_volume mounted (λ (volume : VolumeId). mv volume (path_text path.now) (directory_text target.now) (name_text target.now))) result (A.exchanges asker.new) }
{
    parts_end::<A>();
    let Some(volume) = mounted else {
        return Ok(no_volume(alloc)?);
    };
    let path = path_of(alloc, path)?;
    let target = target_of(alloc, target)?;
    commands::mv::mv(
        alloc,
        asker,
        volume,
        path.as_slice(),
        target.directory.as_slice(),
        target.name.as_slice(),
    )
}

/// `cp PATH TARGET`, in a volume.
pub(crate) fn run_cp<A: Asker>(
    alloc: Global,
    asker: &mut A,
    mounted: Option<VolumeId>,
    path: &[u8],
    target: &[u8],
) -> Result<Bytes, Stop<A::End>>
    ensures { Comes (A.exchanges asker.old) (in_volume mounted (λ (volume : VolumeId). cp volume (path_text path.now) (directory_text target.now) (name_text target.now))) result (A.exchanges asker.new) }
{
    parts_end::<A>();
    let Some(volume) = mounted else {
        return Ok(no_volume(alloc)?);
    };
    let path = path_of(alloc, path)?;
    let target = target_of(alloc, target)?;
    commands::cp::cp(
        alloc,
        asker,
        volume,
        path.as_slice(),
        target.directory.as_slice(),
        target.name.as_slice(),
    )
}

/// `swap PATH TARGET`, in a volume.
pub(crate) fn run_swap<A: Asker>(
    alloc: Global,
    asker: &mut A,
    mounted: Option<VolumeId>,
    path: &[u8],
    target: &[u8],
) -> Result<Bytes, Stop<A::End>>
    ensures { Comes (A.exchanges asker.old) (in_volume mounted (λ (volume : VolumeId). swap volume (path_text path.now) (path_text target.now))) result (A.exchanges asker.new) }
{
    parts_end::<A>();
    let Some(volume) = mounted else {
        return Ok(no_volume(alloc)?);
    };
    let path = path_of(alloc, path)?;
    let target = path_of(alloc, target)?;
    commands::swap::swap(alloc, asker, volume, path.as_slice(), target.as_slice())
}

/// `find ID`, in a volume.
pub(crate) fn run_find<A: Asker>(
    alloc: Global,
    asker: &mut A,
    mounted: Option<VolumeId>,
    node: &[u8],
) -> Result<Bytes, Stop<A::End>>
    ensures { Comes (A.exchanges asker.old) (in_volume mounted (λ (volume : VolumeId). find volume (node_of node.now))) result (A.exchanges asker.new) }
{
    parts_end::<A>();
    let Some(volume) = mounted else {
        return Ok(no_volume(alloc)?);
    };
    let number = number_of(node, LAST_ID)?;
    commands::find::find(alloc, asker, volume, NodeId(number as u32))
}
