//! A line, carried out.
ghost use Rattle.std.specs.Prelude.{◌≡◌, OnOk};
ghost use Rattle.client_script_commands.specs.ls.Ls.{IsSaid};
ghost use Rattle.client_script_commands.specs.parts.Parts.{Comes};
ghost use Rattle.client_script_run.specs.line.Run.{Mounts, line_part, said_by};

use crate::line::forks::{run_drop, run_lock, run_unlock};
use crate::line::mounting::run_mount;
use crate::line::parcels::{run_pack, run_unpack};
use crate::line::places::{
    run_cp, run_find, run_get, run_hold, run_id, run_ls, run_mkdir, run_mv, run_note, run_put,
    run_rm, run_show, run_swap,
};
use afp_base::{Bytes, VolumeId};
use client_script_commands::commands::bye::bye;
use client_script_commands::{Asker, Stop};
use client_script_lines::ScriptLine;
use std::alloc::Global;

/// Carries out a line over whoever asks its calls: what it prints, or why it prints nothing of its own. Where no volume is mounted, a command
/// that needs one prints `no volume`, and asks nothing. What a line that stops in its middle said until then is appended to `said`.
///
/// The words are those of a line that was read. Of others it may answer that there is no memory.
pub fn run_line<A: Asker>(
    alloc: Global,
    asker: &mut A,
    mounted: &mut Option<VolumeId>,
    line: &ScriptLine,
    said: &mut Bytes,
) -> Result<Bytes, Stop<A::End>>
    ensures comes { Comes (A.exchanges asker.old) (line_part mounted.old line.now) result (A.exchanges asker.new) }
    ensures mounts { Mounts mounted.old line.now (A.exchanges asker.old) (A.exchanges asker.new) mounted.new }
    ensures said { IsSaid (said_by mounted.old line.now) (A.exchanges asker.old) said.old result said.new (A.exchanges asker.new) }
    ensures silent { OnOk result (said.new ≡ said.old) }
{
    match line {
        ScriptLine::Mount { volume } => run_mount(alloc, asker, mounted, volume.as_slice()),
        ScriptLine::Mkdir { path } => run_mkdir(alloc, asker, *mounted, path.as_slice()),
        ScriptLine::Put { path, piece } => run_put(
            alloc,
            asker,
            *mounted,
            path.as_slice(),
            piece.as_slice(),
        ),
        ScriptLine::Get { path } => run_get(alloc, asker, *mounted, path.as_slice()),
        ScriptLine::Ls { path } => run_ls(alloc, asker, *mounted, path.as_slice(), said),
        ScriptLine::Mv { path, target } => run_mv(
            alloc,
            asker,
            *mounted,
            path.as_slice(),
            target.as_slice(),
        ),
        ScriptLine::Cp { path, target } => run_cp(
            alloc,
            asker,
            *mounted,
            path.as_slice(),
            target.as_slice(),
        ),
        ScriptLine::Swap { path, target } => run_swap(
            alloc,
            asker,
            *mounted,
            path.as_slice(),
            target.as_slice(),
        ),
        ScriptLine::Rm { path } => run_rm(alloc, asker, *mounted, path.as_slice()),
        ScriptLine::Hold { path } => run_hold(alloc, asker, *mounted, path.as_slice()),
        ScriptLine::Lock {
            reference,
            from,
            length,
        } => run_lock(
            alloc,
            asker,
            reference.as_slice(),
            from.as_slice(),
            length.as_slice(),
        ),
        ScriptLine::Unlock {
            reference,
            from,
            length,
        } => run_unlock(
            alloc,
            asker,
            reference.as_slice(),
            from.as_slice(),
            length.as_slice(),
        ),
        ScriptLine::Drop { reference } => run_drop(alloc, asker, reference.as_slice()),
        ScriptLine::Id { path } => run_id(alloc, asker, *mounted, path.as_slice()),
        ScriptLine::Find { id } => run_find(alloc, asker, *mounted, id.as_slice()),
        ScriptLine::Note { path, text } => run_note(
            alloc,
            asker,
            *mounted,
            path.as_slice(),
            text.as_slice(),
        ),
        ScriptLine::Show { path } => run_show(alloc, asker, *mounted, path.as_slice()),
        ScriptLine::Pack { path } => run_pack(alloc, asker, *mounted, path.as_slice()),
        ScriptLine::Unpack { path, piece } => run_unpack(
            alloc,
            asker,
            *mounted,
            path.as_slice(),
            piece.as_slice(),
        ),
        ScriptLine::Bye => bye(alloc, asker),
    }
}
