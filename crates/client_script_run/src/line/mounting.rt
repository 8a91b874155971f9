//! `mount VOLUME`.
ghost use Rattle.std.specs.Prelude.{◌≡◌, ◌<◌, length, Option};
ghost use Rattle.afp_base.specs.declared.ids.VolumeId.{VolumeId};
ghost use Rattle.client_script_commands.specs.commands.Mount.{mount};
ghost use Rattle.client_script_commands.specs.commands.Replies.{volume_in};
ghost use Rattle.client_script_lines.specs.declared.lines.line.ScriptLine.TheVariants as lines;
ghost use Rattle.client_script_commands.specs.parts.Parts.{Comes};
ghost use Rattle.client_script_run.specs.line.Run.{Mounts, OpensVolume, opened_by};
ghost use Rattle.client_script_run.specs.line.Values.{text_of};

use crate::line::values::short_text;
use afp_base::{Bytes, Code, VolumeId};
use afp_calls_grammar::Call;
use client_script_commands::commands::replies::volume_of;
use client_script_commands::{Answer, Asker, Stop};
use client_script_lines::{calls, numbered};
use std::alloc::Global;

/// Lets a call go.
fn let_go(_call: Call) {}

/// What an answer tells.
fn told<E>(code: Code, found: Option<VolumeId>) -> Result<VolumeId, Stop<E>>
    ensures { result ≡ opened_by code found }
{
    match code {
        Code::Ok => match found {
            Some(volume) => Ok(volume),
            None => Err(Stop::BadReply),
        },
        _ => Err(Stop::Refused(code)),
    }
}

/// What an answer tells of a volume; the answer is let go.
fn told_by<E>(answer: Answer) -> Result<VolumeId, Stop<E>>
    ensures { result ≡ opened_by answer.code (volume_in answer.reply) }
{
    told(answer.code, volume_of(&answer.reply))
}

/// Opens a volume.
fn open_volume<A: Asker>(
    alloc: Global,
    asker: &mut A,
    name: &[u8],
) -> Result<VolumeId, Stop<A::End>>
    requires { length name.now < 256 }
    ensures { OpensVolume name.now (A.exchanges asker.old) result (A.exchanges asker.new) }
{
    let call = match calls::open_volume(alloc, name) {
        Ok(call) => call,
        Err(_) => return Err(Stop::Memory),
    };
    let answered = asker.ask(&call);
    let_go(call);
    match answered {
        Ok(answer) => told_by(answer),
        Err(end) => Err(Stop::Ended(end)),
    }
}

/// `mount VOLUME`. The volume is then the one that is mounted.
pub(crate) fn run_mount<A: Asker>(
    alloc: Global,
    asker: &mut A,
    mounted: &mut Option<VolumeId>,
    word: &[u8],
) -> Result<Bytes, Stop<A::End>>
    ensures comes { Comes (A.exchanges asker.old) (mount (text_of word.now)) result (A.exchanges asker.new) }
    ensures mounts { Mounts mounted.old (lines.Mount word.now) (A.exchanges asker.old) (A.exchanges asker.new) mounted.new }
{
    let name = match short_text(alloc, word) {
        Ok(name) => name,
        Err(_) => return Err(Stop::Memory),
    };
    match open_volume(alloc, asker, name.as_slice()) {
        Ok(volume) => {
            *mounted = Some(volume);
            match numbered(alloc, b"mounted ", u64::from(volume.0)) {
                Ok(text) => Ok(text),
                Err(_) => Err(Stop::Memory),
            }
        }
        Err(stop) => Err(stop),
    }
}
