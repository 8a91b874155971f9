//! FPAddAPPL, FPRemoveAPPL and FPGetAPPL (AFP Reference, under these names).
ghost use Rattle.std.specs.Prelude.{◌≡◌, ◌++◌, Some, true, OnOk, OnErr, length, option_map, take};
ghost use Rattle.afp_bitmap.specs.Bits.{IsWithin, file_mask};
ghost use Rattle.afp_replies.specs.Replies.{canonical_reply};
ghost use Rattle.afp_replies.specs.declared.reply.Reply.TheVariants.{Appl as ApplReply};
ghost use Rattle.afp_calls_grammar.specs.declared.grammar.call.Call.{Call};
ghost use Rattle.afp_serial.specs.Appls.{get_appl_reply};
ghost use Rattle.desktop_db.specs.Kept.{shown_appl};
ghost use Rattle.volume_spec.specs.Desktop.{nth_appl};
ghost use Rattle.volume_spec.specs.Appls.{get_appl_mapping, get_appl_refusal};
ghost use Rattle.volume_spec.specs.OpenFork.{fork_values};
ghost use Rattle.volume_spec.specs.SoundVolume.{has_file};
ghost use Rattle.volume_spec.specs.VolumeState.{Appl, Row};
ghost use Rattle.volume_spec.specs.Walk.{row_at};
ghost use Rattle.afp_core_calls.specs.desktop.lemma.Mappings.{FindsMapping};
ghost use Rattle.volume_tree.specs.Answered.{Refuses};
ghost use Rattle.volume_tree.specs.Shown.{opened};
ghost use Rattle.afp_core_state.specs.Running.{RunsRow};

use afp_base::{Bytes, Code, NodeId, OutOfMemory, SessionNumber, VolumeId};
use afp_bitmap::{FileBits, is_outside};
use afp_core_state::{State, latest, refused, run_plan, told_of, whole_at};
use afp_names::Path;
use afp_serial::{Outcome, Told};
use deny_modes::VolumeOpens;
use record_keeper::Keeper;
use std::alloc::Global;
use volume_edits::{WholeVolume, plan_add_appl, plan_remove_appl};
use volume_keeper::KeptVolume;
use volume_tree::PlanFault;

/// Puts the mapping of a creator and a file of a volume that the session has open.
pub fn add_appl<K: Keeper>(
    state: &mut State<K>,
    session: SessionNumber,
    dt: u16,
    dir: NodeId,
    creator: [u8; 4],
    tag: u32,
    path: &Path,
) -> Result<(Told, Outcome), OutOfMemory>
    ensures { RunsRow state.old session.0 (Call.AddAPPL dt dir creator tag path.now) result state.new }
{
    let Some(index) = state.opened(session, VolumeId(dt)) else {
        return Ok((refused(state.alloc, Code::ParamErr), Outcome::Done));
    };
    let volume = whole_at(state, index);
    let answer = plan_add_appl(
        state.alloc,
        volume,
        state.user(session),
        latest(state),
        dir,
        creator,
        tag,
        path,
    );
    let nothing = Bytes::new(state.alloc);
    run_plan(state, index, answer, nothing)
}

/// Takes the mapping of a creator and a file of a volume that the session has open.
pub fn remove_appl<K: Keeper>(
    state: &mut State<K>,
    session: SessionNumber,
    dt: u16,
    dir: NodeId,
    creator: [u8; 4],
    path: &Path,
) -> Result<(Told, Outcome), OutOfMemory>
    ensures { RunsRow state.old session.0 (Call.RemoveAPPL dt dir creator path.now) result state.new }
{
    let Some(index) = state.opened(session, VolumeId(dt)) else {
        return Ok((refused(state.alloc, Code::ParamErr), Outcome::Done));
    };
    let volume = whole_at(state, index);
    let answer = plan_remove_appl(
        state.alloc,
        volume,
        state.user(session),
        latest(state),
        dir,
        creator,
        path,
    );
    let nothing = Bytes::new(state.alloc);
    run_plan(state, index, answer, nothing)
}

/// Tells a mapping of a creator, counted from 1 in the order of files, and what the bits ask of its file; an index of 0 counts as 1.
pub fn get_appl<K: Keeper>(
    state: &State<K>,
    session: SessionNumber,
    dt: u16,
    creator: [u8; 4],
    index: u16,
    bits: u16,
) -> Result<(Told, Outcome), OutOfMemory>
    ensures { RunsRow state.now session.0 (Call.GetAPPL dt creator index bits) result state.now }
{
    let Some(place) = state.opened(session, VolumeId(dt)) else {
        return Ok((refused(state.alloc, Code::ParamErr), Outcome::Done));
    };
    let mut block = Bytes::new(state.alloc);
    let opens = state.forks.on(VolumeId(dt));
    let kept = state.kept_at(place);
    let answer = put_appl(state.alloc, kept, &opens, &creator, index, bits, &mut block);
    told_of(state.alloc, answer, block)
}

/// A mapping of a creator, counted from 1: the file and the tag.
fn nth_appl(volume: &WholeVolume, creator: &[u8; 4], n: u16) -> Option<(NodeId, u32)>
    ensures { option_map shown_appl result ≡ option_map (λ (appl : Appl). (appl.node, appl.tag)) (nth_appl creator.now n volume.now.state.appls) }
{
    volume.desktop.nth_appl(creator, n)
}

/// The file and the tag of a mapping of a creator, counted from 1; an index of 0 counts as 1.
fn mapping<K: Keeper>(kept: &KeptVolume<K>, creator: &[u8; 4], index: u16) -> Option<(NodeId, u32)>
    ensures { FindsMapping kept.now.state creator.now index result }
{
    let volume = kept.whole();
    volume.keeps_sound();
    nth_appl(volume, creator, 1u16.max(index))
}

/// Appends the bits, a tag and the parameters of a file. After an error, any part of them may stand there.
fn put_file<K: Keeper>(
    alloc: Global,
    kept: &KeptVolume<K>,
    opens: &VolumeOpens<'_>,
    file: NodeId,
    tag: u32,
    bits: u16,
    out: &mut Bytes,
) -> Result<(), OutOfMemory>
    requires file { has_file kept.now.state.rows file.0 ≡ true }
    requires bits { IsWithin file_mask bits }
    ensures ok { OnOk result ((row : Row) → row_at kept.now.state.rows file.0 ≡ Some row → out.new ≡ out.old ++ canonical_reply (ApplReply bits tag (fork_values (opened opens.now) bits row))) }
    ensures err { OnErr result (take (length out.old) out.new ≡ out.old) }
{
    out.push_u16(bits)?;
    out.push_u32(tag)?;
    kept.file_params(alloc, file, opens, bits, out)
}

/// Appends what is told of a mapping of a creator, or tells why there is none. An error changes nothing.
#[tactic(auto, unfolding(volume_spec::specs::Appls::get_appl_refusal))]
fn put_appl<K: Keeper>(
    alloc: Global,
    kept: &KeptVolume<K>,
    opens: &VolumeOpens<'_>,
    creator: &[u8; 4],
    index: u16,
    bits: u16,
    out: &mut Bytes,
) -> Result<(), PlanFault>
    ensures refused { Refuses result (get_appl_refusal kept.now.state creator.now index bits) }
    ensures ok { OnOk result (out.new ≡ out.old ++ canonical_reply (get_appl_reply bits kept.now.state (opened opens.now) (get_appl_mapping kept.now.state creator.now index))) }
    ensures err { OnErr result (out.new ≡ out.old) }
{
    if is_outside(FileBits::MASK, bits) {
        return Err(PlanFault::Code(Code::BitmapErr));
    }
    let Some((file, tag)) = mapping(kept, creator, index) else {
        return Err(PlanFault::Code(Code::ItemNotFound));
    };
    let before = out.as_slice().len();
    match put_file(alloc, kept, opens, file, tag, bits, out) {
        Ok(()) => Ok(()),
        Err(_) => {
            out.truncate(before);
            Err(PlanFault::Memory)
        }
    }
}
