//! FPAddComment, FPRemoveComment and FPGetComment (AFP Reference, under these names).
ghost use Rattle.std.specs.Prelude.{◌≡◌, ◌<◌, ◌++◌, IfSome, OnOk, OnErr, length, option_map, take};
ghost use Rattle.std.specs.Option.{option_copied};
ghost use Rattle.afp_replies.specs.Replies.{canonical_reply};
ghost use Rattle.afp_replies.specs.declared.reply.Reply.TheVariants.{Comment};
ghost use Rattle.afp_calls_grammar.specs.declared.grammar.call.Call.{Call};
ghost use Rattle.afp_serial.specs.Comments.{get_comment_reply};
ghost use Rattle.volume_spec.specs.Comments.{get_comment_refusal, get_comment_text};
ghost use Rattle.volume_spec.specs.Desktop.{comment_at};
ghost use Rattle.volume_spec.specs.VolumeState.{Comment as NodeComment};
ghost use Rattle.volume_tree.specs.Answered.{Refuses};
ghost use Rattle.afp_core_state.specs.Running.{RunsRow};

use afp_base::{Bytes, Code, NodeId, OutOfMemory, SessionNumber, VolumeId};
use afp_core_state::{State, latest, refused, run_plan, told_of, whole_at};
use afp_names::Path;
use afp_serial::{Outcome, Told};
use record_keeper::Keeper;
use std::alloc::Global;
use volume_edits::{WholeVolume, plan_add_comment, plan_remove_comment};
use volume_spec::desktop_laws::desktops_keep_volumes_sound;
use volume_tree::PlanFault;

/// Puts the comment of a node of a volume that the session has open. An empty text takes it away.
pub fn add_comment<K: Keeper>(
    state: &mut State<K>,
    session: SessionNumber,
    dt: u16,
    dir: NodeId,
    path: &Path,
    comment: &Bytes,
) -> Result<(Told, Outcome), OutOfMemory>
    ensures { RunsRow state.old session.0 (Call.AddComment dt dir path.now comment.now) result state.new }
{
    let Some(index) = state.opened(session, VolumeId(dt)) else {
        return Ok((refused(state.alloc, Code::ParamErr), Outcome::Done));
    };
    let text = comment.copy()?;
    let volume = whole_at(state, index);
    let answer = plan_add_comment(
        state.alloc,
        volume,
        state.user(session),
        latest(state),
        dir,
        path,
        text,
    );
    let nothing = Bytes::new(state.alloc);
    run_plan(state, index, answer, nothing)
}

/// Takes the comment of a node of a volume that the session has open.
pub fn remove_comment<K: Keeper>(
    state: &mut State<K>,
    session: SessionNumber,
    dt: u16,
    dir: NodeId,
    path: &Path,
) -> Result<(Told, Outcome), OutOfMemory>
    ensures { RunsRow state.old session.0 (Call.RemoveComment dt dir path.now) result state.new }
{
    let Some(index) = state.opened(session, VolumeId(dt)) else {
        return Ok((refused(state.alloc, Code::ParamErr), Outcome::Done));
    };
    let volume = whole_at(state, index);
    let answer = plan_remove_comment(
        state.alloc,
        volume,
        state.user(session),
        latest(state),
        dir,
        path,
    );
    let nothing = Bytes::new(state.alloc);
    run_plan(state, index, answer, nothing)
}

/// Tells the comment of a node of a volume that the session has open.
pub fn get_comment<K: Keeper>(
    state: &State<K>,
    session: SessionNumber,
    dt: u16,
    dir: NodeId,
    path: &Path,
) -> Result<(Told, Outcome), OutOfMemory>
    ensures { RunsRow state.now session.0 (Call.GetComment dt dir path.now) result state.now }
{
    let Some(index) = state.opened(session, VolumeId(dt)) else {
        return Ok((refused(state.alloc, Code::ParamErr), Outcome::Done));
    };
    let mut block = Bytes::new(state.alloc);
    let volume = whole_at(state, index);
    let answer = put_comment(
        state.alloc,
        volume,
        state.user(session),
        dir,
        path,
        &mut block,
    );
    told_of(state.alloc, answer, block)
}

/// The text of a node's comment, which has at most 199 bytes.
fn comment_of(volume: &WholeVolume, id: NodeId) -> Option<&[u8]>
    ensures text { option_copied result ≡ option_map (λ (comment : NodeComment). comment.text) (comment_at id.0 volume.now.state.comments) }
    ensures short { IfSome result (λ text. length text.now < 256) }
{
    desktops_keep_volumes_sound();
    volume.keeps_sound();
    volume.comment(id)
}

/// Appends a comment behind its length. After an error, any part may stand there.
fn put_text(text: &[u8], out: &mut Bytes) -> Result<(), OutOfMemory>
    requires { length text.now < 256 }
    ensures ok { OnOk result (out.new ≡ out.old ++ canonical_reply (Comment text.now)) }
    ensures err { OnErr result (take (length out.old) out.new ≡ out.old) }
{
    out.push_u8(text.len() as u8)?;
    out.extend(text)
}

/// Appends what is told of the comment of the node to which a path leads a user, or tells why there is none. An error changes nothing.
#[tactic(auto, unfolding(volume_spec::specs::Comments::get_comment_refusal, volume_spec::specs::Comments::get_comment_text))]
fn put_comment(
    alloc: Global,
    volume: &WholeVolume,
    user: u32,
    dir: NodeId,
    path: &Path,
    out: &mut Bytes,
) -> Result<(), PlanFault>
    ensures refused { Refuses result (get_comment_refusal volume.now.state user dir.0 path.now) }
    ensures ok { OnOk result (out.new ≡ out.old ++ canonical_reply (get_comment_reply (get_comment_text volume.now.state user dir.0 path.now))) }
    ensures err { OnErr result (out.new ≡ out.old) }
{
    let id = match volume.resolve(alloc, user, dir, path) {
        Ok(id) => id,
        Err(fault) => return Err(fault),
    };
    let Some(text) = comment_of(volume, id) else {
        return Err(PlanFault::Code(Code::ItemNotFound));
    };
    let before = out.as_slice().len();
    match put_text(text, out) {
        Ok(()) => Ok(()),
        Err(_) => {
            out.truncate(before);
            Err(PlanFault::Memory)
        }
    }
}
