//! The reply to a request, read by its command and code.
ghost use Rattle.std.specs.Prelude.{◌≡◌, IfOk, MatchResult};
ghost use Rattle.afp_replies.specs.declared.reply.Reply.{Reply};
ghost use Rattle.afp_replies.specs.declared.reply.ReplyFault.TheVariants.{Memory};
ghost use Rattle.afp_replies.specs.Commands.{reply_layout_of, denied, ended};
ghost use Rattle.afp_replies.specs.lemma.Reading.{IsRead};
ghost use Rattle.afp_replies.specs.Replies.{layout_for, Shows, IsBadReplyAt, IfBadReply};

use crate::commands::{Shape, shape_of};
use crate::cursor::Cursor;
use crate::fields::{FILE, VOLUME};
use crate::read::*;
use crate::reply::{Reply, ReplyFault, ReplyKind};
use afp_base::Code;
use afp_bitmap::{FileBits, VolumeBits};
use std::alloc::Global;

/// The reply of a call that was carried out.
fn read_shape(
    alloc: Global,
    shape: Shape,
    kind: &ReplyKind,
    cursor: Cursor<'_>,
) -> Result<Reply, ReplyFault>
    ensures { IsRead (reply_layout_of shape kind.now) cursor.entry result }
{
    match shape {
        Shape::Unlisted => Err(cursor.bad()),
        Shape::Empty => read_empty(cursor),
        Shape::Start => read_start(cursor),
        Shape::StartExt => read_start_ext(cursor),
        Shape::End => read_end(cursor),
        Shape::EndExt => read_end_ext(cursor),
        Shape::Node => read_node(cursor),
        Shape::NarrowList => read_list(alloc, false, kind.bits, kind.dir_bits, cursor),
        Shape::WideList => read_list(alloc, true, kind.bits, kind.dir_bits, cursor),
        Shape::FileParams => read_params(alloc, FILE, FileBits::MASK, kind.bits, cursor),
        Shape::VolumeParams => read_params(alloc, VOLUME, VolumeBits::MASK, kind.bits, cursor),
        Shape::FileDirParams => read_file_dir_params(alloc, kind.bits, kind.dir_bits, cursor),
        Shape::Status => read_status(alloc, cursor),
        Shape::ServerParams => read_server_params(alloc, cursor),
        Shape::MappedName => read_mapped_name(alloc, kind.bits, cursor),
        Shape::MappedId => read_mapped_id(cursor),
        Shape::Opened => read_opened(alloc, kind.bits, cursor),
        Shape::Data => read_piece(alloc, cursor),
        Shape::Icon => read_piece(alloc, cursor),
        Shape::IconInfo => read_icon_info(cursor),
        Shape::UserInfo => read_user_info(kind.bits, cursor),
        Shape::Message => read_message(alloc, kind.bits, cursor),
        Shape::Desk => read_desk(cursor),
        Shape::Appl => read_appl(alloc, kind.bits, cursor),
        Shape::Comment => read_comment(alloc, cursor),
        Shape::Token => read_token(alloc, cursor),
    }
}

/// The reply of a call that a deny mode refused.
fn read_denial(
    alloc: Global,
    shape: Shape,
    kind: &ReplyKind,
    cursor: Cursor<'_>,
) -> Result<Reply, ReplyFault>
    ensures { IsRead (denied shape kind.now) cursor.entry result }
{
    match shape {
        Shape::Opened => read_denied(alloc, kind.bits, cursor),
        _ => read_empty(cursor),
    }
}

/// The reply of a call that met the end of a fork.
fn read_ended(alloc: Global, shape: Shape, cursor: Cursor<'_>) -> Result<Reply, ReplyFault>
    ensures { IsRead (ended shape) cursor.entry result }
{
    match shape {
        Shape::Data => read_piece(alloc, cursor),
        _ => read_empty(cursor),
    }
}

/// The reply with this code.
#[tactic(auto, unfolding(crate::specs::Replies::layout_for))]
fn read(
    alloc: Global,
    kind: &ReplyKind,
    code: Code,
    cursor: Cursor<'_>,
) -> Result<Reply, ReplyFault>
    ensures { IsRead (layout_for kind.now code) cursor.entry result }
{
    let shape = shape_of(kind.command);
    match code {
        Code::Ok => read_shape(alloc, shape, kind, cursor),
        Code::DenyConflict => read_denial(alloc, shape, kind, cursor),
        Code::EOFErr => read_ended(alloc, shape, cursor),
        _ => read_empty(cursor),
    }
}

/// The reply to a request of this kind with this code, where the bytes are one from the first to the
/// last. `Bad` tells the place of the first field that is not there or does not fit, or where bytes
/// stand behind the last field.
pub fn read_reply(
    alloc: Global,
    kind: &ReplyKind,
    code: Code,
    bytes: &[u8],
) -> Result<Reply, ReplyFault>
    // What is read is what the bytes show.
    ensures found { IfOk result (λ r. Shows r kind.now code bytes.now) }
    // What the bytes show is read, unless memory runs out.
    ensures only { (r : Reply) → Shows r kind.now code bytes.now → MatchResult result (λ s. s ≡ r) (λ fault. fault ≡ Memory) }
    // Where they show nothing.
    ensures bad { IfBadReply result (IsBadReplyAt kind.now code bytes.now) }
{
    read(alloc, kind, code, Cursor::new(bytes))
}
