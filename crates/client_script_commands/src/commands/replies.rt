//! What replies tell.
ghost use Rattle.std.specs.Prelude.{◌≡◌, IfOk};
ghost use Rattle.client_script_lines.specs.calls.Asked.{IsAskable};
ghost use Rattle.client_script_commands.specs.commands.Replies.{comment_in, desk_in, fork_in, id_in, name_in, node_in, start_in, volume_in};
ghost use Rattle.client_script_commands.specs.parts.Told.{MustTell};

use crate::parts::{Asker, Stop, must, replies_tell};
use afp_base::{Bytes, ForkRef, OutOfMemory, VolumeId};
use afp_bitmap::Values;
use afp_calls_grammar::Call;
use afp_replies::Reply;

/// Lets a reply go.
fn let_go(_reply: Reply) {}

/// The id of a new directory.
fn node_of(reply: &Reply) -> Option<u32>
    ensures { result ≡ node_in reply.now }
{
    match reply {
        Reply::Node { id } => Some(id.0),
        _ => None,
    }
}

/// Asks a call whose reply tells the id of a new directory.
pub(crate) fn ask_node<A: Asker>(asker: &mut A, call: Call) -> Result<u32, Stop<A::End>>
    requires { IsAskable call }
    ensures { MustTell node_in call.entry (A.exchanges asker.old) result (A.exchanges asker.new) }
{
    replies_tell::<A, u32>();
    let reply = must(asker, call)?;
    let found = node_of(&reply);
    let_go(reply);
    match found {
        Some(value) => Ok(value),
        None => Err(Stop::BadReply),
    }
}

/// The volume that a reply opens.
pub fn volume_of(reply: &Reply) -> Option<VolumeId>
    ensures { result ≡ volume_in reply.now }
{
    match reply {
        Reply::Params {
            values: Values::Volume(volume),
            ..
        } => Some(VolumeId(volume.volume)),
        _ => None,
    }
}

/// Asks a call whose reply tells a volume that was opened.
pub(crate) fn ask_volume<A: Asker>(asker: &mut A, call: Call) -> Result<VolumeId, Stop<A::End>>
    requires { IsAskable call }
    ensures { MustTell volume_in call.entry (A.exchanges asker.old) result (A.exchanges asker.new) }
{
    replies_tell::<A, VolumeId>();
    let reply = must(asker, call)?;
    let found = volume_of(&reply);
    let_go(reply);
    match found {
        Some(value) => Ok(value),
        None => Err(Stop::BadReply),
    }
}

/// A fork that was opened.
fn fork_of(reply: &Reply) -> Option<ForkRef>
    ensures { result ≡ fork_in reply.now }
{
    match reply {
        Reply::Opened { reference, .. } => Some(*reference),
        _ => None,
    }
}

/// Asks a call whose reply tells a fork that was opened.
pub fn ask_fork<A: Asker>(asker: &mut A, call: Call) -> Result<ForkRef, Stop<A::End>>
    requires { IsAskable call }
    ensures { MustTell fork_in call.entry (A.exchanges asker.old) result (A.exchanges asker.new) }
{
    replies_tell::<A, ForkRef>();
    let reply = must(asker, call)?;
    let found = fork_of(&reply);
    let_go(reply);
    match found {
        Some(value) => Ok(value),
        None => Err(Stop::BadReply),
    }
}

/// The first byte of a lock.
fn start_of(reply: &Reply) -> Option<u64>
    ensures { result ≡ start_in reply.now }
{
    match reply {
        Reply::StartExt { start } => Some(*start),
        _ => None,
    }
}

/// Asks a call whose reply tells the first byte of a lock.
pub(crate) fn ask_start<A: Asker>(asker: &mut A, call: Call) -> Result<u64, Stop<A::End>>
    requires { IsAskable call }
    ensures { MustTell start_in call.entry (A.exchanges asker.old) result (A.exchanges asker.new) }
{
    replies_tell::<A, u64>();
    let reply = must(asker, call)?;
    let found = start_of(&reply);
    let_go(reply);
    match found {
        Some(value) => Ok(value),
        None => Err(Stop::BadReply),
    }
}

/// A desktop database.
fn desk_of(reply: &Reply) -> Option<u16>
    ensures { result ≡ desk_in reply.now }
{
    match reply {
        Reply::Desk { dt } => Some(*dt),
        _ => None,
    }
}

/// Asks a call whose reply tells a desktop database.
pub fn ask_desk<A: Asker>(asker: &mut A, call: Call) -> Result<u16, Stop<A::End>>
    requires { IsAskable call }
    ensures { MustTell desk_in call.entry (A.exchanges asker.old) result (A.exchanges asker.new) }
{
    replies_tell::<A, u16>();
    let reply = must(asker, call)?;
    let found = desk_of(&reply);
    let_go(reply);
    match found {
        Some(value) => Ok(value),
        None => Err(Stop::BadReply),
    }
}

/// The id of a file or a directory.
fn id_of(reply: &Reply) -> Option<u32>
    ensures { result ≡ id_in reply.now }
{
    match reply {
        Reply::FileDirParams {
            values: Values::File(file),
            ..
        } => Some(file.id),
        Reply::FileDirParams {
            values: Values::Dir(dir),
            ..
        } => Some(dir.id),
        _ => None,
    }
}

/// Asks a call whose reply tells the id of a file or a directory.
pub(crate) fn ask_id<A: Asker>(asker: &mut A, call: Call) -> Result<u32, Stop<A::End>>
    requires { IsAskable call }
    ensures { MustTell id_in call.entry (A.exchanges asker.old) result (A.exchanges asker.new) }
{
    replies_tell::<A, u32>();
    let reply = must(asker, call)?;
    let found = id_of(&reply);
    let_go(reply);
    match found {
        Some(value) => Ok(value),
        None => Err(Stop::BadReply),
    }
}

/// The name of a file.
fn name_of(reply: &Reply) -> Result<Option<Bytes>, OutOfMemory>
    ensures { IfOk result (λ found. found ≡ name_in reply.now) }
{
    match reply {
        Reply::Params {
            values: Values::File(file),
            ..
        } => Ok(Some(file.utf8_name.copy()?)),
        _ => Ok(None),
    }
}

/// Asks a call whose reply tells the name of a file.
pub(crate) fn ask_name<A: Asker>(asker: &mut A, call: Call) -> Result<Bytes, Stop<A::End>>
    requires { IsAskable call }
    ensures { MustTell name_in call.entry (A.exchanges asker.old) result (A.exchanges asker.new) }
{
    replies_tell::<A, Bytes>();
    let reply = must(asker, call)?;
    let found = name_of(&reply);
    let_go(reply);
    match found {
        Ok(Some(value)) => Ok(value),
        Ok(None) => Err(Stop::BadReply),
        Err(_) => Err(Stop::Memory),
    }
}

/// A comment.
fn comment_of(reply: &Reply) -> Result<Option<Bytes>, OutOfMemory>
    ensures { IfOk result (λ found. found ≡ comment_in reply.now) }
{
    match reply {
        Reply::Comment { comment } => Ok(Some(comment.copy()?)),
        _ => Ok(None),
    }
}

/// Asks a call whose reply tells a comment.
pub(crate) fn ask_comment<A: Asker>(asker: &mut A, call: Call) -> Result<Bytes, Stop<A::End>>
    requires { IsAskable call }
    ensures { MustTell comment_in call.entry (A.exchanges asker.old) result (A.exchanges asker.new) }
{
    replies_tell::<A, Bytes>();
    let reply = must(asker, call)?;
    let found = comment_of(&reply);
    let_go(reply);
    match found {
        Ok(Some(value)) => Ok(value),
        Ok(None) => Err(Stop::BadReply),
        Err(_) => Err(Stop::Memory),
    }
}
