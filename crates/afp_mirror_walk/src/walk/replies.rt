//! What replies tell.
ghost use Rattle.std.specs.Prelude.{◌≡◌, None, Some, MatchOption};
ghost use Rattle.afp_mirror_walk.specs.Follows.{ends_fork, ends_list, fork_in, found_id_in, id_of, is_ok, node_in, piece_in, rows_in, volume_in};

use afp_base::{Code, ForkRef, NodeId, VolumeId};
use afp_bitmap::Values;
use afp_replies::{ListEntry, Reply};

/// A volume that was opened.
pub(crate) fn volume_of(reply: &Reply) -> Option<VolumeId>
    ensures { result ≡ volume_in reply.now }
{
    match reply {
        Reply::Params {
            values: Values::Volume(volume),
            ..
        } => Some(VolumeId(volume.volume)),
        _ => None,
    }
}

/// The id of a new directory.
pub(crate) fn node_of(reply: &Reply) -> Option<NodeId>
    ensures { result ≡ node_in reply.now }
{
    match reply {
        Reply::Node { id } => Some(*id),
        _ => None,
    }
}

/// The id among some values.
pub(crate) fn id_of(values: &Values) -> Option<NodeId>
    ensures { result ≡ id_of values.now }
{
    match values {
        Values::File(file) => Some(NodeId(file.id)),
        Values::Dir(dir) => Some(NodeId(dir.id)),
        Values::Volume(_) => None,
    }
}

/// The id of a node that was found.
pub(crate) fn found_id_of(reply: &Reply) -> Option<NodeId>
    ensures { result ≡ found_id_in reply.now }
{
    match reply {
        Reply::FileDirParams { values, .. } => id_of(values),
        _ => None,
    }
}

/// A fork that was opened.
pub(crate) fn fork_of(reply: &Reply) -> Option<ForkRef>
    ensures { result ≡ fork_in reply.now }
{
    match reply {
        Reply::Opened { reference, .. } => Some(*reference),
        _ => None,
    }
}

/// The entries of a list.
pub(crate) fn rows_of(reply: &Reply) -> Option<&[ListEntry]>
    ensures { MatchOption result (rows_in reply.now ≡ None) (λ rows. rows_in reply.now ≡ Some rows.now) }
{
    match reply {
        Reply::List { rows, .. } => Some(rows.as_slice()),
        _ => None,
    }
}

/// The bytes of a read.
pub(crate) fn piece_of(reply: &Reply) -> Option<&[u8]>
    ensures { MatchOption result (piece_in reply.now ≡ None) (λ piece. piece_in reply.now ≡ Some piece.now) }
{
    match reply {
        Reply::Piece { piece } => Some(piece.as_slice()),
        _ => None,
    }
}

/// The codes that are told apart.
pub(crate) fn is_ok(code: Code) -> bool
    ensures { result ≡ is_ok code }
{
    match code {
        Code::Ok => true,
        _ => false,
    }
}

/// A list has ended.
pub(crate) fn ends_list(code: Code) -> bool
    ensures { result ≡ ends_list code }
{
    match code {
        Code::ObjectNotFound => true,
        _ => false,
    }
}

/// A fork has ended.
pub(crate) fn ends_fork(code: Code) -> bool
    ensures { result ≡ ends_fork code }
{
    match code {
        Code::EOFErr => true,
        _ => false,
    }
}
