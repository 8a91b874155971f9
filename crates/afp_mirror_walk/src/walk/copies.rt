//! A fork is copied.
ghost use Rattle.std.specs.Prelude.{◌≡◌, ◌+◌, ◌<◌, ◌≤◌, length};
ghost use Rattle.afp_base.specs.Limits.{most_fork_bytes};
ghost use Rattle.afp_mirror_walk.specs.Follows.{Gives, closed_from, closed_to, first_id, has_asked, opened_from, opened_to, read_piece, write_or_close, written};
ghost use Rattle.afp_mirror_walk.specs.Standing.{FitsCopying, most_piece};
ghost use Rattle.afp_mirror_walk.specs.lemma.Reads.{GivesRead, TakesRead};

use crate::walk::ends::{MirrorEnd, Side};
use crate::walk::replies::{ends_fork, fork_of, is_ok, piece_of};
use crate::walk::standing::{Copying, Found, Stage, Walk};
use crate::walk::stepping::Heard;
use afp_base::{Bytes, MOST_FORK_BYTES, NodeId};
use std::alloc::Global;

/// How many bytes are read at once.
const PIECE: usize = 65_536;

/// What a read gave.
#[derive(Drop)]
pub(crate) struct Read {
    pub(crate) piece: Bytes,
    /// There is no more.
    pub(crate) last: bool,
}

/// Whether a read has as many bytes as were asked, or at the end of a fork fewer.
fn has_asked(last: bool, piece: &[u8]) -> bool
    ensures { result ≡ has_asked last piece.now }
{
    if last {
        piece.len() < PIECE
    } else {
        piece.len() == PIECE
    }
}

/// The bytes of a read behind so many.
fn bytes_read(
    alloc: Global,
    side: Side,
    node: NodeId,
    len: u64,
    last: bool,
    heard: &Heard,
) -> Result<Read, MirrorEnd>
    requires { len ≤ most_fork_bytes }
    ensures { GivesRead side node len last heard.now.reply result }
{
    let _node = node;
    match piece_of(&heard.reply) {
        Some(piece) => {
            if !has_asked(last, piece) {
                return Err(MirrorEnd::Bad { side });
            }
            if len + piece.len() as u64 > MOST_FORK_BYTES {
                return Err(MirrorEnd::Bad { side });
            }
            match Bytes::of(alloc, piece) {
                Ok(piece) => Ok(Read { piece, last }),
                Err(_) => Err(MirrorEnd::Memory),
            }
        }
        None => Err(MirrorEnd::Bad { side }),
    }
}

/// What a read gave behind so many bytes.
#[tactic(auto, using(crate::proofs::Steps::took_more, crate::proofs::Steps::took_last))]
pub(crate) fn take_read(
    alloc: Global,
    side: Side,
    node: NodeId,
    len: u64,
    heard: &Heard,
) -> Result<Read, MirrorEnd>
    requires { len ≤ most_fork_bytes }
    ensures { TakesRead side node len heard.now.code heard.now.reply result }
{
    if is_ok(heard.code) {
        return bytes_read(alloc, side, node, len, false, heard);
    }
    if ends_fork(heard.code) {
        return bytes_read(alloc, side, node, len, true, heard);
    }
    Err(MirrorEnd::Refused {
        side,
        code: heard.code,
        node,
    })
}

/// The id of the first node of a page.
pub(crate) fn first_id(page: &[Found]) -> NodeId
    requires { 0 < length page.now }
    ensures { result ≡ first_id page.now }
{
    let found = &page[0];
    found.id
}

/// The source's fork is open.
#[tactic(auto, unfolding(crate::specs::Follows::opened_from))]
pub(crate) fn opened_from(walk: Walk, copying: Copying, heard: &Heard) -> Result<Walk, MirrorEnd>
    requires { FitsCopying (length walk.page) copying 0 }
    ensures { Gives (opened_from walk copying heard.now.code heard.now.reply) result }
{
    if !is_ok(heard.code) {
        return Err(MirrorEnd::Refused {
            side: Side::From,
            code: heard.code,
            node: first_id(walk.page.as_slice()),
        });
    }
    match fork_of(&heard.reply) {
        Some(from) => {
            let mut walk = walk;
            walk.stage = Stage::OpensTo(Copying { from, ..copying });
            Ok(walk)
        }
        None => Err(MirrorEnd::Bad { side: Side::From }),
    }
}

/// The target's fork is open.
#[tactic(auto, unfolding(crate::specs::Follows::opened_to))]
pub(crate) fn opened_to(walk: Walk, copying: Copying, heard: &Heard) -> Result<Walk, MirrorEnd>
    requires { FitsCopying (length walk.page) copying 0 }
    ensures { Gives (opened_to walk copying heard.now.code heard.now.reply) result }
{
    if !is_ok(heard.code) {
        return Err(MirrorEnd::Refused {
            side: Side::To,
            code: heard.code,
            node: copying.target,
        });
    }
    match fork_of(&heard.reply) {
        Some(to) => {
            let mut walk = walk;
            walk.stage = Stage::Reads(Copying { to, ..copying });
            Ok(walk)
        }
        None => Err(MirrorEnd::Bad { side: Side::To }),
    }
}

/// The stage behind a read.
fn write_or_close(copying: Copying, piece: &[u8], last: bool) -> Stage
    ensures { result ≡ write_or_close copying piece.now last }
{
    if piece.is_empty() {
        Stage::ClosesFrom(copying)
    } else {
        Stage::Writes { copying, last }
    }
}

/// Bytes were read.
#[tactic(auto, using(crate::proofs::Steps::piece_ends), unfolding(crate::specs::Follows::read_piece))]
pub(crate) fn read_piece(walk: Walk, copying: Copying, heard: &Heard) -> Result<Walk, MirrorEnd>
    requires { FitsCopying (length walk.page) copying 0 }
    ensures { Gives (read_piece walk copying heard.now.code heard.now.reply) result }
{
    let node = first_id(walk.page.as_slice());
    match take_read(walk.alloc, Side::From, node, copying.len, heard) {
        Ok(read) => {
            let mut walk = walk;
            walk.stage = write_or_close(copying, read.piece.as_slice(), read.last);
            walk.piece = read.piece;
            Ok(walk)
        }
        Err(end) => Err(end),
    }
}

/// They were written.
#[tactic(auto, unfolding(crate::specs::Follows::written))]
pub(crate) fn written(
    walk: Walk,
    copying: Copying,
    last: bool,
    heard: &Heard,
) -> Result<Walk, MirrorEnd>
    requires { FitsCopying (length walk.page) copying (length walk.piece) }
    ensures { Gives (written walk copying last heard.now.code) result }
{
    if !is_ok(heard.code) {
        return Err(MirrorEnd::Refused {
            side: Side::To,
            code: heard.code,
            node: copying.target,
        });
    }
    let copying = Copying {
        len: copying.len + walk.piece.as_slice().len() as u64,
        ..copying
    };
    let mut walk = walk;
    walk.stage = if last {
        Stage::ClosesFrom(copying)
    } else {
        Stage::Reads(copying)
    };
    Ok(walk)
}

/// The source's fork is closed.
#[tactic(auto, unfolding(crate::specs::Follows::closed_from))]
pub(crate) fn closed_from(walk: Walk, copying: Copying, heard: &Heard) -> Result<Walk, MirrorEnd>
    requires { FitsCopying (length walk.page) copying 0 }
    ensures { Gives (closed_from walk copying heard.now.code) result }
{
    if !is_ok(heard.code) {
        return Err(MirrorEnd::Refused {
            side: Side::From,
            code: heard.code,
            node: first_id(walk.page.as_slice()),
        });
    }
    let mut walk = walk;
    walk.stage = Stage::ClosesTo(copying);
    Ok(walk)
}

/// The target's fork is closed: the resource fork follows the data fork.
#[tactic(auto, unfolding(crate::specs::Follows::closed_to))]
pub(crate) fn closed_to(walk: Walk, copying: Copying, heard: &Heard) -> Result<Walk, MirrorEnd>
    requires { FitsCopying (length walk.page) copying 0 }
    ensures { Gives (closed_to walk copying heard.now.code) result }
{
    if !is_ok(heard.code) {
        return Err(MirrorEnd::Refused {
            side: Side::To,
            code: heard.code,
            node: copying.target,
        });
    }
    let mut walk = walk;
    walk.stage = if copying.resource {
        Stage::SetsFile {
            target: copying.target,
        }
    } else {
        Stage::OpensFrom(Copying {
            resource: true,
            len: 0,
            ..copying
        })
    };
    Ok(walk)
}
