//! Forks are compared.
ghost use Rattle.std.specs.Prelude.{◌≡◌, ◌+◌, ◌<◌, ◌≤◌, ◌++◌, ◌∷◌, [], bytes_eq, drop, length, slice_get, OnOk, IfOk};
ghost use Rattle.afp_base.specs.Limits.{most_fork_bytes};
ghost use Rattle.afp_mirror_walk.specs.Follows.{Gives, lines_with, check_at, checked_from, checked_to, compared, dirs_before, first_difference, line_of, next_check, read_from, read_to, shut_from, shut_or_read, shut_to, source_at};
ghost use Rattle.afp_mirror_walk.specs.Standing.{FitsChecking};

use crate::walk::copies::take_read;
use crate::walk::ends::{Line, MirrorEnd, Side};
use crate::walk::replies::{fork_of, is_ok};
use crate::walk::sets::target_at;
use crate::walk::standing::{Checking, Made, Stage, Walk};
use crate::walk::stepping::Heard;
use afp_base::{ForkRef, NodeId, OutOfMemory};

/// Appends the line of a node.
fn put_line(
    lines: &mut Vec<Line>,
    node: &Made,
    data_len: u64,
    resource_len: u64,
) -> Result<(), OutOfMemory>
    ensures { OnOk result (lines.new.items ≡ lines.old.items ++ line_of node.now data_len resource_len ∷ []) }
{
    lines.push(Line {
        source: node.source,
        target: node.target,
        dir: node.dir,
        data_len,
        resource_len,
    })?;
    Ok(())
}

/// Appends the lines of directories from an index on up to the first file, and gives its index.
fn put_dirs(lines: &mut Vec<Line>, nodes: &[Made], from: usize) -> Result<usize, OutOfMemory>
    requires { from ≤ length nodes.now }
    ensures lines { OnOk result (lines.new.items ≡ lines.old.items ++ dirs_before (drop from nodes.now)) }
    ensures index { IfOk result (λ index. index ≡ from + length (dirs_before (drop from nodes.now))) }
{
    let mut index = from;
    while index < nodes.len() {
        let node = &nodes[index];
        if !node.dir {
            return Ok(index);
        }
        put_line(lines, node, 0, 0)?;
        index += 1;
    }
    Ok(index)
}

/// The file of an index is compared next; where there is none, all is done.
fn check_at(walk: Walk, index: usize) -> Result<Walk, MirrorEnd>
    ensures { Gives (check_at walk index) result }
{
    if index < walk.nodes.len() {
        let mut walk = walk;
        walk.stage = Stage::ChecksFrom(Checking {
            index,
            resource: false,
            from: ForkRef(0),
            to: ForkRef(0),
            len: 0,
            data_len: 0,
        });
        Ok(walk)
    } else {
        Err(MirrorEnd::Done(walk.lines))
    }
}

/// On to the first file from an index on; where there is none, all is done.
#[tactic(auto, unfolding(crate::specs::Follows::next_check))]
pub(crate) fn next_check(walk: Walk, from: usize) -> Result<Walk, MirrorEnd>
    requires { from ≤ length walk.nodes }
    ensures { Gives (next_check walk from) result }
{
    let mut walk = walk;
    match put_dirs(&mut walk.lines, walk.nodes.as_slice(), from) {
        Ok(index) => check_at(walk, index),
        Err(_) => Err(MirrorEnd::Memory),
    }
}

/// The id of the node of an index.
fn source_at(nodes: &[Made], index: usize) -> NodeId
    requires { index < length nodes.now }
    ensures { result ≡ source_at (slice_get nodes.now index) }
{
    let node = &nodes[index];
    node.source
}

/// The source's fork is open.
#[tactic(auto, unfolding(crate::specs::Follows::checked_from))]
pub(crate) fn checked_from(walk: Walk, checking: Checking, heard: &Heard) -> Result<Walk, MirrorEnd>
    requires { FitsChecking (length walk.nodes) checking 0 }
    ensures { Gives (checked_from walk checking heard.now.code heard.now.reply) result }
{
    if !is_ok(heard.code) {
        return Err(MirrorEnd::Refused {
            side: Side::From,
            code: heard.code,
            node: source_at(walk.nodes.as_slice(), checking.index),
        });
    }
    match fork_of(&heard.reply) {
        Some(from) => {
            let mut walk = walk;
            walk.stage = Stage::ChecksTo(Checking { from, ..checking });
            Ok(walk)
        }
        None => Err(MirrorEnd::Bad { side: Side::From }),
    }
}

/// The target's fork is open.
#[tactic(auto, unfolding(crate::specs::Follows::checked_to))]
pub(crate) fn checked_to(walk: Walk, checking: Checking, heard: &Heard) -> Result<Walk, MirrorEnd>
    requires { FitsChecking (length walk.nodes) checking 0 }
    ensures { Gives (checked_to walk checking heard.now.code heard.now.reply) result }
{
    if !is_ok(heard.code) {
        return Err(MirrorEnd::Refused {
            side: Side::To,
            code: heard.code,
            node: target_at(walk.nodes.as_slice(), checking.index),
        });
    }
    match fork_of(&heard.reply) {
        Some(to) => {
            let mut walk = walk;
            walk.stage = Stage::ReadsFrom(Checking { to, ..checking });
            Ok(walk)
        }
        None => Err(MirrorEnd::Bad { side: Side::To }),
    }
}

/// The source's bytes were read.
#[tactic(auto, using(crate::proofs::Steps::from_ends), unfolding(crate::specs::Follows::read_from))]
pub(crate) fn read_from(walk: Walk, checking: Checking, heard: &Heard) -> Result<Walk, MirrorEnd>
    requires { FitsChecking (length walk.nodes) checking 0 }
    ensures { Gives (read_from walk checking heard.now.code heard.now.reply) result }
{
    let node = source_at(walk.nodes.as_slice(), checking.index);
    match take_read(walk.alloc, Side::From, node, checking.len, heard) {
        Ok(read) => {
            let mut walk = walk;
            walk.stage = Stage::ReadsTo {
                checking,
                last: read.last,
            };
            walk.piece = read.piece;
            Ok(walk)
        }
        Err(end) => Err(end),
    }
}

/// The first place at which bytes differ, or how many the shorter ones are.
#[tactic(auto, using(crate::proofs::Steps::difference_stops))]
fn first_difference(a: &[u8], b: &[u8]) -> usize
    ensures difference { result ≡ first_difference a.now b.now }
    ensures within { result ≤ length a.now }
{
    let mut index = 0;
    while index < a.len() && index < b.len() {
        if a[index] != b[index] {
            return index;
        }
        index += 1;
    }
    index
}

fn shut_or_read(checking: Checking, last: bool) -> Stage
    ensures { result ≡ shut_or_read checking last }
{
    if last {
        Stage::ShutsFrom(checking)
    } else {
        Stage::ReadsFrom(checking)
    }
}

fn are_equal(a: &[u8], b: &[u8]) -> bool
    ensures { result ≡ bytes_eq a.now b.now }
{
    a == b
}

/// The target's bytes are the source's, or the forks differ.
fn compared(
    walk: Walk,
    checking: Checking,
    last: bool,
    piece: &[u8],
    ended: bool,
) -> Result<Walk, MirrorEnd>
    requires fits { FitsChecking (length walk.nodes) checking (length walk.piece) }
    requires within { checking.len + length piece.now ≤ most_fork_bytes }
    ensures { Gives (compared walk checking last piece.now ended) result }
{
    let _ended = ended;
    if !are_equal(piece, walk.piece.as_slice()) {
        let at = first_difference(walk.piece.as_slice(), piece);
        return Err(MirrorEnd::Changed {
            node: target_at(walk.nodes.as_slice(), checking.index),
            at: checking.len + at as u64,
        });
    }
    let checking = Checking {
        len: checking.len + piece.len() as u64,
        ..checking
    };
    let mut walk = walk;
    walk.stage = shut_or_read(checking, last);
    Ok(walk)
}

/// The target's bytes were read.
#[tactic(auto, using(crate::proofs::Steps::to_ends), unfolding(crate::specs::Follows::read_to))]
pub(crate) fn read_to(
    walk: Walk,
    checking: Checking,
    last: bool,
    heard: &Heard,
) -> Result<Walk, MirrorEnd>
    requires { FitsChecking (length walk.nodes) checking (length walk.piece) }
    ensures { Gives (read_to walk checking last heard.now.code heard.now.reply) result }
{
    let node = target_at(walk.nodes.as_slice(), checking.index);
    match take_read(walk.alloc, Side::To, node, checking.len, heard) {
        Ok(read) => compared(walk, checking, last, read.piece.as_slice(), read.last),
        Err(end) => Err(end),
    }
}

/// The source's fork is closed.
#[tactic(auto, unfolding(crate::specs::Follows::shut_from))]
pub(crate) fn shut_from(walk: Walk, checking: Checking, heard: &Heard) -> Result<Walk, MirrorEnd>
    requires { FitsChecking (length walk.nodes) checking 0 }
    ensures { Gives (shut_from walk checking heard.now.code) result }
{
    if !is_ok(heard.code) {
        return Err(MirrorEnd::Refused {
            side: Side::From,
            code: heard.code,
            node: source_at(walk.nodes.as_slice(), checking.index),
        });
    }
    let mut walk = walk;
    walk.stage = Stage::ShutsTo(checking);
    Ok(walk)
}

/// Appends the line of the node of an index.
fn put_line_at(lines: &mut Vec<Line>, nodes: &[Made], checking: Checking) -> Result<(), OutOfMemory>
    requires { checking.index < length nodes.now }
    ensures { OnOk result (lines.new.items ≡ lines_with lines.old.items (slice_get nodes.now checking.index) checking) }
{
    let node = &nodes[checking.index];
    put_line(lines, node, checking.data_len, checking.len)
}

/// The target's fork is closed: the resource fork follows the data fork, and the next file that.
#[tactic(auto, unfolding(crate::specs::Follows::shut_to))]
pub(crate) fn shut_to(walk: Walk, checking: Checking, heard: &Heard) -> Result<Walk, MirrorEnd>
    requires { FitsChecking (length walk.nodes) checking 0 }
    ensures { Gives (shut_to walk checking heard.now.code) result }
{
    if !is_ok(heard.code) {
        return Err(MirrorEnd::Refused {
            side: Side::To,
            code: heard.code,
            node: target_at(walk.nodes.as_slice(), checking.index),
        });
    }
    let mut walk = walk;
    if checking.resource {
        return match put_line_at(&mut walk.lines, walk.nodes.as_slice(), checking) {
            Ok(()) => next_check(walk, checking.index + 1),
            Err(_) => Err(MirrorEnd::Memory),
        };
    }
    walk.stage = Stage::ChecksFrom(Checking {
        resource: true,
        len: 0,
        data_len: checking.len,
        ..checking
    });
    Ok(walk)
}
