//! What is set of nodes.
ghost use Rattle.std.specs.Prelude.{◌≡◌, ◌<◌, ◌≤◌, length, slice_get, IfSome};
ghost use Rattle.afp_mirror_walk.specs.Follows.{Gives, last_dir, next_set, set_dir, set_file, target_at};

use crate::walk::checks::next_check;
use crate::walk::ends::{MirrorEnd, Side};
use crate::walk::lists::next_made;
use crate::walk::replies::is_ok;
use crate::walk::standing::{Made, Stage, Walk};
use crate::walk::stepping::Heard;
use afp_base::NodeId;

/// A file is set.
#[tactic(auto, unfolding(crate::specs::Follows::set_file))]
pub(crate) fn set_file(walk: Walk, target: NodeId, heard: &Heard) -> Result<Walk, MirrorEnd>
    requires { 0 < length walk.page }
    ensures { Gives (set_file walk target heard.now.code) result }
{
    if !is_ok(heard.code) {
        return Err(MirrorEnd::Refused {
            side: Side::To,
            code: heard.code,
            node: target,
        });
    }
    next_made(walk, target)
}

/// The last directory before an index.
fn last_dir(nodes: &[Made], before: usize) -> Option<usize>
    requires { before ≤ length nodes.now }
    ensures dir { result ≡ last_dir nodes.now before }
    ensures within { IfSome result (λ index. index < length nodes.now) }
{
    let mut index = before;
    while index > 0 {
        index -= 1;
        let node = &nodes[index];
        if node.dir {
            return Some(index);
        }
    }
    None
}

/// On to the directory before an index; where there is none, files are compared.
#[tactic(auto, unfolding(crate::specs::Follows::next_set))]
pub(crate) fn next_set(walk: Walk, before: usize) -> Result<Walk, MirrorEnd>
    requires { before ≤ length walk.nodes }
    ensures { Gives (next_set walk before) result }
{
    match last_dir(walk.nodes.as_slice(), before) {
        Some(index) => {
            let mut walk = walk;
            walk.stage = Stage::SetsDir { index };
            Ok(walk)
        }
        None => next_check(walk, 0),
    }
}

/// The id of what was made for the node of an index.
pub(crate) fn target_at(nodes: &[Made], index: usize) -> NodeId
    requires { index < length nodes.now }
    ensures { result ≡ target_at (slice_get nodes.now index) }
{
    let node = &nodes[index];
    node.target
}

/// A directory is set.
#[tactic(auto, unfolding(crate::specs::Follows::set_dir))]
pub(crate) fn set_dir(walk: Walk, index: usize, heard: &Heard) -> Result<Walk, MirrorEnd>
    requires { index < length walk.nodes }
    ensures { Gives (set_dir walk index heard.now.code) result }
{
    if !is_ok(heard.code) {
        return Err(MirrorEnd::Refused {
            side: Side::To,
            code: heard.code,
            node: target_at(walk.nodes.as_slice(), index),
        });
    }
    next_set(walk, index)
}
