//! Lists, and the nodes that are made.
ghost use Rattle.std.specs.Prelude.{◌≡◌, ◌+◌, ◌<◌, length, drop, slice_get, None, Some, IfSome, MatchOption};
ghost use Rattle.afp_mirror_walk.specs.Follows.{Gives, rows_in, made_of, first_in, found_file, is_first_dir, list_or_set, listed, listed_rows, looked, made, next_dir, next_made, next_place, place_at, with_page};

use crate::walk::ends::{MirrorEnd, Side};
use crate::walk::found::page_of;
use crate::walk::replies::{ends_list, found_id_of, id_of, is_ok, node_of, rows_of};
use crate::walk::sets::next_set;
use crate::walk::standing::{Copying, Found, Made, Pair, Place, ROOT, ROOTS, Stage, Walk};
use crate::walk::stepping::Heard;
use afp_base::{ForkRef, NodeId};
use afp_replies::{ListEntry, Reply};

/// The first node of a list.
fn first_of(rows: &[ListEntry]) -> Option<NodeId>
    ensures { result ≡ first_in (Some rows.now) }
{
    if rows.is_empty() {
        None
    } else {
        let row = &rows[0];
        id_of(&row.values)
    }
}

fn first_in(reply: &Reply) -> Option<NodeId>
    ensures { result ≡ first_in (rows_in reply.now) }
{
    match rows_of(reply) {
        Some(rows) => first_of(rows),
        None => None,
    }
}

/// The target's first list was answered.
#[tactic(auto, unfolding(crate::specs::Follows::looked))]
pub(crate) fn looked(walk: Walk, heard: &Heard) -> Result<Walk, MirrorEnd>
    ensures { Gives (looked walk heard.now.code heard.now.reply) result }
{
    if is_ok(heard.code) {
        return match first_in(&heard.reply) {
            Some(node) => Err(MirrorEnd::NotEmpty { node }),
            None => Err(MirrorEnd::Bad { side: Side::To }),
        };
    }
    if !ends_list(heard.code) {
        return Err(MirrorEnd::Refused {
            side: Side::To,
            code: heard.code,
            node: ROOT,
        });
    }
    let mut walk = walk;
    walk.place = Place {
        here: ROOTS,
        start: 1,
        next: 0,
    };
    walk.stage = Stage::Lists;
    Ok(walk)
}

/// The index of the first directory from an index on.
fn next_dir(nodes: &[Made], from: usize) -> Option<usize>
    ensures dir { result ≡ next_dir (drop from nodes.now) from }
    ensures within { IfSome result (λ index. index < length nodes.now) }
{
    let mut index = from;
    while index < nodes.len() {
        let node = &nodes[index];
        if node.dir {
            return Some(index);
        }
        index += 1;
    }
    None
}

/// The place where the children of the node of an index are listed.
fn place_at(nodes: &[Made], index: usize, old: Place) -> Place
    requires { index < length nodes.now }
    ensures { result ≡ place_at (slice_get nodes.now index) index old }
{
    let _old = old;
    let node = &nodes[index];
    Place {
        here: Pair {
            source: node.source,
            target: node.target,
        },
        start: 1,
        next: index + 1,
    }
}

/// On to the next directory; where there is none, directories are set.
#[tactic(auto, unfolding(crate::specs::Follows::next_place))]
fn next_place(walk: Walk) -> Result<Walk, MirrorEnd>
    ensures { Gives (next_place walk) result }
{
    match next_dir(walk.nodes.as_slice(), walk.place.next) {
        Some(index) => {
            let mut walk = walk;
            walk.place = place_at(walk.nodes.as_slice(), index, walk.place);
            walk.stage = Stage::Lists;
            Ok(walk)
        }
        None => {
            let count = walk.nodes.len();
            next_set(walk, count)
        }
    }
}

/// A page is made next.
fn with_page(walk: Walk, page: Vec<Found>) -> Result<Walk, MirrorEnd>
    requires { 0 < length page.items }
    ensures { Gives (with_page walk (Ok page.items)) result }
{
    let next = u64::from(walk.place.start) + page.len() as u64;
    if next >= (1 << 32) {
        return Err(MirrorEnd::TooMany);
    }
    let mut walk = walk;
    walk.place.start = next as u32;
    walk.page = page;
    walk.stage = Stage::Makes;
    Ok(walk)
}

/// A list of the source has these entries.
#[tactic(auto, unfolding(crate::specs::Follows::listed_rows))]
fn listed_rows(walk: Walk, rows: &[ListEntry]) -> Result<Walk, MirrorEnd>
    ensures { Gives (listed_rows walk rows.now) result }
{
    if rows.is_empty() {
        return Err(MirrorEnd::Bad { side: Side::From });
    }
    match page_of(walk.alloc, walk.nodes.as_slice(), rows) {
        Ok(page) => with_page(walk, page),
        Err(end) => Err(end),
    }
}

/// A list of the source was answered.
#[tactic(auto, unfolding(crate::specs::Follows::listed))]
pub(crate) fn listed(walk: Walk, heard: &Heard) -> Result<Walk, MirrorEnd>
    ensures { Gives (listed walk heard.now.code heard.now.reply) result }
{
    if is_ok(heard.code) {
        return match rows_of(&heard.reply) {
            Some(rows) => listed_rows(walk, rows),
            None => Err(MirrorEnd::Bad { side: Side::From }),
        };
    }
    if ends_list(heard.code) {
        return next_place(walk);
    }
    Err(MirrorEnd::Refused {
        side: Side::From,
        code: heard.code,
        node: walk.place.here.source,
    })
}

/// The node that was made of one that was found.
fn made_of(parent: Pair, found: Found, target: NodeId) -> Made
    ensures { result ≡ made_of parent found target }
{
    Made {
        source: found.id,
        target,
        parent,
        dir: found.dir,
        name: found.name,
        settings: found.settings,
    }
}

/// The first node of the page was made whole.
#[tactic(auto, unfolding(crate::specs::Follows::next_made))]
pub(crate) fn next_made(walk: Walk, target: NodeId) -> Result<Walk, MirrorEnd>
    requires { 0 < length walk.page }
    ensures { Gives (next_made walk target) result }
{
    let mut walk = walk;
    let found = walk.page.remove(0);
    match walk.nodes.push(made_of(walk.place.here, found, target)) {
        Ok(()) => {
            walk.stage = if walk.page.is_empty() {
                Stage::Lists
            } else {
                Stage::Makes
            };
            Ok(walk)
        }
        Err(_) => Err(MirrorEnd::Memory),
    }
}

fn is_first_dir(page: &[Found]) -> bool
    requires { 0 < length page.now }
    ensures { result ≡ is_first_dir page.now }
{
    let found = &page[0];
    found.dir
}

/// A directory or a file was made.
#[tactic(auto, unfolding(crate::specs::Follows::made))]
pub(crate) fn made(walk: Walk, heard: &Heard) -> Result<Walk, MirrorEnd>
    requires { 0 < length walk.page }
    ensures { Gives (made walk heard.now.code heard.now.reply) result }
{
    if !is_ok(heard.code) {
        return Err(MirrorEnd::Refused {
            side: Side::To,
            code: heard.code,
            node: walk.place.here.target,
        });
    }
    if is_first_dir(walk.page.as_slice()) {
        return match node_of(&heard.reply) {
            Some(target) => next_made(walk, target),
            None => Err(MirrorEnd::Bad { side: Side::To }),
        };
    }
    let mut walk = walk;
    walk.stage = Stage::Finds;
    Ok(walk)
}

/// The id of the file that was made is told.
#[tactic(auto, unfolding(crate::specs::Follows::found_file))]
pub(crate) fn found_file(walk: Walk, heard: &Heard) -> Result<Walk, MirrorEnd>
    requires { 0 < length walk.page }
    ensures { Gives (found_file walk heard.now.code heard.now.reply) result }
{
    if !is_ok(heard.code) {
        return Err(MirrorEnd::Refused {
            side: Side::To,
            code: heard.code,
            node: walk.place.here.target,
        });
    }
    match found_id_of(&heard.reply) {
        Some(target) => {
            let mut walk = walk;
            walk.stage = Stage::OpensFrom(Copying {
                target,
                resource: false,
                from: ForkRef(0),
                to: ForkRef(0),
                len: 0,
            });
            Ok(walk)
        }
        None => Err(MirrorEnd::Bad { side: Side::To }),
    }
}
