//! What is asked, by where a mirror stands.
ghost use Rattle.std.specs.Prelude.{◌≡◌, ◌<◌, ◌≤◌, length, slice_get, Some, IfOk};
ghost use Rattle.afp_mirror_walk.specs.Asking.{IsAsking};
ghost use Rattle.afp_mirror_walk.specs.Asks.{Asked, asked_at, asks, of_first, of_node};
ghost use Rattle.afp_mirror_walk.specs.Standing.{FitsChecking, FitsCopying, most_piece};
ghost use Rattle.afp_mirror_walk.specs.declared.walk.standing.Stage.TheVariants as stages;
ghost use Rattle.afp_mirror_walk.specs.lemma.Askings.{SaysAsked};

use crate::walk::calls::{
    Asking, close, create, find_file, list, open_fork, open_volume, read, set_dir, set_file, write,
};
use crate::walk::ends::Side;
use crate::walk::standing::{Checking, Copying, Found, Made, ROOT, Stage, Walk};
use afp_base::{NodeId, OutOfMemory};

/// The first node of a page.
fn first_of(page: &[Found]) -> &Found
    requires { 0 < length page.now }
    ensures { (f : Found → Asked) → of_first page.now f ≡ Some (f result.now) }
{
    &page[0]
}

/// The node of an index.
fn node_of(nodes: &[Made], index: usize) -> &Made
    requires { index < length nodes.now }
    ensures { (f : Made → Asked) → of_node (slice_get nodes.now index) f ≡ Some (f result.now) }
{
    &nodes[index]
}

fn opens_source(walk: &Walk) -> Result<Asking<'_>, OutOfMemory>
    ensures { IfOk result (λ a. SaysAsked (asked_at stages.OpensSource walk.now) a) }
{
    open_volume(walk.alloc, Side::From, &walk.source)
}

fn opens_target(walk: &Walk) -> Result<Asking<'_>, OutOfMemory>
    ensures { IfOk result (λ a. SaysAsked (asked_at stages.OpensTarget walk.now) a) }
{
    open_volume(walk.alloc, Side::To, &walk.target)
}

fn looks(walk: &Walk) -> Result<Asking<'_>, OutOfMemory>
    ensures { IfOk result (λ a. SaysAsked (asked_at stages.Looks walk.now) a) }
{
    list(walk.alloc, Side::To, walk.to, ROOT, 1)
}

fn lists(walk: &Walk) -> Result<Asking<'_>, OutOfMemory>
    ensures { IfOk result (λ a. SaysAsked (asked_at stages.Lists walk.now) a) }
{
    let place = walk.place;
    list(
        walk.alloc,
        Side::From,
        walk.from,
        place.here.source,
        place.start,
    )
}

fn makes(walk: &Walk) -> Result<Asking<'_>, OutOfMemory>
    requires { 0 < length walk.now.page }
    ensures { IfOk result (λ a. SaysAsked (asked_at stages.Makes walk.now) a) }
{
    let found = first_of(walk.page.as_slice());
    create(walk.alloc, walk.to, walk.place.here.target, found)
}

fn finds(walk: &Walk) -> Result<Asking<'_>, OutOfMemory>
    requires { 0 < length walk.now.page }
    ensures { IfOk result (λ a. SaysAsked (asked_at stages.Finds walk.now) a) }
{
    let found = first_of(walk.page.as_slice());
    find_file(walk.alloc, walk.to, walk.place.here.target, found)
}

fn opens_from(walk: &Walk, copying: Copying) -> Result<Asking<'_>, OutOfMemory>
    requires { 0 < length walk.now.page }
    ensures { IfOk result (λ a. SaysAsked (asked_at (stages.OpensFrom copying) walk.now) a) }
{
    let found = first_of(walk.page.as_slice());
    let dir = walk.place.here.source;
    open_fork(
        walk.alloc,
        Side::From,
        walk.from,
        copying.resource,
        0x21,
        dir,
        &found.name,
    )
}

fn opens_to(walk: &Walk, copying: Copying) -> Result<Asking<'_>, OutOfMemory>
    requires { 0 < length walk.now.page }
    ensures { IfOk result (λ a. SaysAsked (asked_at (stages.OpensTo copying) walk.now) a) }
{
    let found = first_of(walk.page.as_slice());
    let dir = walk.place.here.target;
    open_fork(
        walk.alloc,
        Side::To,
        walk.to,
        copying.resource,
        0x22,
        dir,
        &found.name,
    )
}

fn reads(walk: &Walk, copying: Copying) -> Result<Asking<'_>, OutOfMemory>
    requires { FitsCopying (length walk.now.page) copying 0 }
    ensures { IfOk result (λ a. SaysAsked (asked_at (stages.Reads copying) walk.now) a) }
{
    let _found = first_of(walk.page.as_slice());
    Ok(read(Side::From, copying.from, copying.len))
}

fn writes(walk: &Walk, copying: Copying, last: bool) -> Result<Asking<'_>, OutOfMemory>
    requires within { FitsCopying (length walk.now.page) copying (length walk.now.piece) }
    requires most { length walk.now.piece ≤ most_piece }
    ensures { IfOk result (λ a. SaysAsked (asked_at (stages.Writes copying last) walk.now) a) }
{
    let _last = last;
    Ok(write(copying.to, copying.len, walk.piece.as_slice()))
}

fn closes_from(walk: &Walk, copying: Copying) -> Result<Asking<'_>, OutOfMemory>
    requires { 0 < length walk.now.page }
    ensures { IfOk result (λ a. SaysAsked (asked_at (stages.ClosesFrom copying) walk.now) a) }
{
    let _found = first_of(walk.page.as_slice());
    Ok(close(Side::From, copying.from))
}

fn closes_to(walk: &Walk, copying: Copying) -> Result<Asking<'_>, OutOfMemory>
    ensures { IfOk result (λ a. SaysAsked (asked_at (stages.ClosesTo copying) walk.now) a) }
{
    let _walk = walk;
    Ok(close(Side::To, copying.to))
}

fn sets_file(walk: &Walk, target: NodeId) -> Result<Asking<'_>, OutOfMemory>
    requires { 0 < length walk.now.page }
    ensures { IfOk result (λ a. SaysAsked (asked_at (stages.SetsFile target) walk.now) a) }
{
    let _target = target;
    let found = first_of(walk.page.as_slice());
    set_file(walk.alloc, walk.to, walk.place.here.target, found)
}

fn sets_dir(walk: &Walk, index: usize) -> Result<Asking<'_>, OutOfMemory>
    requires { index < length walk.now.nodes }
    ensures { IfOk result (λ a. SaysAsked (asked_at (stages.SetsDir index) walk.now) a) }
{
    let node = node_of(walk.nodes.as_slice(), index);
    set_dir(walk.alloc, walk.to, node)
}

fn checks_from(walk: &Walk, checking: Checking) -> Result<Asking<'_>, OutOfMemory>
    requires { checking.index < length walk.now.nodes }
    ensures { IfOk result (λ a. SaysAsked (asked_at (stages.ChecksFrom checking) walk.now) a) }
{
    let node = node_of(walk.nodes.as_slice(), checking.index);
    let dir = node.parent.source;
    open_fork(
        walk.alloc,
        Side::From,
        walk.from,
        checking.resource,
        0x21,
        dir,
        &node.name,
    )
}

fn checks_to(walk: &Walk, checking: Checking) -> Result<Asking<'_>, OutOfMemory>
    requires { checking.index < length walk.now.nodes }
    ensures { IfOk result (λ a. SaysAsked (asked_at (stages.ChecksTo checking) walk.now) a) }
{
    let node = node_of(walk.nodes.as_slice(), checking.index);
    let dir = node.parent.target;
    open_fork(
        walk.alloc,
        Side::To,
        walk.to,
        checking.resource,
        0x01,
        dir,
        &node.name,
    )
}

fn reads_from(walk: &Walk, checking: Checking) -> Result<Asking<'_>, OutOfMemory>
    requires { FitsChecking (length walk.now.nodes) checking 0 }
    ensures { IfOk result (λ a. SaysAsked (asked_at (stages.ReadsFrom checking) walk.now) a) }
{
    let _node = node_of(walk.nodes.as_slice(), checking.index);
    Ok(read(Side::From, checking.from, checking.len))
}

fn reads_to(walk: &Walk, checking: Checking, last: bool) -> Result<Asking<'_>, OutOfMemory>
    requires { FitsChecking (length walk.now.nodes) checking 0 }
    ensures { IfOk result (λ a. SaysAsked (asked_at (stages.ReadsTo checking last) walk.now) a) }
{
    let _last = last;
    let _node = node_of(walk.nodes.as_slice(), checking.index);
    Ok(read(Side::To, checking.to, checking.len))
}

fn shuts_from(walk: &Walk, checking: Checking) -> Result<Asking<'_>, OutOfMemory>
    requires { checking.index < length walk.now.nodes }
    ensures { IfOk result (λ a. SaysAsked (asked_at (stages.ShutsFrom checking) walk.now) a) }
{
    let _node = node_of(walk.nodes.as_slice(), checking.index);
    Ok(close(Side::From, checking.from))
}

fn shuts_to(walk: &Walk, checking: Checking) -> Result<Asking<'_>, OutOfMemory>
    requires { checking.index < length walk.now.nodes }
    ensures { IfOk result (λ a. SaysAsked (asked_at (stages.ShutsTo checking) walk.now) a) }
{
    let _node = node_of(walk.nodes.as_slice(), checking.index);
    Ok(close(Side::To, checking.to))
}

impl Walk {
    /// What is asked at this stage.
    #[tactic(auto, unfolding(crate::specs::Asks::asks))]
    fn asking_here(&self) -> Result<Asking<'_>, OutOfMemory>
        ensures { IfOk result (λ a. SaysAsked (asks self.now) a) }
    {
        match self.stage {
            Stage::OpensSource => opens_source(self),
            Stage::OpensTarget => opens_target(self),
            Stage::Looks => looks(self),
            Stage::Lists => lists(self),
            Stage::Makes => makes(self),
            Stage::Finds => finds(self),
            Stage::OpensFrom(copying) => opens_from(self, copying),
            Stage::OpensTo(copying) => opens_to(self, copying),
            Stage::Reads(copying) => reads(self, copying),
            Stage::Writes { copying, last } => writes(self, copying, last),
            Stage::ClosesFrom(copying) => closes_from(self, copying),
            Stage::ClosesTo(copying) => closes_to(self, copying),
            Stage::SetsFile { target } => sets_file(self, target),
            Stage::SetsDir { index } => sets_dir(self, index),
            Stage::ChecksFrom(checking) => checks_from(self, checking),
            Stage::ChecksTo(checking) => checks_to(self, checking),
            Stage::ReadsFrom(checking) => reads_from(self, checking),
            Stage::ReadsTo { checking, last } => reads_to(self, checking, last),
            Stage::ShutsFrom(checking) => shuts_from(self, checking),
            Stage::ShutsTo(checking) => shuts_to(self, checking),
        }
    }

    /// What is asked next.
    #[tactic(auto, using(crate::proofs::NextCall::next_asking))]
    pub fn asking(&self) -> Result<Asking<'_>, OutOfMemory>
        ensures { IfOk result (λ a. IsAsking self.now a) }
    {
        self.asking_here()
    }
}
