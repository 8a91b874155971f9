//! What a plan leaves of each node, told before it is carried out. None of these takes memory.
ghost use Rattle.std.specs.Prelude.{◌≡◌, ◌==◌, ◌≤◌, ◌<◌, length, take, option_map, Some, None, if◌then◌else◌};
ghost use Rattle.afp_base.specs.declared.ids.NodeId.{NodeId as Id};
ghost use Rattle.volume_spec.specs.Edit.{after_call, after_edits};
ghost use Rattle.volume_spec.specs.EditLaws.{MayEditAll};
ghost use Rattle.volume_spec.specs.Walk.{row_at};
ghost use Rattle.volume_edits.specs.edits.After.{exchanged_row};
ghost use Rattle.volume_edits.specs.edits.Planned.{edits_of};
ghost use Rattle.volume_edits.specs.edits.lemma.Steps.{changed_row, coming_row, does_come, does_go, left_row, partner_of};

use crate::edits::edit::{Edit, Kind};
use crate::edits::fork_after::ForkAfter;
use crate::edits::laws::edits_go_by_node;
use crate::edits::plan::Plan;
use crate::edits::whole::WholeVolume;
use crate::edits::whole_node::WholeNode;
use afp_base::NodeId;
use volume_spec::edit_laws::edits_keep_volumes_sound;
use volume_tree::NodeAfter;

impl Edit {
    /// The file with which a node exchanges its forks.
    pub(crate) fn partner(&self, id: NodeId) -> Option<NodeId>
        ensures { option_map (λ (node : Id). node.0) result ≡ partner_of self.now.edit id.0 }
    {
        match &self.0 {
            Kind::Exchanges { a, b } => {
                if id.0 == a.0 {
                    Some(*b)
                } else if id.0 == b.0 {
                    Some(*a)
                } else {
                    None
                }
            }
            _ => None,
        }
    }

    /// Whether a node comes.
    fn does_come(&self) -> bool
        ensures { result ≡ does_come self.now.edit }
    {
        match &self.0 {
            Kind::Comes { new: _ } => true,
            _ => false,
        }
    }

    /// The node that comes, where the next id that it draws is this one.
    fn coming<'a>(&'a self, next: u64, id: NodeId) -> Option<WholeNode<'a>>
        ensures { result ≡ coming_row self.now.edit next id.0 }
    {
        match &self.0 {
            Kind::Comes { new } => {
                if u64::from(id.0) == next {
                    Some(WholeNode::coming(new, id))
                } else {
                    None
                }
            }
            _ => None,
        }
    }

    /// Whether a node goes.
    pub(crate) fn does_go(&self, id: NodeId) -> bool
        ensures { result ≡ does_go self.now.edit id.0 }
    {
        match &self.0 {
            Kind::Goes { id: gone } => id.0 == gone.0,
            _ => false,
        }
    }

    /// A node that stays, and exchanges its forks with none.
    fn changed<'a>(&'a self, node: WholeNode<'a>) -> WholeNode<'a>
        ensures { result ≡ changed_row self.now.edit node.entry }
    {
        match &self.0 {
            Kind::Renames { id, name } => {
                if node.node.id.0 == id.0 {
                    node.named(name.name())
                } else {
                    node
                }
            }
            Kind::Moves { id, parent, name } => {
                if node.node.id.0 == id.0 {
                    node.at(*parent, name.name())
                } else {
                    node
                }
            }
            Kind::Sets { id, settings } => {
                if node.node.id.0 == id.0 {
                    node.with(settings)
                } else {
                    node
                }
            }
            Kind::Files { id, filed } => {
                if node.node.id.0 == id.0 {
                    node.filed(*filed)
                } else {
                    node
                }
            }
            Kind::Writes { write } => {
                if node.node.id.0 == write.id.0 {
                    node.written(write)
                } else {
                    node
                }
            }
            _ => node,
        }
    }

    /// What an edit leaves of a node that exchanges its forks with none.
    fn left<'a>(
        &'a self,
        next: u64,
        id: NodeId,
        node: Option<WholeNode<'a>>,
    ) -> Option<WholeNode<'a>>
        ensures { result ≡ left_row self.now.edit next id.0 node.entry }
    {
        if let Some(coming) = self.coming(next, id) {
            return Some(coming);
        }
        if self.does_go(id) {
            return None;
        }
        match node {
            Some(node) => Some(self.changed(node)),
            None => None,
        }
    }
}

/// A file with the forks and the modified date of another, where both are there.
fn exchanged<'a>(from: Option<WholeNode<'a>>, to: Option<WholeNode<'a>>) -> Option<WholeNode<'a>>
    ensures { result ≡ exchanged_row from.entry to.entry }
{
    match (from, to) {
        (Some(from), Some(to)) => Some(to.with_forks_of(from)),
        (None, to) => to,
        (Some(_), None) => None,
    }
}

/// A node as it is, and as a plan leaves it, each where it is there.
#[derive(Drop)]
pub struct NodeStep<'a> {
    pub before: Option<WholeNode<'a>>,
    pub after: Option<WholeNode<'a>>,
}

/// A node once more, where it is there.
fn again<'a>(node: &Option<WholeNode<'a>>) -> Option<WholeNode<'a>>
    ensures { result ≡ node.now }
{
    match node {
        Some(node) => Some(node.again()),
        None => None,
    }
}

impl WholeVolume {
    /// A node with its forks, as it is.
    pub fn node_before<'a>(&'a self, id: NodeId) -> Option<WholeNode<'a>>
        ensures { result ≡ row_at self.now.state.rows id.0 }
    {
        self.tree.keeps_sound();
        match self.tree.node(id) {
            Some(node) => {
                let forks = self.tree.forks(node);
                Some(WholeNode {
                    node: NodeAfter::of(node),
                    data_fork: ForkAfter::kept_or_none(forks, false),
                    resource_fork: ForkAfter::kept_or_none(forks, true),
                })
            }
            None => None,
        }
    }

    /// The next id behind so many edits of this volume as it is.
    pub fn next_behind(&self, edits: &[Edit], count: usize) -> u64
        requires within { count ≤ length edits.now }
        requires may { MayEditAll self.now.state (edits_of (take count edits.now)) }
        ensures { result ≡ (after_edits self.now.state (edits_of (take count edits.now))).next_id }
    {
        if count == 0 {
            return self.tree.head().next_id;
        }
        let edit = &edits[count - 1];
        let next = self.next_behind(edits, count - 1);
        if edit.does_come() { next + 1 } else { next }
    }

    /// A node with its forks, behind so many edits, from what it is before them.
    fn node_behind<'a>(
        &'a self,
        edits: &'a [Edit],
        count: usize,
        id: NodeId,
        before: Option<WholeNode<'a>>,
    ) -> Option<WholeNode<'a>>
        requires before { before ≡ row_at self.now.state.rows id.0 }
        requires within { count ≤ length edits.now }
        requires may { MayEditAll self.now.state (edits_of (take count edits.now)) }
        ensures { result ≡ row_at (after_edits self.now.state (edits_of (take count edits.now))).rows id.0 }
    {
        edits_go_by_node();
        edits_keep_volumes_sound();
        self.keeps_sound();
        if count == 0 {
            return before;
        }
        let edit = &edits[count - 1];
        let node = self.node_behind(edits, count - 1, id, before);
        match edit.partner(id) {
            Some(other) => {
                let kept = self.node_before(other);
                exchanged(self.node_behind(edits, count - 1, other, kept), node)
            }
            None => edit.left(self.next_behind(edits, count - 1), id, node),
        }
    }

    /// A node with its forks, as it is, and as a plan of this volume as it is leaves it.
    pub fn node_step<'a>(&'a self, plan: &'a Plan, id: NodeId) -> NodeStep<'a>
        requires { MayEditAll self.now.state (edits_of plan.now.edits) }
        ensures before { result.before ≡ row_at self.now.state.rows id.0 }
        ensures after { result.after ≡ row_at (after_call self.now.state plan.now.moment (edits_of plan.now.edits)).rows id.0 }
    {
        let edits = plan.edits.as_slice();
        let before = self.node_before(id);
        let start = again(&before);
        let after = self.node_behind(edits, edits.len(), id, start);
        NodeStep { before, after }
    }
}
