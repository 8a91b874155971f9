//! A node with its forks, as edits leave it. None of these takes memory.
ghost use Rattle.std.specs.Prelude.{◌≡◌, pos, true};
ghost use Rattle.volume_spec.specs.Edits.{at_place, filed_as, named, with_forks_of};
ghost use Rattle.volume_spec.specs.ForkEffect.{fork_of, written};
ghost use Rattle.volume_spec.specs.SetFileDirParms.{with_settings};

use crate::edits::edit::DatedWrite;
use crate::edits::fork_after::ForkAfter;
use afp_base::{Moment, NodeId};
use afp_names::Name;
use std::marker::Model;
use volume_tree::{NodeAfter, NodeWithForks, Settings};

/// A node with its forks, as edits leave it, lent from the volume or from the edits.
///
/// Contracts see the definition's row.
#[derive(Drop)]
pub struct WholeNode<'a> {
    pub node: NodeAfter<'a>,
    pub data_fork: ForkAfter<'a>,
    pub resource_fork: ForkAfter<'a>,
}

impl<'a> Model for WholeNode<'a> {
    ghost use Rattle.volume_spec.specs.VolumeState.{Row};

    ghost Value = { Row };

    ghost view = { λ a. record a.node { data_fork = a.data_fork; resource_fork = a.resource_fork } };
}

/// A moment as a date.
pub(crate) fn date_of(now: Moment) -> i32
    ensures { result ≡ pos now }
{
    now.seconds() as i32
}

/// A node without its forks, once more.
fn node_again<'a>(node: &NodeAfter<'a>) -> NodeAfter<'a>
    ensures { result ≡ node.now }
{
    NodeAfter {
        id: node.id,
        parent: node.parent,
        dir: node.dir,
        marks: node.marks,
        name: node.name,
    }
}

impl<'a> WholeNode<'a> {
    /// A node that comes, under the id that it draws.
    pub(crate) fn coming(new: &'a NodeWithForks, id: NodeId) -> WholeNode<'a>
        ensures { result ≡ record new.now { id = id.0 } }
    {
        WholeNode {
            node: NodeAfter::of(new.node()).with_id(id),
            data_fork: ForkAfter::kept(new.fork(false)),
            resource_fork: ForkAfter::kept(new.fork(true)),
        }
    }

    /// The same once more.
    pub(crate) fn again(&self) -> WholeNode<'a>
        ensures { result ≡ self.now }
    {
        WholeNode {
            node: node_again(&self.node),
            data_fork: self.data_fork.again(),
            resource_fork: self.resource_fork.again(),
        }
    }

    /// The node at another place.
    pub(crate) fn at(self, parent: NodeId, name: &'a Name) -> WholeNode<'a>
        ensures { result ≡ at_place parent.0 name.now self.entry }
    {
        WholeNode {
            node: self.node.at(parent, name),
            data_fork: self.data_fork,
            resource_fork: self.resource_fork,
        }
    }

    /// The node under another name.
    pub(crate) fn named(self, name: &'a Name) -> WholeNode<'a>
        ensures { result ≡ named name.now self.entry }
    {
        WholeNode {
            node: self.node.named(name),
            data_fork: self.data_fork,
            resource_fork: self.resource_fork,
        }
    }

    /// The node with these settings.
    pub(crate) fn with(self, settings: &Settings) -> WholeNode<'a>
        ensures { result ≡ with_settings settings.now self.entry }
    {
        WholeNode {
            node: self.node.with(settings),
            data_fork: self.data_fork,
            resource_fork: self.resource_fork,
        }
    }

    /// The file, filed or not.
    pub(crate) fn filed(self, filed: bool) -> WholeNode<'a>
        ensures { result ≡ filed_as filed self.entry }
    {
        WholeNode {
            node: self.node.filed(filed),
            data_fork: self.data_fork,
            resource_fork: self.resource_fork,
        }
    }

    /// The file with other bytes in a fork, dated at the moment of the write.
    pub(crate) fn written(self, write: &'a DatedWrite) -> WholeNode<'a>
        ensures { result ≡ written write.now.moment write.now.resource write.now.write.after true self.entry }
    {
        let node = self.node.dated(date_of(write.moment));
        let fork = ForkAfter::written(&write.write);
        if write.resource {
            WholeNode {
                node,
                data_fork: self.data_fork,
                resource_fork: fork,
            }
        } else {
            WholeNode {
                node,
                data_fork: fork,
                resource_fork: self.resource_fork,
            }
        }
    }

    /// The file with the forks and the modified date of another.
    pub(crate) fn with_forks_of(self, from: WholeNode<'a>) -> WholeNode<'a>
        ensures { result ≡ with_forks_of from.entry self.entry }
    {
        WholeNode {
            node: self.node.dated(from.node.marks.modified),
            data_fork: from.data_fork,
            resource_fork: from.resource_fork,
        }
    }

    /// The one fork or the other.
    pub fn fork(&self, resource: bool) -> &ForkAfter<'a>
        ensures { result.now ≡ fork_of resource self.now }
    {
        if resource {
            &self.resource_fork
        } else {
            &self.data_fork
        }
    }
}
