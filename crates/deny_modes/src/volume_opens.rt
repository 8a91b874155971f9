//! The opens of one volume's forks.
ghost use Rattle.std.specs.Prelude.{◌≡◌, ◌==◌, ◌&&◌, Bool, not, if◌then◌else◌};
ghost use Rattle.std.specs.List.{list_any};
ghost use Rattle.afp_base.specs.declared.ids.NodeId.{NodeId as Node};
ghost use Rattle.deny_modes.specs.Opens.{opens_on};

use crate::{ForkKey, Opens};
use afp_base::{NodeId, VolumeId};
use std::marker::Model;

/// Which forks of a volume are open, by any session. It is looked up, and not gathered.
///
/// Contracts see a list of the opens, each as its node and whether it is of the resource fork.
#[derive(Drop)]
pub struct VolumeOpens<'a> {
    opens: &'a Opens,
    volume: VolumeId,
}

impl<'a> Model for VolumeOpens<'a> {
    ghost use Rattle.std.specs.Prelude.{List, Bool};
    ghost use Rattle.afp_base.specs.declared.ids.NodeId.{NodeId};
    ghost use Rattle.deny_modes.specs.Opens.{opens_on};

    ghost Value = { List (NodeId × Bool) };

    ghost view = { λ v. opens_on v.volume.0 v.opens.now };
}

impl<'a> VolumeOpens<'a> {
    /// Whether this fork of a node is open.
    pub fn has_fork(&self, node: NodeId, resource: bool) -> bool
        ensures { result ≡ list_any (λ (fork : Node × Bool). (fork.0.0 == node.0) && (if resource then fork.1 else not fork.1)) self.now }
    {
        let fork = ForkKey {
            volume: self.volume,
            node,
            resource,
        };
        self.opens.counters(&fork).is_some()
    }

    /// Whether a fork of a node is open.
    pub fn has_node(&self, node: NodeId) -> bool
        ensures { result ≡ list_any (λ (fork : Node × Bool). fork.0.0 == node.0) self.now }
    {
        self.has_fork(node, false) || self.has_fork(node, true)
    }
}

impl Opens {
    /// The opens of a volume's forks.
    pub fn on(&self, volume: VolumeId) -> VolumeOpens<'_>
        ensures { result ≡ opens_on volume.0 self.now }
    {
        VolumeOpens {
            opens: self,
            volume,
        }
    }
}
