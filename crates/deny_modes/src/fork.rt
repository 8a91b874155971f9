//! A fork, and an access mode.

use afp_base::{NodeId, VolumeId};
use std::marker::Model;

/// A fork of a node: the data fork, or the resource fork.
///
/// Contracts see it as `Fork`.
#[derive(Clone, Copy, PartialEq, Eq, PartialOrd, Ord)]
pub struct ForkKey {
    pub volume: VolumeId,
    pub node: NodeId,
    pub resource: bool,
}

impl Model for ForkKey {
    ghost use Rattle.afp_base.specs.DenyMode.{Fork};

    ghost Value = { Fork };

    ghost view = { λ k. record { volume = k.volume.0; node = k.node.0; resource = k.resource } };

    ghost inverse = { λ f. record { volume = record { 0 = f.volume }; node = record { 0 = f.node }; resource = f.resource } };
}

/// What an open may do, and what it denies to other opens (AFP Reference, FPOpenFork, "Access Mode").
///
/// Contracts see it as `Access`.
#[derive(Clone, Copy)]
pub struct Mode {
    pub read: bool,
    pub write: bool,
    pub deny_read: bool,
    pub deny_write: bool,
}

impl Model for Mode {
    ghost use Rattle.afp_base.specs.DenyMode.{Access};

    ghost Value = { Access };

    ghost view = { λ m. record { read = m.read; write = m.write; deny_read = m.deny_read; deny_write = m.deny_write } };

    ghost inverse = { λ a. record { read = a.read; write = a.write; deny_read = a.deny_read; deny_write = a.deny_write } };
}
