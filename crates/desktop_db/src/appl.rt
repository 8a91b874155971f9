//! An APPL mapping of the desktop database.
ghost use Rattle.std.specs.Prelude.{◌≡◌, bytes_eq, true};
ghost use Rattle.std.specs.Cmp.Lexicographic.{slice_cmp};
ghost use Rattle.std.specs.Ordering.{nat_cmp};
ghost use Rattle.volume_spec.specs.Desktop.{is_appl, pair_key};
ghost use Rattle.volume_spec.specs.SoundVolume.{appl_key};
ghost use Rattle.volume_spec.specs.TypedVolume.{is_typed_appl};

use crate::bytes::long_in_range;
use afp_base::NodeId;
use std::cmp::Ordering;
use std::marker::Model;
use volume_spec::bytes_in_range;

/// A file that is the application of a creator, and a tag (AFP Reference, FPAddAPPL).
///
/// Contracts see it as the definition's mapping.
#[derive(Drop)]
pub struct Appl {
    creator: [u8; 4],
    node: NodeId,
    tag: u32,
}

impl Model for Appl {
    ghost use Rattle.volume_spec.specs.VolumeState.{Appl as Mapping};

    ghost Value = { Mapping };

    ghost view = { λ a. record { creator = a.creator; node = a.node.0; tag = a.tag } };
}

impl Appl {
    pub(crate) fn new(creator: [u8; 4], node: NodeId, tag: u32) -> Appl
        ensures appl { result ≡ record { creator = creator; node = node.0; tag = tag } }
        ensures formed { is_appl result ≡ true }
        ensures typed { is_typed_appl result ≡ true }
    {
        bytes_in_range(&creator);
        long_in_range(node.0);
        long_in_range(tag);
        Appl { creator, node, tag }
    }

    /// The creator of the application.
    pub fn creator(&self) -> [u8; 4]
        ensures { result ≡ self.now.creator }
    {
        self.creator
    }

    /// The application's file.
    pub fn node(&self) -> NodeId
        ensures { result.0 ≡ self.now.node }
    {
        self.node
    }

    /// The tag that the mapping was put with.
    pub fn tag(&self) -> u32
        ensures { result ≡ self.now.tag }
    {
        self.tag
    }

    /// How the creator and the file stand to others.
    pub(crate) fn compare(&self, creator: &[u8; 4], node: NodeId) -> Ordering
        ensures { result ≡ slice_cmp nat_cmp (appl_key self.now) (pair_key creator.now node.0) }
    {
        match self.compare_creator(creator) {
            Ordering::Less => Ordering::Less,
            Ordering::Equal => self.node.0.cmp(&node.0),
            Ordering::Greater => Ordering::Greater,
        }
    }

    /// Whether this is the creator.
    pub(crate) fn is_of(&self, creator: &[u8; 4]) -> bool
        ensures { result ≡ bytes_eq self.now.creator creator.now }
    {
        self.creator.as_slice() == creator.as_slice()
    }

    /// How the creator stands to another.
    pub(crate) fn compare_creator(&self, creator: &[u8; 4]) -> Ordering
        ensures { result ≡ slice_cmp nat_cmp self.now.creator creator.now }
    {
        self.creator.as_slice().cmp(creator.as_slice())
    }
}
