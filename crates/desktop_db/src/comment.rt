//! The comment of a file or directory.
ghost use Rattle.std.specs.Prelude.{◌≡◌, ◌∷◌, [], ◌<◌, length, take, true};
ghost use Rattle.std.specs.Cmp.Lexicographic.{slice_cmp};
ghost use Rattle.std.specs.Ordering.{nat_cmp};
ghost use Rattle.volume_spec.specs.Desktop.{comment_key};
ghost use Rattle.volume_spec.specs.SoundVolume.{is_comment, longest_comment};
ghost use Rattle.volume_spec.specs.TypedVolume.{is_typed_comment};

use crate::bytes::long_in_range;
use afp_base::{Bytes, NodeId};
use std::cmp::Ordering;
use std::marker::Model;
use volume_spec::bytes_in_range;
use volume_spec::limits::LONGEST_COMMENT;

/// The comment of a file or directory, of 1 to 199 bytes (AFP Reference, FPAddComment).
///
/// Contracts see it as the definition's comment.
#[derive(Drop)]
pub struct Comment {
    node: NodeId,
    text: Bytes,
}

impl Model for Comment {
    ghost use Rattle.volume_spec.specs.VolumeState.{Comment as NodeComment};

    ghost Value = { NodeComment };

    ghost view = { λ a. record { node = a.node.0; text = a.text } };
}

impl Comment {
    /// A comment; of its text the first 199 bytes are kept.
    pub(crate) fn new(node: NodeId, text: Bytes) -> Comment
        requires { 0 < length text }
        ensures comment { result ≡ record { node = node.0; text = take longest_comment text } }
        ensures formed { is_comment result ≡ true }
        ensures typed { is_typed_comment result ≡ true }
    {
        let mut text = text;
        text.truncate(LONGEST_COMMENT);
        bytes_in_range(text.as_slice());
        long_in_range(node.0);
        Comment { node, text }
    }

    /// The node that it is on.
    pub fn node(&self) -> NodeId
        ensures { result.0 ≡ self.now.node }
    {
        self.node
    }

    /// The text, lent.
    pub fn text(&self) -> &[u8]
        ensures { result.now ≡ self.now.text }
    {
        self.text.as_slice()
    }

    /// How the node stands to another.
    pub(crate) fn compare(&self, node: NodeId) -> Ordering
        ensures { result ≡ slice_cmp nat_cmp (comment_key self.now) (node.0 ∷ []) }
    {
        self.node.0.cmp(&node.0)
    }
}
