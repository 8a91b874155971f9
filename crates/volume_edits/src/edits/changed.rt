//! Of which nodes, forks, comments, icons and mappings an edit changes something.
ghost use Rattle.std.specs.Prelude.{◌≡◌, ◌<◌, ◌^◌, true, option_map, Some};
ghost use Rattle.afp_base.specs.declared.ids.NodeId.{NodeId as Id};
ghost use Rattle.volume_spec.specs.Desktop.{icon_under};
ghost use Rattle.volume_spec.specs.SoundVolume.{icon_key};
ghost use Rattle.volume_edits.specs.edits.Changed as changed;

use crate::edits::edit::{Edit, Kind};
use crate::edits::kinds::nine_bytes;
use afp_base::{Bytes, NodeId};

/// The creator and the file of a mapping.
fn pair(creator: &[u8; 4], node: NodeId) -> Option<([u8; 4], u32)>
    ensures { result ≡ Some (creator.now, node.0) }
{
    Some((*creator, node.0))
}

/// The key of an icon that is put under it.
fn key_of(key: &[u8; 9], tag: u32, bits: &Bytes) -> Option<[u8; 9]>
    ensures { result ≡ Some (icon_key (icon_under key.now tag bits.now)) }
{
    nine_bytes(key);
    Some(*key)
}

impl Edit {
    /// The node that an edit changes, the first where it changes two. One that comes draws the next id.
    pub fn node_changed(&self, next: u64) -> Option<NodeId>
        requires { changed.does_come self.now.edit ≡ true → next < 2 ^ 32 }
        ensures { option_map (λ (node : Id). node.0) result ≡ changed.node_changed self.now.edit next }
    {
        match &self.0 {
            Kind::Comes { new: _ } => Some(NodeId(next as u32)),
            Kind::Goes { id } => Some(*id),
            Kind::Renames { id, name: _ } => Some(*id),
            Kind::Moves { id, .. } => Some(*id),
            Kind::Sets { id, settings: _ } => Some(*id),
            Kind::Files { id, filed: _ } => Some(*id),
            Kind::Writes { write } => Some(write.id),
            Kind::Exchanges { a, b: _ } => Some(*a),
            _ => None,
        }
    }

    /// The second node, where an edit changes two.
    pub fn other_changed(&self) -> Option<NodeId>
        ensures { option_map (λ (node : Id). node.0) result ≡ changed.other_changed self.now.edit }
    {
        match &self.0 {
            Kind::Exchanges { a: _, b } => Some(*b),
            _ => None,
        }
    }

    /// Whether the one fork or the other of these nodes changes.
    pub fn fork_changed(&self, resource: bool) -> bool
        ensures { result ≡ changed.fork_changed self.now.edit resource }
    {
        match &self.0 {
            Kind::Comes { new: _ } => true,
            Kind::Goes { id: _ } => true,
            Kind::Writes { write } => write.resource == resource,
            Kind::Exchanges { a: _, b: _ } => true,
            _ => false,
        }
    }

    /// The node whose comment changes.
    pub fn comment_changed(&self) -> Option<NodeId>
        ensures { option_map (λ (node : Id). node.0) result ≡ changed.comment_changed self.now.edit }
    {
        match &self.0 {
            Kind::Goes { id } => Some(*id),
            Kind::Comments { node, text: _ } => Some(*node),
            _ => None,
        }
    }

    /// The key of the icon that changes: creator, type, icon type.
    pub fn icon_changed(&self) -> Option<[u8; 9]>
        ensures { result ≡ changed.icon_changed self.now.edit }
    {
        match &self.0 {
            Kind::PutsIcon { key, tag, bits } => key_of(key, *tag, bits),
            _ => None,
        }
    }

    /// The creator and the file whose mapping changes.
    pub fn appl_changed(&self) -> Option<([u8; 4], u32)>
        ensures { result ≡ changed.appl_changed self.now.edit }
    {
        match &self.0 {
            Kind::PutsAppl { creator, node, .. } => pair(creator, *node),
            Kind::TakesAppl { creator, node } => pair(creator, *node),
            _ => None,
        }
    }

    /// The node that goes, with all mappings to it.
    pub fn node_gone(&self) -> Option<NodeId>
        ensures { option_map (λ (node : Id). node.0) result ≡ changed.node_gone self.now.edit }
    {
        match &self.0 {
            Kind::Goes { id } => Some(*id),
            _ => None,
        }
    }
}
