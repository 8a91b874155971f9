//! Children of directories, by the keys of their names.
use afp_base::{Bytes, NodeId};

/// A node in its directory, by the key of its name.
#[derive(Drop)]
pub struct Child {
    pub parent: NodeId,
    pub key: Bytes,
    pub id: NodeId,
}
