//! The reply of FPCreateDir, FPOpenDir and FPCreateID: the id of a node.
ghost use Rattle.std.specs.Prelude.{◌≡◌, IfOk};
ghost use Rattle.afp_replies.specs.Replies.{canonical_reply};
ghost use Rattle.afp_replies.specs.declared.reply.Reply.TheVariants.{Node};

use afp_base::{Bytes, NodeId, OutOfMemory};
use std::alloc::Global;

/// The bytes of a node's id.
pub(crate) fn node_block(alloc: Global, id: NodeId) -> Result<Bytes, OutOfMemory>
    ensures { IfOk result (λ block. block ≡ canonical_reply (Node id)) }
{
    let mut block = Bytes::new(alloc);
    block.push_u32(id.0)?;
    Ok(block)
}
