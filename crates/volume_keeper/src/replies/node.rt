//! The parameters of a file or directory.
ghost use Rattle.std.specs.Prelude.{◌≡◌, ◌++◌, Some, true, IfOk, OnOk, OnErr};
ghost use Rattle.afp_bitmap.specs.Bits.{IsWithin, file_mask, dir_mask};
ghost use Rattle.afp_bitmap.specs.Params.{params};
ghost use Rattle.volume_spec.specs.NodeValues.{bits_of, node_values};
ghost use Rattle.volume_spec.specs.SoundVolume.{has_node};
ghost use Rattle.volume_spec.specs.VolumeState.{Row};
ghost use Rattle.volume_spec.specs.Walk.{row_at};
ghost use Rattle.volume_tree.specs.Shown.{IsNode, IsRowOf, opened};

use crate::replies::directory::put_dir;
use crate::replies::file::put_file;
use afp_base::{Bytes, NodeId, OutOfMemory};
use deny_modes::VolumeOpens;
use node_rows::Node;
use std::alloc::Global;
use volume_tree::Volume;

/// Appends the parameters of a node, as a user is told them, by its kind's bits. An error changes nothing.
pub(crate) fn put_node(
    alloc: Global,
    volume: &Volume,
    user: u32,
    node: &Node,
    opens: &VolumeOpens<'_>,
    file_bits: u16,
    dir_bits: u16,
    out: &mut Bytes,
) -> Result<(), OutOfMemory>
    requires files { IsWithin file_mask file_bits }
    requires dirs { IsWithin dir_mask dir_bits }
    requires node { IsNode volume.now.state.rows node.now }
    ensures ok { OnOk result ((row : Row) → IsRowOf volume.now.state.rows node.now row
        → out.new ≡ out.old ++ params (bits_of file_bits dir_bits row) (node_values volume.now.state.rows user (opened opens.now) file_bits dir_bits row)) }
    ensures err { OnErr result (out.new ≡ out.old) }
{
    volume.keeps_sound();
    if node.dir {
        put_dir(alloc, volume, user, node, dir_bits, out)
    } else {
        put_file(alloc, volume, opens, node, file_bits, out)
    }
}

/// The node of an id that is a node's.
pub(crate) fn node_at(volume: &Volume, id: NodeId) -> &Node
    requires { has_node volume.now.state.rows id.0 ≡ true }
    ensures { (row : Row) → row_at volume.now.state.rows id.0 ≡ Some row → IsRowOf volume.now.state.rows result.now row }
{
    match volume.node(id) {
        Some(node) => node,
        None => unreachable!(),
    }
}

/// Whether a node is a directory.
pub(crate) fn is_dir(node: &Node) -> bool
    ensures { result ≡ node.now.dir }
{
    node.dir
}

/// Appends the parameters of a node as a user is told them, and tells whether it is a directory (AFP Reference, "FPGetFileDirParms"). `opens` tells
/// which forks of the volume are open. An error changes nothing.
pub fn node_params(
    alloc: Global,
    volume: &Volume,
    user: u32,
    id: NodeId,
    opens: &VolumeOpens<'_>,
    file_bits: u16,
    dir_bits: u16,
    out: &mut Bytes,
) -> Result<bool, OutOfMemory>
    requires there { has_node volume.now.state.rows id.0 ≡ true }
    requires files { IsWithin file_mask file_bits }
    requires dirs { IsWithin dir_mask dir_bits }
    ensures dir { IfOk result (λ dir. (row : Row) → row_at volume.now.state.rows id.0 ≡ Some row → dir ≡ row.dir) }
    ensures ok { OnOk result ((row : Row) → row_at volume.now.state.rows id.0 ≡ Some row
        → out.new ≡ out.old ++ params (bits_of file_bits dir_bits row) (node_values volume.now.state.rows user (opened opens.now) file_bits dir_bits row)) }
    ensures err { OnErr result (out.new ≡ out.old) }
{
    let node = node_at(volume, id);
    put_node(alloc, volume, user, node, opens, file_bits, dir_bits, out)?;
    Ok(is_dir(node))
}
