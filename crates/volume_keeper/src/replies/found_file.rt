//! FPOpenFork: the file that it finds.
ghost use Rattle.std.specs.Prelude.{◌≡◌, ◌==◌, Some, bit_and, not, true, option_map, IfOk};
ghost use Rattle.volume_spec.specs.Shared.{has_attribute, write_inhibit};
ghost use Rattle.volume_spec.specs.OpenFork.{open_fork_file, open_fork_refusal};
ghost use Rattle.volume_spec.specs.SoundVolume.{has_file, has_node};
ghost use Rattle.volume_spec.specs.VolumeState.{Row};
ghost use Rattle.volume_spec.specs.Walk.{row_at};
ghost use Rattle.volume_tree.specs.Answered.{Refuses};

use crate::replies::node::{is_dir, node_at};
use afp_base::{Code, NodeId};
use afp_bitmap::{FileBits, is_outside};
use afp_names::Path;
use node_rows::Node;
use std::alloc::Global;
use volume_spec::laws::rows_are_changed_in_place;
use volume_spec::limits::{READ_RIGHT, WRITE_RIGHT};
use volume_tree::{PlanFault, Volume};

/// The attribute of a file that must not be written to (AFP Reference, "File attributes").
const WRITE_INHIBIT: u16 = 0x0020;

/// Whether an id is a file's.
fn is_file(volume: &Volume, id: NodeId) -> bool
    requires { has_node volume.now.state.rows id.0 ≡ true }
    ensures { result ≡ has_file volume.now.state.rows id.0 }
{
    volume.keeps_sound();
    !is_dir(node_at(volume, id))
}

/// Whether a node must not be written to.
fn is_inhibited(node: &Node) -> bool
    ensures { result ≡ not (bit_and node.now.attributes write_inhibit == 0) }
{
    node.attributes & WRITE_INHIBIT != 0
}

/// Whether the node of an id must not be written to.
fn is_write_inhibited(volume: &Volume, id: NodeId) -> bool
    requires { has_node volume.now.state.rows id.0 ≡ true }
    ensures { result ≡ has_attribute volume.now.state.rows write_inhibit id.0 }
{
    volume.keeps_sound();
    is_inhibited(node_at(volume, id))
}

/// The id of the file to which a path leads, or why FPOpenFork is refused by the volume. `bits` are those of what is to be told of the file, and
/// `reads` and `writes` say whether the fork is to be read and to be written.
#[tactic(auto, unfolding(volume_spec::specs::OpenFork::open_fork_refusal))]
pub fn open_fork(
    alloc: Global,
    volume: &Volume,
    user: u32,
    bits: u16,
    reads: bool,
    writes: bool,
    dir: NodeId,
    path: &Path,
) -> Result<NodeId, PlanFault>
    ensures refused { Refuses result (open_fork_refusal volume.now.state user bits reads writes dir.0 path.now) }
    ensures file { IfOk result (λ id. has_file volume.now.state.rows id.0 ≡ true) }
    ensures found { IfOk result (λ id. open_fork_file volume.now.state user dir.0 path.now ≡ row_at volume.now.state.rows id.0) }
    ensures id { IfOk result (λ id. option_map (λ (file : Row). file.id) (open_fork_file volume.now.state user dir.0 path.now) ≡ Some id.0) }
{
    rows_are_changed_in_place();
    volume.keeps_sound();
    if is_outside(FileBits::MASK, bits) {
        return Err(PlanFault::Code(Code::BitmapErr));
    }
    let id = match volume.resolve(alloc, user, dir, path) {
        Ok(id) => id,
        Err(fault) => return Err(fault),
    };
    if !is_file(volume, id) {
        return Err(PlanFault::Code(Code::ObjectTypeErr));
    }
    if reads && volume.lacks_above(user, READ_RIGHT, id) {
        return Err(PlanFault::Code(Code::AccessDenied));
    }
    if writes && volume.lacks_above(user, WRITE_RIGHT, id) {
        return Err(PlanFault::Code(Code::AccessDenied));
    }
    if writes && is_write_inhibited(volume, id) {
        return Err(PlanFault::Code(Code::ObjectLocked));
    }
    Ok(id)
}
