//! FPGetVolParms, FPGetFileDirParms and FPOpenDir.
ghost use Rattle.std.specs.Prelude.{◌≡◌, ◌++◌, Some, true, IfOk, OnOk, OnErr, length, take};
ghost use Rattle.afp_bitmap.specs.Bits.{IsWithin, volume_mask, file_mask, dir_mask};
ghost use Rattle.afp_bitmap.specs.declared.params.Values as values;
ghost use Rattle.afp_bitmap.specs.declared.params.Values.TheVariants as told;
ghost use Rattle.afp_replies.specs.Replies.{canonical_reply};
ghost use Rattle.afp_replies.specs.declared.reply.Reply.TheVariants as replies;
ghost use Rattle.volume_spec.specs.GetFileDirParms.{get_file_dir_parms_refusal, get_file_dir_parms_values};
ghost use Rattle.volume_spec.specs.GetVolParms.{get_vol_parms_refusal, volume_values};
ghost use Rattle.volume_spec.specs.NodeValues.{node_values};
ghost use Rattle.volume_spec.specs.OpenDir.{open_dir_refusal, open_dir_id};
ghost use Rattle.volume_spec.specs.SoundVolume.{has_node};
ghost use Rattle.volume_spec.specs.VolumeState.{Row};
ghost use Rattle.volume_spec.specs.Walk.{has_directory};
ghost use Rattle.volume_tree.specs.Answered.{Refuses};
ghost use Rattle.volume_tree.specs.Shown.{IsNode, IsRowOf, opened};

use crate::replies::node::{is_dir, node_at, put_node};
use crate::replies::volume::volume_params;
use afp_base::{Bytes, Code, NodeId, OutOfMemory, VolumeId};
use afp_bitmap::{DirBits, FileBits, VolumeBits, is_outside};
use afp_names::Path;
use afp_replies::flag_of;
use deny_modes::VolumeOpens;
use node_rows::Node;
use std::alloc::Global;
use volume_spec::laws::rows_are_changed_in_place;
use volume_tree::{PlanFault, Volume};

/// The bits and the parameters of a volume. After an error, any part of them may stand there.
fn put_vol_parms(
    alloc: Global,
    volume: &Volume,
    id: VolumeId,
    bits: u16,
    out: &mut Bytes,
) -> Result<(), OutOfMemory>
    requires { IsWithin volume_mask bits }
    ensures ok { OnOk result (out.new ≡ out.old ++ canonical_reply (replies.Params bits (told.Volume (volume_values volume.now.state id.0 bits)))) }
    ensures err { OnErr result (take (length out.old) out.new ≡ out.old) }
{
    out.push_u16(bits)?;
    volume_params(alloc, volume, id, bits, out)
}

/// Appends the reply to FPGetVolParms, for a volume that has this id, or tells why it is refused. An error changes nothing.
#[tactic(auto, unfolding(volume_spec::specs::GetVolParms::get_vol_parms_refusal))]
pub fn get_vol_parms(
    alloc: Global,
    volume: &Volume,
    id: VolumeId,
    bits: u16,
    out: &mut Bytes,
) -> Result<(), PlanFault>
    ensures refused { Refuses result (get_vol_parms_refusal bits) }
    ensures ok { OnOk result (out.new ≡ out.old ++ canonical_reply (replies.Params bits (told.Volume (volume_values volume.now.state id.0 bits)))) }
    ensures err { OnErr result (out.new ≡ out.old) }
{
    if is_outside(VolumeBits::MASK, bits) || bits == 0 {
        return Err(PlanFault::Code(Code::BitmapErr));
    }
    let before = out.as_slice().len();
    match put_vol_parms(alloc, volume, id, bits, out) {
        Ok(()) => Ok(()),
        Err(_) => {
            out.truncate(before);
            Err(PlanFault::Memory)
        }
    }
}

/// The bits, the flag and the parameters of a node. After an error, any part of them may stand there.
fn put_node_parms(
    alloc: Global,
    volume: &Volume,
    user: u32,
    node: &Node,
    opens: &VolumeOpens<'_>,
    file_bits: u16,
    dir_bits: u16,
    out: &mut Bytes,
) -> Result<(), OutOfMemory>
    requires files { IsWithin file_mask file_bits }
    requires dirs { IsWithin dir_mask dir_bits }
    requires node { IsNode volume.now.state.rows node.now }
    ensures ok { OnOk result ((row : Row) → IsRowOf volume.now.state.rows node.now row
        → out.new ≡ out.old ++ canonical_reply (replies.FileDirParams file_bits dir_bits (node_values volume.now.state.rows user (opened opens.now) file_bits dir_bits row))) }
    ensures err { OnErr result (take (length out.old) out.new ≡ out.old) }
{
    out.push_u16(file_bits)?;
    out.push_u16(dir_bits)?;
    out.push_u8(flag_of(is_dir(node)))?;
    out.push_u8(0)?;
    put_node(alloc, volume, user, node, opens, file_bits, dir_bits, out)
}

/// Appends the reply to FPGetFileDirParms, or tells why it is refused. `opens` tells which forks of the volume are open. An
/// error changes nothing.
#[tactic(auto, unfolding(volume_spec::specs::GetFileDirParms::get_file_dir_parms_refusal))]
pub fn get_file_dir_parms(
    alloc: Global,
    volume: &Volume,
    user: u32,
    opens: &VolumeOpens<'_>,
    file_bits: u16,
    dir_bits: u16,
    dir: NodeId,
    path: &Path,
    out: &mut Bytes,
) -> Result<(), PlanFault>
    ensures refused { Refuses result (get_file_dir_parms_refusal volume.now.state user file_bits dir_bits dir.0 path.now) }
    ensures ok { OnOk result ((values : values.Values) → get_file_dir_parms_values volume.now.state user (opened opens.now) file_bits dir_bits dir.0 path.now ≡ Some values
        → out.new ≡ out.old ++ canonical_reply (replies.FileDirParams file_bits dir_bits values)) }
    ensures err { OnErr result (out.new ≡ out.old) }
{
    rows_are_changed_in_place();
    volume.keeps_sound();
    if is_outside(FileBits::MASK, file_bits) {
        return Err(PlanFault::Code(Code::BitmapErr));
    }
    if is_outside(DirBits::MASK, dir_bits) {
        return Err(PlanFault::Code(Code::BitmapErr));
    }
    let id = match volume.resolve(alloc, user, dir, path) {
        Ok(id) => id,
        Err(fault) => return Err(fault),
    };
    let node = node_at(volume, id);
    let before = out.as_slice().len();
    match put_node_parms(alloc, volume, user, node, opens, file_bits, dir_bits, out) {
        Ok(()) => Ok(()),
        Err(_) => {
            out.truncate(before);
            Err(PlanFault::Memory)
        }
    }
}

/// Whether an id is a directory's.
pub(crate) fn is_directory(volume: &Volume, id: NodeId) -> bool
    requires { has_node volume.now.state.rows id.0 ≡ true }
    ensures { result ≡ has_directory volume.now.state.rows id.0 }
{
    volume.keeps_sound();
    is_dir(node_at(volume, id))
}

/// The id of the directory to which a path leads, or why FPOpenDir is refused.
#[tactic(auto, unfolding(volume_spec::specs::OpenDir::open_dir_refusal, volume_spec::specs::OpenDir::open_dir_id))]
pub fn open_dir(
    alloc: Global,
    volume: &Volume,
    user: u32,
    dir: NodeId,
    path: &Path,
) -> Result<NodeId, PlanFault>
    ensures refused { Refuses result (open_dir_refusal volume.now.state user dir.0 path.now) }
    ensures id { IfOk result (λ id. open_dir_id volume.now.state user dir.0 path.now ≡ Some id.0) }
{
    rows_are_changed_in_place();
    volume.keeps_sound();
    let id = match volume.resolve(alloc, user, dir, path) {
        Ok(id) => id,
        Err(fault) => return Err(fault),
    };
    if !is_directory(volume, id) {
        return Err(PlanFault::Code(Code::ObjectTypeErr));
    }
    Ok(id)
}
