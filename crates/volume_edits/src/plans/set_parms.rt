//! FPSetFileParms, FPSetDirParms and FPSetFileDirParms.
ghost use Rattle.std.specs.Prelude.{◌≡◌, false, Ok, IfOk};
ghost use Rattle.volume_spec.specs.SetFileDirParms.{is_short_tail, set_dir_parms_refusal, set_file_dir_parms_refusal, set_file_parms_refusal};
ghost use Rattle.volume_spec.specs.VolumeCalls as call;
ghost use Rattle.volume_spec.specs.Walk.{found};
ghost use Rattle.volume_tree.specs.Answered.{Refuses};
ghost use Rattle.volume_edits.specs.plans.Plans.{Plans};

use crate::edits::{Edit, Plan, WholeVolume};
use crate::plans::asked::is_file;
use crate::plans::one::{laws_hold, plan_one};
use crate::plans::tree_asked::{is_directory, is_owner, lacks_above};
use afp_base::{Code, Moment, NodeId};
use afp_bitmap::is_outside;
use afp_names::Path;
use std::alloc::Global;
use volume_spec::bytes_in_range;
use volume_spec::limits::WRITE_RIGHT;
use volume_tree::{PlanFault, is_short_tail, settings_in};

/// The bits that may be set, and those of FPSetDirParms (AFP Reference, "File Bitmap", "Directory Bitmap").
const SETTABLE_BITS: u16 = 0x003d;

const SETTABLE_DIR_BITS: u16 = 0x1c3d;

/// The bits of owner, group and access rights, which the owner alone may set (AFP Reference, "Directory Bitmap").
const OWNER_BITS: u16 = 0x1c00;

/// The file that FPSetFileParms sets, or why it is refused.
#[tactic(auto, unfolding(volume_spec::specs::SetFileDirParms::set_file_parms_refusal))]
fn file_to_set(
    alloc: Global,
    whole: &WholeVolume,
    user: u32,
    dir: NodeId,
    bits: u16,
    path: &Path,
    tail: &[u8],
) -> Result<NodeId, PlanFault>
    ensures refused { Refuses result (set_file_parms_refusal whole.now.state user dir.0 bits path.now tail.now) }
    ensures found { IfOk result (λ id. found whole.now.state.rows user dir.0 path.now ≡ Ok id.0) }
    ensures long { IfOk result (λ id. is_short_tail bits tail.now ≡ false) }
{
    if is_outside(SETTABLE_BITS, bits) {
        return Err(PlanFault::Code(Code::BitmapErr));
    }
    let id = match whole.resolve(alloc, user, dir, path) {
        Ok(id) => id,
        Err(fault) => return Err(fault),
    };
    if !is_file(whole, id) {
        return Err(PlanFault::Code(Code::ObjectTypeErr));
    }
    if lacks_above(whole, user, WRITE_RIGHT, id) {
        return Err(PlanFault::Code(Code::AccessDenied));
    }
    if is_short_tail(bits, tail) {
        return Err(PlanFault::Code(Code::ParamErr));
    }
    Ok(id)
}

/// The directory that FPSetDirParms sets, or why it is refused.
#[tactic(auto, unfolding(volume_spec::specs::SetFileDirParms::set_dir_parms_refusal))]
fn directory_to_set(
    alloc: Global,
    whole: &WholeVolume,
    user: u32,
    dir: NodeId,
    bits: u16,
    path: &Path,
    tail: &[u8],
) -> Result<NodeId, PlanFault>
    ensures refused { Refuses result (set_dir_parms_refusal whole.now.state user dir.0 bits path.now tail.now) }
    ensures found { IfOk result (λ id. found whole.now.state.rows user dir.0 path.now ≡ Ok id.0) }
    ensures long { IfOk result (λ id. is_short_tail bits tail.now ≡ false) }
{
    if is_outside(SETTABLE_DIR_BITS, bits) {
        return Err(PlanFault::Code(Code::BitmapErr));
    }
    let id = match whole.resolve(alloc, user, dir, path) {
        Ok(id) => id,
        Err(fault) => return Err(fault),
    };
    if !is_directory(whole, id) {
        return Err(PlanFault::Code(Code::ObjectTypeErr));
    }
    if lacks_above(whole, user, WRITE_RIGHT, id) {
        return Err(PlanFault::Code(Code::AccessDenied));
    }
    if bits & OWNER_BITS != 0 && !is_owner(whole, user, id) {
        return Err(PlanFault::Code(Code::AccessDenied));
    }
    if is_short_tail(bits, tail) {
        return Err(PlanFault::Code(Code::ParamErr));
    }
    Ok(id)
}

/// The node that FPSetFileDirParms sets, or why it is refused.
#[tactic(auto, unfolding(volume_spec::specs::SetFileDirParms::set_file_dir_parms_refusal))]
fn node_to_set(
    alloc: Global,
    whole: &WholeVolume,
    user: u32,
    dir: NodeId,
    bits: u16,
    path: &Path,
    tail: &[u8],
) -> Result<NodeId, PlanFault>
    ensures refused { Refuses result (set_file_dir_parms_refusal whole.now.state user dir.0 bits path.now tail.now) }
    ensures found { IfOk result (λ id. found whole.now.state.rows user dir.0 path.now ≡ Ok id.0) }
    ensures long { IfOk result (λ id. is_short_tail bits tail.now ≡ false) }
{
    if is_outside(SETTABLE_BITS, bits) {
        return Err(PlanFault::Code(Code::BitmapErr));
    }
    let id = match whole.resolve(alloc, user, dir, path) {
        Ok(id) => id,
        Err(fault) => return Err(fault),
    };
    if lacks_above(whole, user, WRITE_RIGHT, id) {
        return Err(PlanFault::Code(Code::AccessDenied));
    }
    if is_short_tail(bits, tail) {
        return Err(PlanFault::Code(Code::ParamErr));
    }
    Ok(id)
}

/// Why FPSetFileParms is refused, or the plan of it: some fields of the file are set. Want of memory comes for no other reason.
pub fn plan_set_file_parms(
    alloc: Global,
    whole: &WholeVolume,
    user: u32,
    now: Moment,
    dir: NodeId,
    bits: u16,
    path: &Path,
    tail: &[u8],
) -> Result<Plan, PlanFault>
    ensures refused { Refuses result (set_file_parms_refusal whole.now.state user dir.0 bits path.now tail.now) }
    ensures plan { IfOk result (Plans whole.now.state user now (call.SetFileParms dir.0 bits path.now tail.now)) }
{
    laws_hold(whole, user, now);
    bytes_in_range(tail);
    let id = match file_to_set(alloc, whole, user, dir, bits, path, tail) {
        Ok(id) => id,
        Err(fault) => return Err(fault),
    };
    plan_one(alloc, now, Edit::sets(id, settings_in(bits, tail)))
}

/// Why FPSetDirParms is refused, or the plan of it: some fields of the directory are set. Want of memory comes for no other reason.
pub fn plan_set_dir_parms(
    alloc: Global,
    whole: &WholeVolume,
    user: u32,
    now: Moment,
    dir: NodeId,
    bits: u16,
    path: &Path,
    tail: &[u8],
) -> Result<Plan, PlanFault>
    ensures refused { Refuses result (set_dir_parms_refusal whole.now.state user dir.0 bits path.now tail.now) }
    ensures plan { IfOk result (Plans whole.now.state user now (call.SetDirParms dir.0 bits path.now tail.now)) }
{
    laws_hold(whole, user, now);
    bytes_in_range(tail);
    let id = match directory_to_set(alloc, whole, user, dir, bits, path, tail) {
        Ok(id) => id,
        Err(fault) => return Err(fault),
    };
    plan_one(alloc, now, Edit::sets(id, settings_in(bits, tail)))
}

/// Why FPSetFileDirParms is refused, or the plan of it: some fields of the node are set. Want of memory comes for no other reason.
pub fn plan_set_file_dir_parms(
    alloc: Global,
    whole: &WholeVolume,
    user: u32,
    now: Moment,
    dir: NodeId,
    bits: u16,
    path: &Path,
    tail: &[u8],
) -> Result<Plan, PlanFault>
    ensures refused { Refuses result (set_file_dir_parms_refusal whole.now.state user dir.0 bits path.now tail.now) }
    ensures plan { IfOk result (Plans whole.now.state user now (call.SetFileDirParms dir.0 bits path.now tail.now)) }
{
    laws_hold(whole, user, now);
    bytes_in_range(tail);
    let id = match node_to_set(alloc, whole, user, dir, bits, path, tail) {
        Ok(id) => id,
        Err(fault) => return Err(fault),
    };
    plan_one(alloc, now, Edit::sets(id, settings_in(bits, tail)))
}
