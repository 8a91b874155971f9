//! Calls that change a volume's tree.
ghost use Rattle.std.specs.Prelude.{◌≡◌, ◌==◌, false, length, IfOk, IfSome, IsSome};
ghost use Rattle.volume_spec.specs.CreateFile.{is_hard};
ghost use Rattle.volume_spec.specs.Edit.{after_call};
ghost use Rattle.volume_spec.specs.EditLaws.{volume_call};
ghost use Rattle.volume_spec.specs.TreeSteps.{tree_effect, tree_refusal};
ghost use Rattle.volume_tree.specs.Answered.{Refuses};
ghost use Rattle.volume_edits.specs.plans.Requests.{tree_call};
ghost use Rattle.volume_tree.specs.Shown.{opened};
ghost use Rattle.volume_edits.specs.edits.Planned.{edits_of};
ghost use Rattle.volume_edits.specs.plans.Plans.{Plans};

use crate::edits::{Plan, WholeVolume};
use crate::plans::create_dir::plan_create_dir;
use crate::plans::create_file::plan_create_file;
use crate::plans::delete::plan_delete;
use crate::plans::move_and_rename::plan_move_and_rename;
use crate::plans::rename::plan_rename;
use crate::plans::set_parms::{plan_set_dir_parms, plan_set_file_dir_parms, plan_set_file_parms};
use crate::plans::set_vol_parms::plan_set_vol_parms;
use afp_base::Moment;
use afp_calls_grammar::Call;
use deny_modes::VolumeOpens;
use std::alloc::Global;
use volume_spec::edit_laws::effects_are_edits;
use volume_tree::PlanFault;

/// Whether the flag of a create says that it is hard (AFP Reference, "FPCreateFile").
fn is_hard(flag: u8) -> bool
    ensures { result ≡ is_hard flag }
{
    flag & 0x80 != 0
}

/// Why a call is refused, or the plan of it.
fn plan_by_call(
    alloc: Global,
    whole: &WholeVolume,
    user: u32,
    now: Moment,
    opens: &VolumeOpens<'_>,
    call: &Call,
) -> Result<Plan, PlanFault>
    requires { IsSome (tree_call call.now) }
    ensures refused { IfSome (tree_call call.now) (λ call. Refuses result (tree_refusal whole.now.state user (opened opens.now) call)) }
    ensures plan { IfOk result (λ plan. IfSome (tree_call call.now) (λ call. Plans whole.now.state user now (volume_call call) plan)) }
{
    match call {
        Call::CreateDir { dir, path, .. } => plan_create_dir(alloc, whole, user, now, *dir, path),
        Call::CreateFile {
            flag,
            dir,
            path,
            ..
        } => plan_create_file(alloc, whole, user, now, opens, is_hard(*flag), *dir, path),
        Call::Delete { dir, path, .. } => plan_delete(alloc, whole, user, now, opens, *dir, path),
        Call::Rename {
            dir,
            path,
            new_path,
            ..
        } => plan_rename(alloc, whole, user, now, *dir, path, new_path),
        Call::MoveAndRename {
            dir,
            target_dir,
            path,
            target_path,
            new_path,
            ..
        } => plan_move_and_rename(
            alloc,
            whole,
            user,
            now,
            *dir,
            path,
            *target_dir,
            target_path,
            new_path,
        ),
        Call::SetFileParms {
            dir,
            bits,
            path,
            tail,
            ..
        } => plan_set_file_parms(alloc, whole, user, now, *dir, *bits, path, tail.as_slice()),
        Call::SetDirParms {
            dir,
            bits,
            path,
            tail,
            ..
        } => plan_set_dir_parms(alloc, whole, user, now, *dir, *bits, path, tail.as_slice()),
        Call::SetFileDirParms {
            dir,
            bits,
            path,
            tail,
            ..
        } => plan_set_file_dir_parms(alloc, whole, user, now, *dir, *bits, path, tail.as_slice()),
        Call::SetVolParms { bits, tail, .. } => plan_set_vol_parms(
            alloc,
            whole,
            user,
            now,
            *bits,
            tail.as_slice(),
        ),
        _ => unreachable!(),
    }
}

/// Why a call that changes a volume's tree is refused, or the plan of it, which has an edit at least. `opens` tells which forks of the volume are
/// open. Want of memory comes for no other reason.
pub fn plan_tree_call(
    alloc: Global,
    whole: &WholeVolume,
    user: u32,
    now: Moment,
    opens: &VolumeOpens<'_>,
    call: &Call,
) -> Result<Plan, PlanFault>
    requires { IsSome (tree_call call.now) }
    ensures refused { IfSome (tree_call call.now) (λ call. Refuses result (tree_refusal whole.now.state user (opened opens.now) call)) }
    ensures plan { IfOk result (λ plan. IfSome (tree_call call.now) (λ call. Plans whole.now.state user now (volume_call call) plan)) }
    ensures effect { IfOk result (λ plan. IfSome (tree_call call.now) (λ call. after_call whole.now.state now (edits_of plan.edits) ≡ tree_effect whole.now.state user now call)) }
    ensures some { IfOk result (λ plan. (length plan.edits == 0) ≡ false) }
{
    effects_are_edits();
    plan_by_call(alloc, whole, user, now, opens, call)
}
