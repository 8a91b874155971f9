//! FPExchangeFiles.
ghost use Rattle.std.specs.Prelude.{◌≡◌, IfOk};
ghost use Rattle.volume_spec.specs.ExchangeFiles.{exchange_files_refusal, lacks_either};
ghost use Rattle.volume_spec.specs.VolumeCalls as call;
ghost use Rattle.volume_tree.specs.Answered.{Refuses};
ghost use Rattle.volume_edits.specs.plans.Plans.{Plans};

use crate::edits::{Edit, Plan, WholeVolume};
use crate::plans::asked::is_file;
use crate::plans::one::{laws_hold, plan_one};
use crate::plans::tree_asked::lacks_above;
use afp_base::{Code, Moment, NodeId};
use afp_names::Path;
use std::alloc::Global;
use volume_spec::limits::{READ_RIGHT, WRITE_RIGHT};
use volume_tree::PlanFault;

/// Whether a user lacks read or write in the directory of a node.
fn lacks_either(whole: &WholeVolume, user: u32, id: NodeId) -> bool
    ensures { result ≡ lacks_either whole.now.state.rows user id.0 }
{
    lacks_above(whole, user, READ_RIGHT, id) || lacks_above(whole, user, WRITE_RIGHT, id)
}

/// Why FPExchangeFiles is refused, or the plan of it: the two files exchange their forks and modified dates. Want of memory comes for no other reason.
#[tactic(auto, unfolding(volume_spec::specs::ExchangeFiles::exchange_files_refusal))]
pub fn plan_exchange_files(
    alloc: Global,
    whole: &WholeVolume,
    user: u32,
    now: Moment,
    dir: NodeId,
    path: &Path,
    second_dir: NodeId,
    second_path: &Path,
) -> Result<Plan, PlanFault>
    ensures refused { Refuses result (exchange_files_refusal whole.now.state user dir.0 path.now second_dir.0 second_path.now) }
    ensures plan { IfOk result (Plans whole.now.state user now (call.ExchangeFiles dir.0 path.now second_dir.0 second_path.now)) }
{
    laws_hold(whole, user, now);
    let a = match whole.resolve(alloc, user, dir, path) {
        Ok(a) => a,
        Err(fault) => return Err(fault),
    };
    if !is_file(whole, a) {
        return Err(PlanFault::Code(Code::ObjectTypeErr));
    }
    let b = match whole.resolve(alloc, user, second_dir, second_path) {
        Ok(b) => b,
        Err(fault) => return Err(fault),
    };
    if !is_file(whole, b) {
        return Err(PlanFault::Code(Code::ObjectTypeErr));
    }
    if lacks_either(whole, user, a) {
        return Err(PlanFault::Code(Code::AccessDenied));
    }
    if lacks_either(whole, user, b) {
        return Err(PlanFault::Code(Code::AccessDenied));
    }
    if a.0 == b.0 {
        return Err(PlanFault::Code(Code::SameObjectErr));
    }
    plan_one(alloc, now, Edit::exchanges(a, b))
}
