//! FPSetVolParms.
ghost use Rattle.std.specs.Prelude.{◌≡◌, ◌<◌, ◌≤◌, length, IfOk, OnErr};
ghost use Rattle.byteorder.specs.Endian.{big_number};
ghost use Rattle.volume_spec.specs.Parms.{date_in};
ghost use Rattle.volume_spec.specs.SetVolParms.{set_vol_parms_refusal};
ghost use Rattle.volume_spec.specs.VolumeCalls as call;
ghost use Rattle.volume_tree.specs.Answered.{Refuses};
ghost use Rattle.volume_edits.specs.plans.Plans.{Plans};

use crate::edits::{Edit, Plan, WholeVolume};
use crate::plans::one::{laws_hold, plan_one};
use afp_base::{Code, Moment, Scan, Short};
use std::alloc::Global;
use volume_spec::bytes_in_range;
use volume_tree::PlanFault;

/// The bits that may be set: the backup date alone (AFP Reference, "Volume Bitmap").
const BACKUP_DATE_ALONE: u16 = 0x0010;

/// The number in the first 4 bytes.
#[tactic(auto, using(afp_base::proofs::Numbers::number_front))]
fn first_number(tail: &[u8]) -> Result<u32, Short>
    ensures ok { IfOk result (λ number. (4 ≤ length tail.now) × (number ≡ big_number 4 tail.now)) }
    ensures err { OnErr result (length tail.now < 4) }
{
    Scan::new(tail).u32()
}

/// The backup date that FPSetVolParms sets, or why it is refused.
#[tactic(auto, unfolding(volume_spec::specs::SetVolParms::set_vol_parms_refusal))]
fn backup_date(bits: u16, tail: &[u8]) -> Result<i32, PlanFault>
    ensures refused { Refuses result (set_vol_parms_refusal bits tail.now) }
    ensures date { IfOk result (λ date. date ≡ date_in tail.now) }
{
    if bits != BACKUP_DATE_ALONE {
        return Err(PlanFault::Code(Code::BitmapErr));
    }
    let Ok(number) = first_number(tail) else {
        return Err(PlanFault::Code(Code::ParamErr));
    };
    Ok(number.cast_signed())
}

/// Why FPSetVolParms is refused, or the plan of it: the volume's backup date is set. Want of memory comes for no other reason.
pub fn plan_set_vol_parms(
    alloc: Global,
    whole: &WholeVolume,
    user: u32,
    now: Moment,
    bits: u16,
    tail: &[u8],
) -> Result<Plan, PlanFault>
    ensures refused { Refuses result (set_vol_parms_refusal bits tail.now) }
    ensures plan { IfOk result (Plans whole.now.state user now (call.SetVolParms bits tail.now)) }
{
    laws_hold(whole, user, now);
    bytes_in_range(tail);
    let date = match backup_date(bits, tail) {
        Ok(date) => date,
        Err(fault) => return Err(fault),
    };
    plan_one(alloc, now, Edit::backs_up(date))
}
