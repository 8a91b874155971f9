//! FPAddIcon.
ghost use Rattle.std.specs.Prelude.{◌≡◌, true, length, IfOk};
ghost use Rattle.volume_spec.specs.Icons.{add_icon_refusal};
ghost use Rattle.volume_spec.specs.Desktop.{icon_under};
ghost use Rattle.volume_spec.specs.SoundVolume.{icon_key, is_icon};
ghost use Rattle.volume_spec.specs.TypedVolume.{is_long, is_typed_icon};
ghost use Rattle.volume_spec.specs.VolumeCalls as call;
ghost use Rattle.volume_tree.specs.Answered.{Refuses};
ghost use Rattle.volume_edits.specs.plans.Plans.{Plans};

use crate::edits::{Edit, Plan, WholeVolume};
use crate::plans::asked::has_no_icon_room;
use crate::plans::one::{laws_hold, plan_one};
use afp_base::{Bytes, Code, Moment};
use std::alloc::Global;
use volume_spec::bytes_in_range;
use volume_tree::PlanFault;

/// What the types say of an icon. The call does nothing.
fn icon_in_range(key: &[u8; 9], tag: u32, bits: &Bytes)
    ensures formed { is_icon (icon_under key.now tag bits.now) ≡ true }
    ensures typed { is_typed_icon (icon_under key.now tag bits.now) ≡ true }
    ensures key { icon_key (icon_under key.now tag bits.now) ≡ key.now }
{
    nine_bytes(key);
    long_in_range(tag);
    bytes_in_range(key);
    bytes_in_range(bits.as_slice());
}

/// A tag is a number of four bytes. The call does nothing.
fn long_in_range(tag: u32)
    ensures { is_long tag ≡ true }
{}

/// A key of an icon has nine bytes. The call does nothing.
fn nine_bytes(key: &[u8; 9])
    ensures { length key.now ≡ 9 }
{}

/// Why FPAddIcon is refused, or the plan of it: an icon is put under a key, creator, type and icon type. Of its bits the first 65,535 are kept. Want of memory comes for no
/// other reason.
#[tactic(auto, unfolding(volume_spec::specs::Icons::add_icon_refusal))]
pub fn plan_add_icon(
    alloc: Global,
    whole: &WholeVolume,
    user: u32,
    now: Moment,
    key: [u8; 9],
    tag: u32,
    bits: Bytes,
) -> Result<Plan, PlanFault>
    ensures refused { Refuses result (add_icon_refusal whole.now.state (icon_under key tag bits)) }
    ensures plan { IfOk result (Plans whole.now.state user now (call.AddIcon (icon_under key tag bits))) }
{
    laws_hold(whole, user, now);
    icon_in_range(&key, tag, &bits);
    if has_no_icon_room(whole, &key) {
        return Err(PlanFault::Code(Code::DiskFull));
    }
    plan_one(alloc, now, Edit::puts_icon(key, tag, bits))
}
