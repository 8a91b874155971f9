//! A turn of the core.
ghost use Rattle.std.specs.Prelude.{◌≡◌, ◌≤◌, length, option_map, true};
ghost use Rattle.afp_base.specs.Limits.{payload_limit};
ghost use Rattle.afp_serial.specs.Answered.{tells_bytes, told_of};
ghost use Rattle.afptool_lib.specs.teller.Turning.{Turns};

use afp_base::{LinkNumber, Moment};
use afp_core::Core;
use afp_serial::{Answered, Ask};
use record_keeper::Keeper;

/// Asks the core; the block of a reply is put at the front of `out`. `None`: there was no memory, and nothing has changed but there.
pub(crate) fn turn<K: Keeper>(
    core: &mut Core<K>,
    now: Moment,
    link: LinkNumber,
    ask: Ask,
    out: &mut [u8],
) -> Option<Answered>
    requires { tells_bytes ask ≡ true → payload_limit ≤ length out.old }
    ensures turns { Turns core.old now link ask (option_map (λ answered. told_of answered out.new) result) core.new }
    ensures length { length out.new ≡ length out.old }
{
    match core.turn(now, link, ask, out) {
        Answered::Memory => None,
        answered => Some(answered),
    }
}
