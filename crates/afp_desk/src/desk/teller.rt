//! A pass as a teller.
ghost use Rattle.std.specs.Prelude.{◌≡◌};

use crate::desk::desk::Desk;
use crate::desk::pass::Pass;
use afp_base::{LinkNumber, Moment};
use afp_serial::{Answered, Ask, Teller};
use record_keeper::Keeper;
use std::sync::Wait;

/// A desk and a pass of it.
#[derive(Drop)]
pub struct DeskTeller<'a, K: Keeper, R: Wait> {
    pub rt: &'a R,
    pub desk: &'a Desk<K>,
    pub pass: &'a mut Pass<K>,
    pub ghost ours: { pass.now.seat.table_id ≡ desk.now.table.shared.table_id },
}

impl<'a, K: Keeper, R: Wait> Teller for DeskTeller<'a, K, R> {
    ghost use Rattle.afp_desk.specs.desk.Passes.{shown, share};

    /// Which pass it has, its share, and the desk.
    type Fixed = (u64, u64, Desk<K>);

    ghost fixed = { λ t. (t.pass.ghost_name, share t.pass.now, t.desk.now) };

    ghost shown = { λ t. shown t.pass.now };

    ghost sound = { λ t. record {
      start = t.pass.now.sound;
      lawful = t.pass.now.lawful;
      stands = t.pass.now.sound_at;
      within = t.pass.now.within;
    } };

    fn ask(&mut self, now: Moment, link: LinkNumber, ask: Ask, out: &mut [u8]) -> Answered {
        self.desk.call(self.rt, self.pass, now, link, ask, out)
    }
}
