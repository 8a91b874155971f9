//! The desk, and the passes to it.
ghost use Rattle.std.specs.Prelude.{◌≡◌};

use crate::desk::pass::Pass;
use crate::desk::plays::{Both, Echo, Halves, InTurn, Settle};
use crate::desk::turn::take_turn;
use crate::desk::view::View;
use afp_base::{LinkNumber, Moment};
use afp_core::Core;
use afp_serial::{Answered, Ask};
use atomic_table::{Badge, Refused, Table};
use record_keeper::Keeper;
use std::alloc::Global;
use std::snapshot::Snapshot;
use std::sync::Wait;

/// The share of the first pass.
pub const WHOLE: u64 = 4_294_967_296;

/// A core that threads ask in turn.
#[derive(Drop)]
pub struct Desk<K: Keeper> {
    pub(crate) table: Table<Option<Core<K>>, View, Snapshot<Core<K>>, InTurn, Global>,
    pub ghost sized: { (table.shared.table_id.words ≡ 2) × (table.shared.table_id.slots ≡ 1) },
}

/// What the last pass showed, for contracts alone.
#[derive(Drop)]
pub struct Trace {
    pub(crate) last: Badge<View>,
}

impl<K: Keeper> Desk<K> {
    ghost use Rattle.std.specs.Prelude.{◌≡◌, ◌≤◌, ◌+◌, ◌-◌, ◌/◌, ◌<◌, IfOk, IfErr, [], ◌∷◌, length, true};
    ghost use Rattle.afp_base.specs.Limits.{payload_limit};
    ghost use Rattle.afp_serial.specs.Answered.{tells_bytes, told_of};
    ghost use Rattle.afp_serial.specs.Shown.{Shown, Asked, is_answer_to, fits_frame};
    ghost use Rattle.afp_serial.specs.declared.ask.Told.TheVariants as told;
    ghost use Rattle.afp_core_dispatch.specs.Asks.{takes_memory};
    ghost use Rattle.afp_desk.specs.desk.Passes.{IsOf, view, shown, share, IsSplit, IsMet, IsFirst, IsClosed, remembered, start_then, core_then};
    ghost use Rattle.afp_desk.specs.desk.Rule.{all_shares};

    /// At want of memory it hands the core back.
    pub fn new(alloc: Global, core: Core<K>) -> Result<(Desk<K>, Pass<K>), Core<K>>
        ensures ok { IfOk result (λ r. IsOf r.0 r.1 × IsFirst core (view r.1)) }
        ensures err { IfErr result (λ c. c ≡ core) }
    {
        let start = Snapshot::of(&core);
        let _sound = core.counts();
        let mut slots = Vec::new(alloc);
        if slots.reserve(1).is_err() {
            return Err(core);
        }
        slots.push_reserved(Some(core));
        match Table::new(alloc, &[0, 0], slots, &start) {
            Ok((table, seat)) => Ok((Desk { table }, Pass { seat, parts: WHOLE })),
            Err(Refused { mut slots }) => match slots.pop() {
                Some(Some(core)) => Err(core),
                _ => unreachable!(),
            },
        }
    }

    /// The new pass has half of the share, has seen as much, and has no calls of its own.
    pub fn split(&self, pass: &mut Pass<K>) -> Pass<K>
        requires desk { IsOf self.now pass.old }
        requires two { 2 ≤ share pass.old }
        ensures desk { IsOf self.now pass.new × IsOf self.now result }
        ensures split { IsSplit (view pass.old) (view pass.new) (view result) }
    {
        let seat = self.table.shared.split_seat::<Halves>(&mut pass.seat);
        let parts = pass.parts / 2;
        pass.parts -= parts;
        Pass { seat, parts }
    }

    /// Asks the core, once it is this call's turn; the block of a reply is put at the front of `out`.
    pub fn call<R: Wait>(
        &self,
        rt: &R,
        pass: &mut Pass<K>,
        now: Moment,
        link: LinkNumber,
        ask: Ask,
        out: &mut [u8],
    ) -> Answered
        requires desk { IsOf self.now pass.old }
        requires room { tells_bytes ask ≡ true → payload_limit ≤ length out.old }
        ensures desk { IsOf self.now pass.new }
        ensures asked { Asked (shown pass.old) now link ask (told_of result out.new) (shown pass.new) }
        ensures answers { is_answer_to ask (told_of result out.new) ≡ true }
        ensures size { fits_frame (told_of result out.new) ≡ true }
        ensures length { length out.new ≡ length out.old }
        ensures memory { told_of result out.new ≡ told.Memory → takes_memory ask ≡ true }
        ensures share { share pass.new ≡ share pass.old }
    {
        take_turn(rt, &self.table.shared, &mut pass.seat, now, link, ask, out)
    }

    /// The pass has the calls and the shares of both, and shows the longer history.
    pub fn meet(&self, pass: &mut Pass<K>, other: Pass<K>)
        requires { IsOf self.now pass.old × IsOf self.now other }
        ensures desk { IsOf self.now pass.new }
        ensures met { IsMet (view pass.old) (view other) (view pass.new) }
    {
        let Pass { seat, parts } = other;
        self.table.shared.join_seat::<Both>(&mut pass.seat, seat);
        self.table.shared.load::<Settle>(&mut pass.seat, 1);
        pass.parts += parts;
    }

    /// The core, which stands for the whole history, and what the desk was at the end.
    pub fn close(self, mut pass: Pass<K>) -> (Core<K>, Trace)
        requires desk { IsOf self pass }
        requires whole { share pass ≡ all_shares }
        ensures trace { remembered result.1.last.views ≡ shown pass }
        ensures ends { (start_then result.1.last.views ≡ (view pass).start) × (core_then result.1.last.views ≡ (view pass).core) }
        ensures core { IsClosed (view pass) result.0 }
    {
        let Desk { table } = self;
        let last = table.shared.split_seat::<Echo>(&mut pass.seat);
        let Pass { seat, parts: _ } = pass;
        let mut closed = table.close_with(seat);
        let Some(core) = closed.take(0) else {
            unreachable!()
        };
        closed.free();
        let trace = Trace {
            last: last.into_badge(),
        };
        (core, trace)
    }
}
