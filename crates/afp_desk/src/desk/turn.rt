//! One turn of a seat, on the table.
ghost use Rattle.std.specs.Prelude.{◌≡◌, ◌+◌, ◌%◌, ◌^◌, ◌<◌, ◌≤◌, ◌∷◌, [], Some, length, true};
ghost use Rattle.afp_base.specs.Limits.{payload_limit};
ghost use Rattle.afp_serial.specs.Answered.{tells_bytes, told_of};
ghost use Rattle.afp_core.specs.turns.ServerState.{ServerState};
ghost use Rattle.afp_core.specs.turns.Turn.{TakesTurn};
ghost use Rattle.afp_desk.specs.desk.Plays.{Takes, DecidesAs};
ghost use Rattle.afp_desk.specs.desk.Calls.{IsWaiting, IsServed, call_of, Rests, AskedAt};

use crate::desk::plays::{Decide, Draw, Glance, InTurn, Look, Made};
use crate::desk::view::View;
use afp_base::{LinkNumber, Moment};
use afp_core::Core;
use afp_serial::{Answered, Ask};
use atomic_table::{Seat, Shared};
use record_keeper::Keeper;
use std::marker::Brand;
use std::snapshot::Snapshot;
use std::sync::Wait;

pub(crate) type CoreTable<K> = Shared<Option<Core<K>>, View, Snapshot<Core<K>>, InTurn>;

pub(crate) type CoreSeat<K> = Seat<Option<Core<K>>, View>;

/// Waits until the ticket is served, and has the core then.
fn wait_turn<K: Keeper, R: Wait>(rt: &R, table: &CoreTable<K>, seat: &mut CoreSeat<K>, ticket: u64)
    requires table { (seat.old.table_id ≡ table.now.table_id) × (table.now.table_id.words ≡ 2) × (table.now.table_id.slots ≡ 1) }
    requires waits { IsWaiting seat.old.me ticket }
    ensures same { (seat.new.table_id ≡ seat.old.table_id) × (seat.new.id ≡ seat.old.id) }
    ensures takes { Takes seat.old.me seat.new.me }
{
    for _ in rt.forever() {
        let found = table.load::<Look>(seat, 1);
        if found == ticket {
            return;
        }
        table.park(rt, 1, (found % 0x1_0000_0000) as u32);
    }
    unreachable!()
}

/// Gives the core back, and ends the turn.
fn decide<K: Keeper, E: Made>(
    table: &CoreTable<K>,
    seat: &mut CoreSeat<K>,
    now: Moment,
    link: LinkNumber,
    ask: &Snapshot<Ask>,
    answered: &Answered,
    out: &[u8],
)
    requires table { (seat.old.table_id ≡ table.now.table_id) × (table.now.table_id.words ≡ 2) × (table.now.table_id.slots ≡ 1) }
    requires call { E.call ≡ call_of now link ask.now.value (told_of answered.now out.now) }
    requires served { IsServed seat.old.me }
    requires turned { (core : ServerState) × (seat.old.me.1 ≡ (0, Some core) ∷ []) × TakesTurn seat.old.me.0.core now link ask.now.value (told_of answered.now out.now) core }
    ensures same { (seat.new.table_id ≡ seat.old.table_id) × (seat.new.id ≡ seat.old.id) }
    ensures decides { DecidesAs (told_of answered.now out.now) (call_of now link ask.now.value (told_of answered.now out.now)) seat.old.me seat.new.me }
{
    table.fetch_add::<Decide<E>>(seat, 1, 1);
}

/// Wakes those that wait, where somebody drew a ticket behind this one. Whoever draws later finds it served.
fn wake_others<K: Keeper>(table: &CoreTable<K>, seat: &mut CoreSeat<K>, ticket: u64)
    requires table { (seat.old.table_id ≡ table.now.table_id) × (table.now.table_id.words ≡ 2) × (table.now.table_id.slots ≡ 1) }
    ensures same { (seat.new.table_id ≡ seat.old.table_id) × (seat.new.id ≡ seat.old.id) }
    ensures stays { seat.new.me ≡ seat.old.me }
{
    if table.load::<Glance>(seat, 0) != ticket.wrapping_add(1) {
        table.wake_all(1);
    }
}

/// The core takes its turn where it is, in the slot.
fn turn_lent<K: Keeper>(
    table: &CoreTable<K>,
    seat: &mut CoreSeat<K>,
    now: Moment,
    link: LinkNumber,
    ask: Ask,
    out: &mut [u8],
) -> Answered
    requires table { seat.old.table_id ≡ table.now.table_id }
    requires taken { (core : ServerState) × (seat.old.me.1 ≡ (0, Some core) ∷ []) }
    requires room { tells_bytes ask ≡ true → payload_limit ≤ length out.old }
    ensures same { (seat.new.table_id ≡ seat.old.table_id) × (seat.new.id ≡ seat.old.id) }
    ensures view { seat.new.me.0 ≡ seat.old.me.0 }
    ensures turned { (core : ServerState) → seat.old.me.1 ≡ (0, Some core) ∷ [] → (after : ServerState) × (seat.new.me.1 ≡ (0, Some after) ∷ []) × TakesTurn core now link ask (told_of result out.new) after }
    ensures length { length out.new ≡ length out.old }
{
    let Some(core) = seat.slot_mut(table, 0) else {
        unreachable!()
    };
    core.turn(now, link, ask, out)
}

/// A whole turn; the block of a reply is put at the front of `out`.
pub(crate) fn take_turn<K: Keeper, R: Wait>(
    rt: &R,
    table: &CoreTable<K>,
    seat: &mut CoreSeat<K>,
    now: Moment,
    link: LinkNumber,
    ask: Ask,
    out: &mut [u8],
) -> Answered
    requires table { (seat.old.table_id ≡ table.now.table_id) × (table.now.table_id.words ≡ 2) × (table.now.table_id.slots ≡ 1) }
    requires rests { Rests seat.old.me }
    requires room { tells_bytes ask ≡ true → payload_limit ≤ length out.old }
    ensures same { (seat.new.table_id ≡ seat.old.table_id) × (seat.new.id ≡ seat.old.id) }
    ensures asked { AskedAt seat.old.me.0 now link ask (told_of result out.new) seat.new.me.0 }
    ensures length { length out.new ≡ length out.old }
    ensures rests { Rests seat.new.me }
{
    let asked = Snapshot::of(&ask);
    let ticket = table.fetch_add::<Draw>(seat, 0, 1);
    wait_turn(rt, table, seat, ticket);
    let answered = turn_lent(table, seat, now, link, ask, out);
    decide::<K, Brand>(table, seat, now, link, &asked, &answered, out);
    wake_others(table, seat, ticket);
    answered
}
