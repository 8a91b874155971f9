//! Connections by their places.
ghost use Rattle.std.specs.Prelude.{◌≡◌, ◌<◌, Some, length, drop, slice_get, IfOk, OnOk};
ghost use Rattle.afp_serial.specs.StatusBlock.{status_block};
ghost use Rattle.capture_log_server.specs.lemma.Slots.{FeedsAt, IdlesAt, LosesAt, ComparesAt, IsFit};
ghost use Rattle.capture_log_server.specs.States.{ConnectionState};

use crate::connection::Connection;
use crate::difference::Difference;
use crate::teller::SoleTeller;
use afp_base::{Moment, OutOfMemory};
use afp_serial::House;
use afp_server::Tally;
use std::alloc::Global;

/// Whether the connection at a place takes no more bytes.
pub fn is_over_at(slots: &[Connection], index: usize) -> bool
    ensures { (c : ConnectionState) → slice_get slots.now index ≡ Some c → result ≡ c.over }
{
    match slots.get(index) {
        Some(connection) => connection.is_over(),
        None => false,
    }
}

/// Whether bytes were fed to it.
pub fn is_used_at(slots: &[Connection], index: usize) -> bool
    ensures { (c : ConnectionState) → slice_get slots.now index ≡ Some c → result ≡ c.used }
{
    match slots.get(index) {
        Some(connection) => connection.is_used(),
        None => false,
    }
}

/// Whether it was lost.
pub fn is_lost_at(slots: &[Connection], index: usize) -> bool
    ensures { (c : ConnectionState) → slice_get slots.now index ≡ Some c → result ≡ c.lost }
{
    match slots.get(index) {
        Some(connection) => connection.is_lost(),
        None => false,
    }
}

/// Feeds bytes to it.
pub fn feed_at<T: SoleTeller>(
    slots: &mut [Connection],
    index: usize,
    alloc: Global,
    house: &House,
    piece: &[u8],
    now: Moment,
    teller: &mut T,
) -> Result<Tally, OutOfMemory>
    requires within { index < length slots.old }
    requires fit { (c : ConnectionState) → slice_get slots.old index ≡ Some c → IsFit (status_block house.now) c }
    ensures { IfOk result (λ tally. FeedsAt (status_block house.now) now piece.now slots.old index (T.shown teller.old) tally slots.new (T.shown teller.new)) }
{
    slots[index].feed(alloc, house, piece, now, teller)
}

/// A quiet of it.
pub fn idle_at<T: SoleTeller>(
    slots: &mut [Connection],
    index: usize,
    now: Moment,
    teller: &mut T,
) -> Result<(), OutOfMemory>
    requires { index < length slots.old }
    ensures { OnOk result (IdlesAt now slots.old index (T.shown teller.old) slots.new (T.shown teller.new)) }
{
    slots[index].idle(now, teller)
}

/// Its loss.
pub fn lose_at<T: SoleTeller>(
    slots: &mut [Connection],
    index: usize,
    now: Moment,
    teller: &mut T,
) -> Result<(), OutOfMemory>
    requires { index < length slots.old }
    ensures { OnOk result (LosesAt now slots.old index (T.shown teller.old) slots.new (T.shown teller.new)) }
{
    slots[index].lose(now, teller)
}

/// Compares bytes with its output.
pub fn compare_at(
    slots: &mut [Connection],
    index: usize,
    wanted: &[u8],
) -> Result<Option<Difference>, OutOfMemory>
    requires { index < length slots.old }
    ensures { IfOk result (λ found. ComparesAt wanted.now slots.old index found slots.new) }
{
    slots[index].compare(wanted)
}

/// What of its output was not compared yet.
pub fn uncompared_at(slots: &[Connection], index: usize) -> &[u8]
    ensures { (c : ConnectionState) → slice_get slots.now index ≡ Some c → result.now ≡ drop c.place c.out }
{
    match slots.get(index) {
        Some(connection) => connection.uncompared(),
        None => &[],
    }
}
