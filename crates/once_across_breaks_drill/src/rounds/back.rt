//! A client comes back.
ghost use Rattle.std.specs.Prelude.{◌≡◌, ℕ, suc, List, Some, IfOk, OnOk};
ghost use Rattle.afp_client.specs.session.State.{Waiting};
ghost use Rattle.once_across_breaks_drill.specs.rounds.Linked.{ComesBack, IsLinked};

use crate::rounds::opening::{Linked, back_round, log_in};
use afp_base::{Bytes, Moment, OutOfMemory};
use afp_serial::House;
use capture_log_server::SoleTeller;
use std::alloc::Global;

/// The number of the link behind a link. Another is told as want of memory.
fn is_next(old: u64, new: u64) -> Result<(), OutOfMemory>
    ensures { OnOk result (new ≡ suc old) }
{
    match old.checked_add(1) {
        None => Err(OutOfMemory),
        Some(next) => {
            if next == new {
                Ok(())
            } else {
                Err(OutOfMemory)
            }
        }
    }
}

/// The link breaks and is lost, and the client comes back on the next one: it logs in, takes up its session again, and its request, which waits, is
/// appended to `out` again. The one error is want of memory: the client is gone then.
pub fn come_back<T: SoleTeller>(
    alloc: Global,
    linked: Linked,
    house: &House,
    now: Moment,
    teller: &mut T,
    out: &mut Bytes,
) -> Result<Linked, OutOfMemory>
    requires { (token : List ℕ) × (w : Waiting) × (next : ℕ) × IsLinked token (Some w) next linked }
    ensures { IfOk result (λ l. (token : List ℕ) (w : Waiting) (next : ℕ) → IsLinked token (Some w) next linked
        → ComesBack now token w next linked out.old (T.shown teller.old) l out.new (T.shown teller.new)) }
{
    linked.line.lose(now, teller)?;
    let mut caller = linked.caller;
    caller.broke();
    let mut request = Bytes::new(alloc);
    let again = log_in(alloc, caller, house, now, teller, &mut request)?;
    is_next(linked.link, again.link)?;
    back_round(alloc, again, request.as_slice(), now, teller, out)
}
