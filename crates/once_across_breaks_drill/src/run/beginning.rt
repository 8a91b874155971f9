//! The beginning of a drill.
ghost use Rattle.std.specs.Prelude.{ℕ, List, None, IfOk};
ghost use Rattle.capture_log_server.specs.Sole.{IsFreshTeller};
ghost use Rattle.once_across_breaks_drill.specs.rounds.Linked.{IsLinked};
ghost use Rattle.once_across_breaks_drill.specs.run.lemma.Going.{AsksVolume, Begins};

use crate::rounds::{Answered, Linked, ask_call, open_first};
use crate::run::breaking::{Reached, tell};
use afp_base::{Bytes, Moment, OutOfMemory};
use afp_serial::House;
use capture_log_server::SoleTeller;
use capture_made::open_volume_call;
use std::alloc::Global;

/// The client asks to open the volume.
fn ask_volume(alloc: Global, linked: Linked) -> Result<Reached, OutOfMemory>
    requires { (token : List ℕ) × IsLinked token None 3 linked }
    ensures { IfOk result (λ r. (token : List ℕ) → IsLinked token None 3 linked → AsksVolume token linked r) }
{
    let call = open_volume_call(alloc)?;
    let mut request = Bytes::new(alloc);
    let asked = ask_call(alloc, linked, &call, &mut request)?;
    Ok(Reached {
        linked: asked,
        request,
    })
}

/// The client opens its first link, and a volume there: what it is told of that. The one error is want of memory.
pub(crate) fn begin<T: SoleTeller>(
    alloc: Global,
    house: &House,
    now: Moment,
    teller: &mut T,
) -> Result<Answered, OutOfMemory>
    requires { IsFreshTeller house.now now (T.shown teller.old) }
    ensures { IfOk result (λ a. Begins house.now now a (T.shown teller.new)) }
{
    let linked = open_first(alloc, house, now, teller)?;
    let asked = ask_volume(alloc, linked)?;
    tell(alloc, asked, now, teller)
}
