//! A client over links that break.
ghost use Rattle.std.specs.Prelude.{IfOk};
ghost use Rattle.afp_client.specs.session.Opening.{FitsLogin};
ghost use Rattle.afp_serial.specs.StatusBlock.{status_block};
ghost use Rattle.once_across_breaks_live.specs.Once.{ComesTo, block_of};

use crate::happening::Happening;
use crate::housed::HousedTeller;
use crate::laws::{what_happens_is_a_schedule, what_happens_takes_effect_once};
use crate::running::Running;
use afp_base::OutOfMemory;
use afp_client::{ClientCore, Login};
use afp_serial::{House, Teller};
use replay_cache::Answer;
use std::alloc::Global;

/// What a run came to: the client, the teller, and what the client was told of its calls, in order; and whether all that reached a server end was
/// answered, and each loss of one, and nothing of it told want of memory.
#[derive(Drop)]
pub struct OnceRun<T: Teller + Drop> {
    pub client: ClientCore,
    pub teller: T,
    pub results: Vec<Answer>,
    pub answered: bool,
}

/// Runs them over links of a server with this house.
fn run_all<T: Teller + Drop>(
    alloc: Global,
    login: Login,
    house: &House,
    teller: T,
    events: &[Happening],
) -> Result<OnceRun<T>, OutOfMemory>
    requires { FitsLogin login }
    ensures { IfOk result (λ run. ComesTo (status_block house.now) login (T.shown teller) events.now run.answered run.client (T.shown run.teller) run.results.items) }
{
    what_happens_is_a_schedule();
    what_happens_takes_effect_once();
    let mut running = Running::new(alloc, login, house, teller)?;
    for event in events {
        running.happen(house, event)?;
    }
    let Running {
        alloc: _,
        end,
        lanes: _,
        teller,
        answered,
    } = running;
    Ok(OnceRun {
        client: end.client,
        teller,
        results: end.results,
        answered,
    })
}

/// Runs a client that logs in so, over these happenings: its links and their server ends are those of this teller's server. A happening that cannot
/// be is skipped. So each command of the client takes effect once, in order, where the run keeps the premises of `once_across_breaks_code`. The one
/// error is want of memory.
pub fn once<T: HousedTeller>(
    alloc: Global,
    login: Login,
    teller: T,
    events: &[Happening],
) -> Result<OnceRun<T>, OutOfMemory>
    requires { FitsLogin login }
    ensures { IfOk result (λ run. ComesTo (block_of (T.shown teller)) login (T.shown teller) events.now run.answered run.client (T.shown run.teller) run.results.items) }
{
    let house = teller.house().copy(alloc)?;
    run_all(alloc, login, &house, teller, events)
}
