//! The first link of a server that nobody has asked.
ghost use Rattle.std.specs.Prelude.{◌≡◌, ℕ, List, IfOk, OnOk};
ghost use Rattle.capture_log_server.specs.Sole.{IsFreshTeller};
ghost use Rattle.once_across_breaks_drill.specs.rounds.Linked.{AwaitsToken, HasToken, IsFirstLink};

use crate::rounds::caller::Caller;
use crate::rounds::laws::a_token_is_found;
use crate::rounds::opening::{Linked, log_in};
use crate::rounds::round::call_round;
use afp_base::{Bytes, Moment, OutOfMemory};
use afp_client::Login;
use afp_serial::House;
use capture_log_server::SoleTeller;
use std::alloc::Global;

/// A round of FPGetSessionToken.
fn token_round<T: SoleTeller>(
    alloc: Global,
    linked: Linked,
    request: &[u8],
    now: Moment,
    teller: &mut T,
) -> Result<Linked, OutOfMemory>
    requires { (token : List ℕ) × AwaitsToken now token linked request.now (T.shown teller.old) }
    ensures { IfOk result (λ l. (token : List ℕ) → AwaitsToken now token linked request.now (T.shown teller.old) → HasToken now token linked (T.shown teller.old) l (T.shown teller.new)) }
{
    let mut out = Bytes::new(alloc);
    match call_round(
        alloc,
        linked.caller,
        linked.line,
        request,
        now,
        teller,
        &mut out,
    )? {
        None => Err(OutOfMemory),
        Some(round) => Ok(Linked {
            caller: round.caller,
            line: round.line,
            link: linked.link,
        }),
    }
}

/// The number of the first link. Another is told as want of memory.
fn is_first(link: u64) -> Result<(), OutOfMemory>
    ensures { OnOk result (link ≡ 1) }
{
    if link == 1 { Ok(()) } else { Err(OutOfMemory) }
}

/// A client without a name opens the first link of a server that nobody has asked, logs in, and asks for its session's token. The one error is want of
/// memory.
pub fn open_first<T: SoleTeller>(
    alloc: Global,
    house: &House,
    now: Moment,
    teller: &mut T,
) -> Result<Linked, OutOfMemory>
    requires { IsFreshTeller house.now now (T.shown teller.old) }
    ensures { IfOk result (λ l. IsFirstLink house.now now l (T.shown teller.new)) }
{
    a_token_is_found();
    let caller = Caller::new(alloc, Login { user: None })?;
    let mut request = Bytes::new(alloc);
    let linked = log_in(alloc, caller, house, now, teller, &mut request)?;
    is_first(linked.link)?;
    token_round(alloc, linked, request.as_slice(), now, teller)
}
