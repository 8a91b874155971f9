//! Opening a link.
ghost use Rattle.std.specs.Prelude.{◌≡◌, ℕ, List, IfOk, OnOk, None, Some};
ghost use Rattle.afp_client.specs.declared.session.event.Event.{Event};
ghost use Rattle.afp_client.specs.declared.session.stage.Stage.{Stage};
ghost use Rattle.afp_serial.specs.Answer.{link_number};
ghost use Rattle.afp_server.specs.link.Wire.{open_link};
ghost use Rattle.once_across_breaks_drill.specs.rounds.Opening.{AwaitsBack, AwaitsLogin, IsBack, IsLoggedIn, IsOpened, LogsIn};

use crate::rounds::caller::Caller;
use crate::rounds::laws::requests_are_told_in_order;
use crate::rounds::line::Line;
use crate::rounds::round::call_round;
use afp_base::{Bytes, Moment, OutOfMemory};
use afp_client::Event;
use afp_serial::House;
use capture_log_server::SoleTeller;
use std::alloc::Global;

/// A client, and the server end of the link of that number.
#[derive(Drop)]
pub struct Linked {
    pub caller: Caller,
    pub line: Line,
    pub link: u64,
}

/// The number of the link of a session that is open on a line. One that is not is told as want of memory.
fn number_of(line: &Line) -> Result<u64, OutOfMemory>
    ensures { IfOk result (λ link. open_link line.now.stage ≡ Some (link_number link)) }
{
    match line.link() {
        None => Err(OutOfMemory),
        Some(link) => Ok(link.0),
    }
}

/// What goes on in an opening, and nothing else.
fn goes_on(event: &Event) -> Result<(), OutOfMemory>
    ensures { OnOk result (event.now ≡ Event.Step) }
{
    match event {
        Event::Step => Ok(()),
        _ => Err(OutOfMemory),
    }
}

/// A round of OpenSession on a new link: FPLogin is appended to `out`.
fn open_round<T: SoleTeller>(
    alloc: Global,
    caller: Caller,
    house: &House,
    now: Moment,
    teller: &mut T,
    out: &mut Bytes,
) -> Result<Linked, OutOfMemory>
    requires { caller.stage ≡ Stage.Unlinked }
    ensures { IfOk result (λ l. IsOpened now caller out.old (T.shown teller.old) l out.new (T.shown teller.new)) }
{
    requests_are_told_in_order();
    let mut request = Bytes::new(alloc);
    let mut caller = caller;
    caller.start(&mut request)?;
    let line = Line::new(alloc, house, now)?;
    let mut reply = Bytes::new(alloc);
    match line.serve(request.as_slice(), now, teller, &mut reply)? {
        None => Err(OutOfMemory),
        Some(behind) => {
            let link = number_of(&behind)?;
            let taken = caller.take(reply.as_slice(), out)?;
            Ok(Linked {
                caller: taken.0,
                line: behind,
                link,
            })
        }
    }
}

/// A round of FPLogin: the next request is appended to `out`.
fn login_round<T: SoleTeller>(
    alloc: Global,
    linked: Linked,
    request: &[u8],
    now: Moment,
    teller: &mut T,
    out: &mut Bytes,
) -> Result<Linked, OutOfMemory>
    requires { AwaitsLogin linked request.now }
    ensures { IfOk result (λ l. IsLoggedIn now linked out.old (T.shown teller.old) l out.new (T.shown teller.new)) }
{
    match call_round(alloc, linked.caller, linked.line, request, now, teller, out)? {
        None => Err(OutOfMemory),
        Some(round) => {
            goes_on(&round.event)?;
            Ok(Linked {
                caller: round.caller,
                line: round.line,
                link: linked.link,
            })
        }
    }
}

/// A new link, on which the client has logged in: the last request of its opening is appended to `out`.
pub(crate) fn log_in<T: SoleTeller>(
    alloc: Global,
    caller: Caller,
    house: &House,
    now: Moment,
    teller: &mut T,
    out: &mut Bytes,
) -> Result<Linked, OutOfMemory>
    requires unlinked { caller.stage ≡ Stage.Unlinked }
    requires guest { caller.login.user ≡ None }
    ensures { IfOk result (λ l. LogsIn now caller out.old (T.shown teller.old) l out.new (T.shown teller.new)) }
{
    let mut request = Bytes::new(alloc);
    let linked = open_round(alloc, caller, house, now, teller, &mut request)?;
    login_round(alloc, linked, request.as_slice(), now, teller, out)
}

/// The opening is done.
fn is_ready(event: &Event) -> Result<(), OutOfMemory>
    ensures { OnOk result (event.now ≡ Event.Ready) }
{
    match event {
        Event::Ready => Ok(()),
        _ => Err(OutOfMemory),
    }
}

/// A round of FPDisconnectOldSession: a request that waits is appended to `out` again.
pub(crate) fn back_round<T: SoleTeller>(
    alloc: Global,
    linked: Linked,
    request: &[u8],
    now: Moment,
    teller: &mut T,
    out: &mut Bytes,
) -> Result<Linked, OutOfMemory>
    requires { (token : List ℕ) × AwaitsBack token linked request.now }
    ensures { IfOk result (λ l. (token : List ℕ) → AwaitsBack token linked request.now → IsBack now token linked out.old (T.shown teller.old) l out.new (T.shown teller.new)) }
{
    match call_round(alloc, linked.caller, linked.line, request, now, teller, out)? {
        None => Err(OutOfMemory),
        Some(round) => {
            is_ready(&round.event)?;
            Ok(Linked {
                caller: round.caller,
                line: round.line,
                link: linked.link,
            })
        }
    }
}
