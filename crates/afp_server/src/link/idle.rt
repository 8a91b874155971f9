//! What a link does at a quiet.
ghost use Rattle.std.specs.Prelude.{◌≡◌, ◌≢◌, IfNone};
ghost use Rattle.afp_outside.specs.ends.Whole.{SendsAll};
ghost use Rattle.dsi_frame.specs.Replies.{listed, spelling_of};
ghost use Rattle.afp_server.specs.link.Requests.{request_at, requests_after};
ghost use Rattle.afp_server.specs.link.lemma.Serving.{IdlesLink, IdlesOpen};

use crate::link::requests::{LinkRequests, Request, attention_bytes, is_over, tickle_bytes};
use crate::link::serve::LinkEnd;
use crate::link::session::LinkSession;
use crate::link::stage::{Idle, Stage};
use afp_base::{LinkNumber, Moment};
use afp_outside::{Link, send_all};
use afp_serial::Teller;

/// A quiet: why it ends the link, where it does.
pub fn idle<L: Link, T: Teller>(
    session: &mut LinkSession,
    requests: &mut LinkRequests,
    link: &mut L,
    teller: &mut T,
) -> Option<LinkEnd>
    requires { session.old.stage ≢ Stage.Closing }
    ensures fixed { T.fixed teller.new ≡ T.fixed teller.old }
    ensures block { session.new.block ≡ session.old.block }
    ensures idles { IdlesLink (L.link_state link.old) session.old.stage requests.old (T.shown teller.old) result session.new.stage requests.new (L.link_state link.new) (T.shown teller.new) }
    ensures live { IfNone result (session.new.stage ≢ Stage.Closing) }
{
    let (last, now) = (link.last_read(), link.now());
    match session.idle(last, now, teller) {
        Idle::On => None,
        Idle::Silent => Some(LinkEnd::Silent { last, now }),
        Idle::Displaced => Some(LinkEnd::Displaced),
        Idle::Live {
            link: number,
            drain,
        } => idle_open(number, &drain, session, requests, link, teller),
    }
}

/// A quiet on an open session whose Pulse was told this drain, or none: the request that is due is written, and where the
/// drain's time is over, the session ends by a Bye.
fn idle_open<L: Link, T: Teller>(
    number: LinkNumber,
    drain: &Option<Moment>,
    session: &mut LinkSession,
    requests: &mut LinkRequests,
    link: &mut L,
    teller: &mut T,
) -> Option<LinkEnd>
    requires { session.old.stage ≡ Stage.Open number }
    ensures fixed { T.fixed teller.new ≡ T.fixed teller.old }
    ensures block { session.new.block ≡ session.old.block }
    ensures idles { IdlesOpen (L.link_state link.old) number drain.now requests.old (T.shown teller.old) result session.new.stage requests.new (L.link_state link.new) (T.shown teller.new) }
    ensures live { IfNone result (session.new.stage ≢ Stage.Closing) }
{
    let now = link.now();
    if !send_request(requests, drain, link) {
        return Some(LinkEnd::WriteFault);
    }
    if !is_over(drain, now) {
        return None;
    }
    session.leave(number, now, teller);
    Some(LinkEnd::Drained)
}

/// Writes the request that is due at a quiet at which this drain was told, or none. `false`: the write failed.
fn send_request<L: Link>(requests: &mut LinkRequests, drain: &Option<Moment>, link: &mut L) -> bool
    ensures after { requests.new ≡ requests_after (L.link_state link.old).now drain.now requests.old }
    ensures sends { SendsAll (L.link_state link.old) (spelling_of (listed (request_at (L.link_state link.old).now drain.now requests.old))) result (L.link_state link.new) }
{
    match requests.next(link.now(), drain) {
        None => true,
        Some(Request::Attention(id)) => send_all(link, &attention_bytes(id)),
        Some(Request::Tickle(id)) => send_all(link, &tickle_bytes(id)),
    }
}
