//! What a link does at a new second in which nothing was read.
ghost use Rattle.std.specs.Prelude.{◌≡◌, ◌≢◌, List, ℕ, ◌+◌, ◌<◌, ◌≤◌, ◌^◌, length, IfSome};
ghost use Rattle.dsi_frame.specs.Buffered.{Buffered, buffer_length};
ghost use Rattle.dsi_frame.specs.Replies.{listed, spelling_of};
ghost use Rattle.afp_outside.specs.ends.Gate.{Passed};
ghost use Rattle.afp_outside.specs.ends.Link.{LinkState, ReadsQuiet};
ghost use Rattle.afp_server.specs.link.Requests.{request_at, requests_after};
ghost use Rattle.afp_server.specs.link.Progress.{point};
ghost use Rattle.afp_server.specs.connection.Turn.{InTurn};
ghost use Rattle.afp_server.specs.connection.Standing.{IsLive, IsLiveIn, IsOf, RestsAt, StandsBy};
ghost use Rattle.afp_server.specs.connection.lemma.Begun.{Begins as BeginsAt, Puts};
ghost use Rattle.afp_server.specs.connection.lemma.Quiet.{OpensBegun, WaitsAt};

use crate::connection::sending::{Put, send_or_keep};
use crate::connection::standing::{Standing, Then, Turn};
use crate::link::{
    Idle, LinkEnd, LinkRequests, LinkSession, Request, Stage, attention_bytes, is_over,
    tickle_bytes,
};
use afp_base::{LinkNumber, Moment};
use afp_outside::ReadyLink;
use afp_serial::Teller;
use std::alloc::Global;

/// Begins to write the request that is due at a quiet at which this drain was told, or none.
fn put_request<L: ReadyLink>(
    alloc: Global,
    requests: &mut LinkRequests,
    drain: &Option<Moment>,
    link: &mut L,
) -> Put
    ensures after { requests.new ≡ requests_after (L.link_state link.old).now drain.now requests.old }
    ensures puts { Puts (L.link_state link.old) (spelling_of (listed (request_at (L.link_state link.old).now drain.now requests.old))) result (L.link_state link.new) }
{
    match requests.next(link.now(), drain) {
        None => Put::All,
        Some(Request::Attention(id)) => send_or_keep(alloc, link, &attention_bytes(id)),
        Some(Request::Tickle(id)) => send_or_keep(alloc, link, &tickle_bytes(id)),
    }
}

/// A quiet on an open session whose Pulse was told this drain, or none: the request that is due is begun, and where the drain's
/// time is over, the session ends by a Bye behind it. `None`: the link goes on.
fn begin_idle_open<L: ReadyLink, T: Teller>(
    alloc: Global,
    number: LinkNumber,
    drain: &Option<Moment>,
    session: &mut LinkSession,
    requests: &mut LinkRequests,
    link: &mut L,
    teller: &mut T,
) -> Option<Standing>
    requires { session.old.stage ≡ Stage.Open number }
    ensures fixed { T.fixed teller.new ≡ T.fixed teller.old }
    ensures block { session.new.block ≡ session.old.block }
    ensures live { IsLiveIn session.new.stage result }
    ensures rests { (rest : List ℕ) → IfSome result (λ s. RestsAt s rest) }
    ensures opens { OpensBegun (L.link_state link.old) number drain.now requests.old (T.shown teller.old) result session.new.stage requests.new (L.link_state link.new) (T.shown teller.new) }
{
    let is_over = is_over(drain, link.now());
    match put_request(alloc, requests, drain, link) {
        Put::Failed => Some(Standing::Over(LinkEnd::WriteFault)),
        Put::Left(unsent) => Some(Standing::Sends {
            unsent,
            then: if is_over {
                Then::Leaves(number)
            } else {
                Then::GoesOn
            },
            called: None,
        }),
        Put::All => {
            if !is_over {
                return None;
            }
            session.leave(number, link.now(), teller);
            Some(Standing::Over(LinkEnd::Drained))
        }
    }
}

/// A quiet, behind its read. `None`: the link goes on.
fn begin_idle<L: ReadyLink, T: Teller>(
    alloc: Global,
    session: &mut LinkSession,
    requests: &mut LinkRequests,
    link: &mut L,
    teller: &mut T,
) -> Option<Standing>
    requires { session.old.stage ≢ Stage.Closing }
    ensures fixed { T.fixed teller.new ≡ T.fixed teller.old }
    ensures block { session.new.block ≡ session.old.block }
    ensures live { IsLiveIn session.new.stage result }
    ensures rests { (rest : List ℕ) → IfSome result (λ s. RestsAt s rest) }
    ensures idles { (before : LinkState) (cost : ℕ) (held : Buffered) (passed : Passed) → ReadsQuiet before (L.link_state link.old) → length held.rest ≤ buffer_length
        → InTurn (T.shown teller.old) (T.shown teller.new)
        (λ start shown. WaitsAt start cost (point held session.old.stage requests.old before shown passed))
        (λ start shown. BeginsAt start (cost + 1) result (point held session.new.stage requests.new (L.link_state link.new) shown passed)) }
{
    let (last, now) = (link.last_read(), link.now());
    match session.idle(last, now, teller) {
        Idle::On => None,
        Idle::Silent => Some(Standing::Over(LinkEnd::Silent { last, now })),
        Idle::Displaced => Some(Standing::Over(LinkEnd::Displaced)),
        Idle::Live {
            link: number,
            drain,
        } => begin_idle_open(alloc, number, &drain, session, requests, link, teller),
    }
}

/// A new second at a link that waits: where nothing was read in it, that is a quiet.
fn be_quiet<L: ReadyLink, T: Teller>(
    alloc: Global,
    session: &mut LinkSession,
    requests: &mut LinkRequests,
    link: &mut L,
    cost: &mut u64,
    teller: &mut T,
    turn: &Turn,
) -> Standing
    requires live { session.old.stage ≢ Stage.Closing }
    requires turns { turn.now.turns < 2 ^ 63 }
    ensures fixed { T.fixed teller.new ≡ T.fixed teller.old }
    ensures block { session.new.block ≡ session.old.block }
    ensures live { IsLive session.new.stage result }
    ensures more { cost.old ≤ cost.new }
    ensures rests { (rest : List ℕ) → RestsAt Standing.Waits rest → RestsAt result rest }
    ensures goes { (held : Buffered) (passed : Passed) → RestsAt Standing.Waits held.rest → InTurn (T.shown teller.old) (T.shown teller.new)
        (λ start shown. IsOf session.old.block turn.now.turns start × StandsBy start cost.old Standing.Waits (point held session.old.stage requests.old (L.link_state link.old) shown passed))
        (λ start shown. IsOf session.old.block turn.now.turns start × StandsBy start cost.new result (point held session.new.stage requests.new (L.link_state link.new) shown passed)) }
{
    if turn.at == link.now() {
        return Standing::Waits;
    }
    if *cost >= turn.turns {
        return Standing::Over(LinkEnd::Spent);
    }
    link.be_quiet(turn.at);
    *cost += 1;
    match begin_idle(alloc, session, requests, link, teller) {
        Some(standing) => standing,
        None => Standing::Waits,
    }
}

/// A new second: a link that waits is quiet, where nothing was read in it, and one whose peer takes nothing for too long has
/// failed to write.
pub fn tick_from<L: ReadyLink, T: Teller>(
    standing: Standing,
    alloc: Global,
    session: &mut LinkSession,
    requests: &mut LinkRequests,
    link: &mut L,
    cost: &mut u64,
    teller: &mut T,
    turn: &Turn,
) -> Standing
    requires live { IsLive session.old.stage standing }
    requires turns { turn.now.turns < 2 ^ 63 }
    ensures fixed { T.fixed teller.new ≡ T.fixed teller.old }
    ensures block { session.new.block ≡ session.old.block }
    ensures live { IsLive session.new.stage result }
    ensures more { cost.old ≤ cost.new }
    ensures rests { (rest : List ℕ) → RestsAt standing rest → RestsAt result rest }
    ensures goes { (held : Buffered) (passed : Passed) → RestsAt standing held.rest → InTurn (T.shown teller.old) (T.shown teller.new)
        (λ start shown. IsOf session.old.block turn.now.turns start × StandsBy start cost.old standing (point held session.old.stage requests.old (L.link_state link.old) shown passed))
        (λ start shown. IsOf session.old.block turn.now.turns start × StandsBy start cost.new result (point held session.new.stage requests.new (L.link_state link.new) shown passed)) }
{
    match standing {
        Standing::Waits => be_quiet(alloc, session, requests, link, cost, teller, turn),
        Standing::More => Standing::More,
        Standing::Over(end) => Standing::Over(end),
        Standing::Sends {
            unsent,
            then,
            called,
        } => {
            if unsent.is_stuck(turn.at) {
                link.give_up();
                return Standing::Over(LinkEnd::WriteFault);
            }
            Standing::Sends {
                unsent,
                then,
                called,
            }
        }
    }
}
