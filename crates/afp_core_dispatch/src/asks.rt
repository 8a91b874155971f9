//! An ask of the server, at its moment: sessions open and end, and calls are answered.
ghost use Rattle.std.specs.Prelude.{◌≡◌, ◌≤◌, ℕ, List, Ok, length, true};
ghost use Rattle.afp_base.specs.Limits.{payload_limit};
ghost use Rattle.afp_serial.specs.Answer.{told_pulse, without_expired};
ghost use Rattle.afp_serial.specs.Answered.{tells_bytes, told_of};
ghost use Rattle.afp_serial.specs.World.{session_at};
ghost use Rattle.afp_serial.specs.declared.ask.Ask.{Ask};
ghost use Rattle.afp_core_state.specs.Running.{done};
ghost use Rattle.afp_core_dispatch.specs.Asks.{IsReadyToAsk, RunsAsk, RunsAskAt, told_in};
ghost use Rattle.afp_core_dispatch.specs.lemma.Asks.{RunsOpen};
ghost use Rattle.afp_core_dispatch.specs.lemma.Fits.{AskFits};

use crate::call::call;
use crate::request::Request;
use afp_base::{Code, LinkNumber, Moment, OutOfMemory};
use afp_core_state::State;
use afp_serial::{Answered, Ask, Outcome, entry_in_range, moment_in_range};
use record_keeper::Keeper;
use session_table::SessionFault;
use std::marker::Model;

/// Answers an ask; the block of a reply is put at the front of `out`. Without memory nothing changes but there; only `Open`
/// and `Call` take some, and no call whose answer is kept, or whose link has no session.
pub fn run_ask<K: Keeper>(
    state: &mut State<K>,
    now: Moment,
    link: LinkNumber,
    ask: Ask,
    out: &mut [u8],
) -> Result<(Answered, Outcome), OutOfMemory>
    requires ready { IsReadyToAsk state.old.world }
    requires room { tells_bytes ask ≡ true → payload_limit ≤ length out.old }
    ensures runs { RunsAskAt state.old now link ask (told_in result out.new) state.new }
    ensures length { length out.new ≡ length out.old }
{
    moment_in_range(now);
    entry_in_range(now, link, &ask);
    let before = state.latest;
    state.latest = before.later(now);
    match run_ask_now(state, link, ask, out) {
        Ok(answered) => Ok(answered),
        Err(OutOfMemory) => {
            state.latest = before;
            Err(OutOfMemory)
        }
    }
}

/// Answers an ask at the latest moment.
fn run_ask_now<K: Keeper>(
    state: &mut State<K>,
    link: LinkNumber,
    ask: Ask,
    out: &mut [u8],
) -> Result<(Answered, Outcome), OutOfMemory>
    requires ready { IsReadyToAsk state.old.world }
    requires fits { AskFits state.old.world link.0 ask }
    requires room { tells_bytes ask ≡ true → payload_limit ≤ length out.old }
    ensures runs { RunsAsk state.old link.0 ask (told_in result out.new) state.new }
    ensures length { length out.new ≡ length out.old }
{
    match ask {
        Ask::Open { .. } => Ok((open(state)?, Outcome::Done)),
        Ask::Call {
            id,
            write,
            offset,
            payload,
        } => call(
            state,
            link,
            Request {
                id,
                write,
                offset,
                payload,
            },
            out,
        ),
        Ask::Pulse => Ok((pulse(state, link), Outcome::Done)),
        Ask::Bye => Ok((end_at(state, link), Outcome::Done)),
        Ask::Lost => Ok((lose_at(state, link), Outcome::Done)),
        Ask::Drain => Ok((drain(state), Outcome::Done)),
    }
}

/// Opens a session on the next link.
fn open<K: Keeper>(state: &mut State<K>) -> Result<Answered, OutOfMemory>
    requires { IsReadyToAsk state.old.world }
    ensures { RunsOpen state.old result state.new }
{
    match state.sessions.open() {
        Ok(link) => Ok(Answered::Opened { link }),
        Err(SessionFault::Full) => Ok(Answered::Reply {
            code: Code::NoMoreSessions,
            size: 0,
            ends: false,
        }),
        Err(SessionFault::Memory) => Err(OutOfMemory),
    }
}

/// Ends the sessions that lost their links too long ago, and tells whether the link's session lives.
/// Link 0 is no link of a session.
fn pulse<K: Keeper>(state: &mut State<K>, link: LinkNumber) -> Answered
    requires { IsReadyToAsk state.old.world }
    ensures { (out : List ℕ) → RunsAsk state.old link.0 Ask.Pulse (Ok (done (told_of result out))) state.new }
{
    let answered = told_pulse(state, link);
    sweep(state);
    answered
}

/// Ends the sessions that lost their links 600 seconds ago or before.
fn sweep<K: Keeper>(state: &mut State<K>)
    requires { IsReadyToAsk state.old.world }
    ensures { state.new ≡ record state.old { world = without_expired state.old.world } }
{
    while let Some(session) = state.sessions.next_expired(state.latest) {
        state.end(session);
    }
}

/// Whether the link's session lives, and since when the server is about to stop.
fn told_pulse<K: Keeper>(state: &State<K>, link: LinkNumber) -> Answered
    ensures { (out : List ℕ) → told_of result out ≡ told_pulse state.now.world link.0 (session_at state.now.world link.0) }
{
    if link.0 == 0 {
        return Answered::Live { drain: state.drain };
    }
    match state.sessions.by_link(link) {
        Some(_) => Answered::Live { drain: state.drain },
        None => Answered::Displaced,
    }
}

/// Ends the link's session, and closes its forks.
fn end_at<K: Keeper>(state: &mut State<K>, link: LinkNumber) -> Answered
    requires { IsReadyToAsk state.old.world }
    ensures { (out : List ℕ) → RunsAsk state.old link.0 Ask.Bye (Ok (done (told_of result out))) state.new }
{
    match state.sessions.by_link(link) {
        Some(session) => {
            state.end(session);
            Answered::Done
        }
        None => Answered::Displaced,
    }
}

/// The link was lost: its session waits for its client where it has a user, and ends else.
fn lose_at<K: Keeper>(state: &mut State<K>, link: LinkNumber) -> Answered
    requires { IsReadyToAsk state.old.world }
    ensures { (out : List ℕ) → RunsAsk state.old link.0 Ask.Lost (Ok (done (told_of result out))) state.new }
{
    let Some(session) = state.sessions.by_link(link) else {
        return Answered::Displaced;
    };
    if state.sessions.user(session).is_none() {
        state.end(session);
        return Answered::Done;
    }
    state.sessions.detach(session, state.latest);
    Answered::Done
}

/// The server is about to stop: the first such moment counts.
fn drain<K: Keeper>(state: &mut State<K>) -> Answered
    ensures { (link : ℕ) → (out : List ℕ) → RunsAsk state.old link Ask.Drain (Ok (done (told_of result out))) state.new }
{
    if state.drain.is_none() {
        state.drain = Some(state.latest);
    }
    Answered::Done
}
