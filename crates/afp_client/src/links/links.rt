//! Links over a dialer.
ghost use Rattle.std.specs.Prelude.{◌≡◌, ◌+◌, ◌<◌, ◌≤◌, ◌^◌, true, false, OnOk, OnErr, IfOk, IsTrue, ◌↔◌, ◌≢◌, IfSome, Option, Some, None, [], ◌∷◌, ◌++◌, List, ℕ, Result, length, if◌then◌else◌};
ghost use Rattle.afp_base.specs.Limits.{payload_limit};
ghost use Rattle.afp_base.specs.declared.code.Code.{Code};
ghost use Rattle.afp_calls_grammar.specs.grammar.Call.{IsSpellable, canonical_call, canonical_piece};
ghost use Rattle.afp_client.specs.session.State.{Client, IsReady, is_lost, is_opened, is_of_opening};
ghost use Rattle.afp_client.specs.session.Takes.{begun, broken};
ghost use Rattle.afp_outside.specs.ends.Dialer.{DialerState, TakesBack};
ghost use Rattle.afp_client.specs.links.History.{Happening, allowed};
ghost use Rattle.afp_client.specs.links.OnLink.{Start, spot};
ghost use Rattle.afp_client.specs.declared.links.noted.Noted.{Noted};
ghost use Rattle.afp_client.specs.links.Links.{Part, Between, Over, all_limits, limits_of};
ghost use Rattle.afp_client.specs.links.lemma.Coming.{OpensOn};
ghost use Rattle.afp_client.specs.links.lemma.Rejoining.{Dialled, Rejoins, Leaves};
ghost use Rattle.afp_client.specs.links.Talk.{end_of, Answers, Connects, OpensLeft, TellsLeft, ClosesTalk, LeavesOpen};

use crate::links::came::Came;
use crate::links::noted::Noted;
use crate::links::round::{await_sent, put_close};
use crate::links::send::flush;
use crate::session::ClientCore;
use afp_base::{Bytes, Code, OutOfMemory};
use afp_calls_grammar::Call;
use afp_outside::{DialFault, Dialer, Link};
use dsi_session::Pulse;

/// How many links in a row may break without a reply to a command.
const MOST_FRUITLESS: u64 = 8;

/// Why a client's links end.
#[derive(Clone, Copy, Debug, PartialEq, Eq)]
pub enum TalkEnd {
    /// An opening was refused.
    Refused { code: Code },
    /// The session is lost.
    Lost { code: Code },
    /// The frame at this place of its link is none that may come.
    Bad { at: u64 },
    /// Eight links in a row broke, and no command got a reply on them.
    Broken,
    /// No link was dialled.
    DialFault,
    /// The limit is reached.
    Spent,
    /// There was no memory.
    Memory,
}

/// A link broke: it is handed back, and the client has none.
fn break_link<D: Dialer>(
    core: &mut ClientCore,
    dialer: &mut D,
    link: D::Link,
    replied: bool,
    idle: &mut u64,
)
    requires { idle.old < 8 }
    ensures core { core.new ≡ record { state = broken core.old.state; held = record { place = 0; rest = [] } } }
    ensures idle { idle.new ≡ (if replied then 0 else (idle.old + 1)) }
    ensures back { TakesBack (D.dialer_state dialer.old) link (D.dialer_state dialer.new) }
{
    core.broke();
    if replied {
        *idle = 0;
    } else {
        *idle += 1;
    }
    dialer.back(link);
}

/// Dials the next link, where that may be.
fn dial_next<D: Dialer>(
    dialer: &mut D,
    idle: u64,
    turns: u64,
    cost: &mut u64,
) -> Result<D::Link, TalkEnd>
    requires { turns < 2 ^ 63 }
    ensures dials { Dialled D.Link.link_state idle turns cost.old (D.dialer_state dialer.old) result cost.new (D.dialer_state dialer.new) }
{
    if idle >= MOST_FRUITLESS {
        return Err(TalkEnd::Broken);
    }
    if *cost >= turns {
        return Err(TalkEnd::Spent);
    }
    match dialer.dial() {
        Ok(link) => {
            *cost += 1;
            Ok(link)
        }
        Err(DialFault::Failed) => Err(TalkEnd::DialFault),
        Err(DialFault::Memory) => Err(TalkEnd::Memory),
    }
}

/// The next link is dialled and begun, where that may be: its OpenSession is to be written.
fn rejoin<D: Dialer>(
    core: &mut ClientCore,
    dialer: &mut D,
    out: &mut Bytes,
    noted: &mut Noted,
    idle: u64,
    turns: u64,
    cost: &mut u64,
) -> Result<D::Link, TalkEnd>
    requires empty { out.old ≡ [] }
    requires turns { turns < 2 ^ 63 }
    ensures held { OnOk result (core.new.held ≡ record { place = 0; rest = [] }) }
    ensures below { OnOk result (idle < 8) }
    ensures grows { OnOk result ((cost.new ≡ cost.old + 1) × (cost.old < turns)) }
    ensures begins { OnOk result (core.new.state ≡ begun core.old.state) }
    ensures rejoins { (first : Start) (old : DialerState D.Link) (past : List (Part D.Link)) → turns ≡ allowed (limits_of first.limits past) → Between D.Link.link_state first old past core.old idle cost.old (D.dialer_state dialer.old)
        → Rejoins D.Link.link_state turns first old past result core.new out.new noted.new idle cost.new (D.dialer_state dialer.new) }
{
    match dial_next(dialer, idle, turns, cost) {
        Err(end) => Err(end),
        Ok(link) => match core.start(out) {
            Ok(()) => {
                *noted = Noted {
                    pulse: Pulse::new(link.now()),
                    replied: false,
                };
                Ok(link)
            }
            Err(_) => {
                dialer.back(link);
                Err(TalkEnd::Memory)
            }
        },
    }
}

/// A link that is left for something.
#[derive(Drop)]
pub(crate) struct Left<L> {
    pub(crate) link: L,
    pub(crate) came: Came,
}

/// Takes what comes over links, one after the other, until one is left for something, or none is dialled any more.
fn await_links<D: Dialer>(
    core: &mut ClientCore,
    dialer: &mut D,
    link: D::Link,
    out: &mut Bytes,
    noted: &mut Noted,
    room: &mut [u8],
    opening: bool,
    idle: &mut u64,
    turns: u64,
    cost: &mut u64,
) -> Result<Left<D::Link>, TalkEnd>
    requires live { is_lost core.old.state.stage ≡ false }
    requires unopened { opening ≡ true → is_opened core.old.state.stage ≡ false }
    requires some { 0 < length room.old }
    requires small { length room.old < 2 ^ 20 }
    requires below { idle.old < 8 }
    requires fits { core.old.held.place + length core.old.held.rest ≤ cost.old }
    requires turns { turns < 2 ^ 63 }
    ensures empty { OnOk result (out.new ≡ []) }
    ensures below { OnOk result (idle.new < 8) }
    ensures opened { IfOk result (λ left. left.came ≡ Came.Opened → opening ≡ true) }
    ensures whole { IfOk result (λ left. left.came ≢ Came.Broke) }
    ensures ready { IfOk result (λ left. (at : ℕ) (c : Code) (block : List ℕ) → left.came ≡ Came.Told at c block → IsReady core.new.state) }
    ensures fits { OnOk result (core.new.held.place + length core.new.held.rest ≤ cost.new) }
    ensures opens { opening ≡ true → IfOk result (λ left. OpensOn core.old.state left.came core.new.state) }
    ensures leaves { (first : Start) (old : DialerState D.Link) (past : List (Part D.Link)) (all : List Happening) → turns ≡ allowed (all_limits first.limits past all)
        → Over D.Link.link_state first old past all (spot core.old out.old (D.Link.link_state link) noted.old cost.old) idle.old (D.dialer_state dialer.old)
        → Leaves D.Link.link_state turns first old past all result core.new noted.new idle.new cost.new (D.dialer_state dialer.new) }
{
    let mut link = link;
    loop {
        let came = await_sent(core, &mut link, out, noted, room, opening, turns, cost);
        if !is_break(&came) {
            return Ok(Left { link, came });
        }
        break_link(core, dialer, link, noted.replied, idle);
        match rejoin(core, dialer, out, noted, *idle, turns, cost) {
            Ok(next) => link = next,
            Err(end) => return Err(end),
        }
    }
}

/// Whether the link broke.
fn is_break(came: &Came) -> bool
    ensures { IsTrue result ↔ came.now ≡ Came.Broke }
{
    match came {
        Came::Broke => true,
        _ => false,
    }
}

/// A link that was left for an end is handed back.
fn end_on<D: Dialer>(dialer: &mut D, link: D::Link, came: &Came) -> TalkEnd
    ensures end { IfSome (end_of came.now) (λ end. result ≡ end) }
    ensures back { TakesBack (D.dialer_state dialer.old) link (D.dialer_state dialer.new) }
{
    dialer.back(link);
    match came {
        Came::Refused { code } => TalkEnd::Refused { code: *code },
        Came::Lost { code } => TalkEnd::Lost { code: *code },
        Came::Bad { at } => TalkEnd::Bad { at: *at },
        Came::Spent => TalkEnd::Spent,
        _ => TalkEnd::Memory,
    }
}

/// A call's result, and the link on which it came.
#[derive(Drop)]
pub(crate) struct Answered<L> {
    pub(crate) link: L,
    pub(crate) at: u64,
    pub(crate) code: Code,
    pub(crate) block: Bytes,
}

/// A link that was left, as what a call is told.
fn told_on<D: Dialer>(dialer: &mut D, left: Left<D::Link>) -> Result<Answered<D::Link>, TalkEnd>
    requires opened { left.came ≢ Came.Opened }
    requires whole { left.came ≢ Came.Broke }
    ensures { TellsLeft (D.dialer_state dialer.old) left.link left.came result (D.dialer_state dialer.new) }
{
    let Left { link, came } = left;
    match came {
        Came::Told { at, code, block } => Ok(Answered {
            link,
            at,
            code,
            block,
        }),
        other => Err(end_on(dialer, link, &other)),
    }
}

/// Asks a call, and waits for its result over links. Where there is none the links end, and all are handed back.
pub(crate) fn ask_over<D: Dialer>(
    core: &mut ClientCore,
    dialer: &mut D,
    link: D::Link,
    call: &Call,
    out: &mut Bytes,
    noted: &mut Noted,
    room: &mut [u8],
    idle: &mut u64,
    turns: u64,
    cost: &mut u64,
) -> Result<Answered<D::Link>, TalkEnd>
    requires empty { out.old ≡ [] }
    requires ready { IsReady core.old.state }
    requires command { is_of_opening call.now ≡ false }
    requires spellable { IsSpellable call.now }
    requires size { length (canonical_call call.now) + length (canonical_piece call.now) ≤ payload_limit }
    requires some { 0 < length room.old }
    requires small { length room.old < 2 ^ 20 }
    requires below { idle.old < 8 }
    requires fits { core.old.held.place + length core.old.held.rest ≤ cost.old }
    requires turns { turns < 2 ^ 63 }
    ensures empty { OnOk result (out.new ≡ []) }
    ensures below { OnOk result (idle.new < 8) }
    ensures fits { OnOk result (core.new.held.place + length core.new.held.rest ≤ cost.new) }
    ensures ready { OnOk result (IsReady core.new.state) }
    ensures answers { (first : Start) (old : DialerState D.Link) (past : List (Part D.Link)) (all : List Happening) → turns ≡ allowed (all_limits first.limits past all)
        → Over D.Link.link_state first old past all (spot core.old [] (D.Link.link_state link) noted.old cost.old) idle.old (D.dialer_state dialer.old)
        → Answers D.Link.link_state turns first old past all core.old.state call.now result core.new noted.new idle.new cost.new (D.dialer_state dialer.new) }
{
    match core.ask(call, out) {
        Err(_) => {
            dialer.back(link);
            Err(TalkEnd::Memory)
        }
        Ok(()) => match await_links(
            core, dialer, link, out, noted, room, false, idle, turns, cost,
        ) {
            Ok(left) => told_on(dialer, left),
            Err(end) => Err(end),
        },
    }
}

/// A link that was left, for whoever waits for an opening.
fn opened_on<D: Dialer>(dialer: &mut D, left: Left<D::Link>) -> Result<D::Link, TalkEnd>
    requires untold { (at : ℕ) (c : Code) (block : List ℕ) → left.came ≢ Came.Told at c block }
    requires whole { left.came ≢ Came.Broke }
    ensures { OpensLeft (D.dialer_state dialer.old) left.link left.came result (D.dialer_state dialer.new) }
{
    let Left { link, came } = left;
    match came {
        Came::Opened => Ok(link),
        other => Err(end_on(dialer, link, &other)),
    }
}

/// Dials a link and opens it, over as many links as break. Where none is opened the links end, and all are handed back.
pub(crate) fn connect<D: Dialer>(
    core: &mut ClientCore,
    dialer: &mut D,
    out: &mut Bytes,
    noted: &mut Noted,
    room: &mut [u8],
    idle: &mut u64,
    turns: u64,
    cost: &mut u64,
) -> Result<D::Link, TalkEnd>
    requires live { is_lost core.old.state.stage ≡ false }
    requires empty { out.old ≡ [] }
    requires some { 0 < length room.old }
    requires small { length room.old < 2 ^ 20 }
    requires turns { turns < 2 ^ 63 }
    ensures empty { OnOk result (out.new ≡ []) }
    ensures below { OnOk result (idle.new < 8) }
    ensures fits { OnOk result (core.new.held.place + length core.new.held.rest ≤ cost.new) }
    ensures ready { OnOk result (core.old.state.waiting ≡ None → IsReady core.new.state) }
    ensures connects { (first : Start) (old : DialerState D.Link) (past : List (Part D.Link)) → turns ≡ allowed (limits_of first.limits past)
        → Between D.Link.link_state first old past core.old idle.old cost.old (D.dialer_state dialer.old)
        → Connects D.Link.link_state turns first old past result core.new noted.new idle.new cost.new (D.dialer_state dialer.new) }
{
    match rejoin(core, dialer, out, noted, *idle, turns, cost) {
        Err(end) => Err(end),
        Ok(link) => match await_links(
            core, dialer, link, out, noted, room, true, idle, turns, cost,
        ) {
            Ok(left) => opened_on(dialer, left),
            Err(end) => Err(end),
        },
    }
}

/// Ends a session: CloseSession is written, whatever becomes of the write, and the link is handed back. An error writes nothing.
pub(crate) fn close_over<D: Dialer>(
    dialer: &mut D,
    link: D::Link,
    out: &mut Bytes,
    noted: &mut Noted,
) -> Result<(), OutOfMemory>
    requires empty { out.old ≡ [] }
    ensures closes { (first : Start) (old : DialerState D.Link) (past : List (Part D.Link)) (all : List Happening) (c : Client) (noted : Noted) (idle cost : ℕ)
        → Over D.Link.link_state first old past all (spot c [] (D.Link.link_state link) noted cost) idle (D.dialer_state dialer.old)
        → ClosesTalk D.Link.link_state first old past all result (D.dialer_state dialer.new) }
{
    let Ok(()) = put_close(out) else {
        dialer.back(link);
        return Err(OutOfMemory);
    };
    let mut link = link;
    flush(&mut link, out, noted);
    dialer.back(link);
    Ok(())
}

/// Leaves a link: nothing is written, and it is handed back.
pub(crate) fn leave_over<D: Dialer>(dialer: &mut D, link: D::Link)
    ensures leaves { (first : Start) (old : DialerState D.Link) (past : List (Part D.Link)) (all : List Happening) (c : Client) (noted : Noted) (idle cost : ℕ)
        → Over D.Link.link_state first old past all (spot c [] (D.Link.link_state link) noted cost) idle (D.dialer_state dialer.old)
        → LeavesOpen D.Link.link_state first old past all (D.dialer_state dialer.new) }
{
    dialer.back(link);
}
