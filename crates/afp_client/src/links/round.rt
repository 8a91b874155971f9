//! One link: what comes on it until it is left.
ghost use Rattle.std.specs.Prelude.{◌≡◌, ◌+◌, ◌<◌, ◌≤◌, ◌^◌, ◌||◌, true, false, Option, None, ◌≢◌, [], ◌∷◌, ◌++◌, List, ℕ, length, OnOk, OnErr};
ghost use Rattle.dsi_frame.specs.Buffered.{buffer_length};
ghost use Rattle.dsi_frame.specs.Frame.{canonical_frame};
ghost use Rattle.dsi_frame.specs.Stream.{IsUnfinished};
ghost use Rattle.afp_client.specs.links.History.{Happening, allowed, limits_in, is_reply, tickle_frame, close_session_frame, was_quiet};
ghost use Rattle.afp_client.specs.session.State.{Client, IsReady, is_lost, is_opened};
ghost use Rattle.afp_base.specs.declared.code.Code.{Code};
ghost use Rattle.afp_client.specs.links.Coming.{CameOn};
ghost use Rattle.afp_client.specs.links.OnLink.{Start, OnLink, LiveOn, IsTickleDue, spot};
ghost use Rattle.afp_client.specs.links.lemma.Reading.{ReadsMore, TakesAtMost};
ghost use Rattle.afp_client.specs.links.lemma.Coming.{NextOn, RoundOn, LivesOn, LivesNext, LivesRound, OpensOn, OpensNext, OpensRound};

use crate::links::came::{Came, Next, next_of};
use crate::links::noted::Noted;
use crate::links::send::flush;
use crate::session::{ClientCore, Event};
use afp_base::{Bytes, OutOfMemory};
use afp_outside::{Link, ReadResult};
use dsi_frame::{DsiCommand, Header, write_frame};
use dsi_session::Due;

/// Notes a reply to a command.
fn note_reply(opened: bool, event: &Event, noted: &mut Noted)
    ensures { noted.new ≡ record noted.old { replied = is_reply opened event.now || noted.old.replied } }
{
    match event {
        Event::Told { .. } => noted.replied = true,
        Event::Step => noted.replied = opened || noted.replied,
        _ => {}
    }
}

/// What the next event leads to; what it writes is written.
fn next<L: Link>(
    core: &mut ClientCore,
    link: &mut L,
    out: &mut Bytes,
    noted: &mut Noted,
    opening: bool,
) -> Next
    requires live { is_lost core.old.state.stage ≡ false }
    requires unopened { opening ≡ true → is_opened core.old.state.stage ≡ false }
    requires empty { out.old ≡ [] }
    ensures empty { out.new ≡ [] }
    ensures fits { core.new.held.place + length core.new.held.rest ≡ core.old.held.place + length core.old.held.rest }
    ensures opened { result ≡ Next.Comes Came.Opened → opening ≡ true }
    ensures ready { (at : ℕ) (c : Code) (block : List ℕ) → result ≡ Next.Comes (Came.Told at c block) → IsReady core.new.state }
    ensures lives { LivesNext result core.new.state }
    ensures opens { opening ≡ true → OpensNext core.old.state result core.new.state }
    ensures free { result ≡ Next.Reads → length core.new.held.rest < buffer_length }
    ensures unfinished { result ≡ Next.Reads → IsUnfinished core.new.held.rest }
    ensures less { result ≡ Next.Goes → length core.new.held.rest < length core.old.held.rest }
    ensures next { (start : Start) (turns : ℕ) (all : List Happening) (cost : ℕ) → LiveOn start all (spot core.old [] (L.link_state link.old) noted.old cost)
        → NextOn start turns all result core.new (L.link_state link.new) noted.new cost }
{
    let opened = core.opened();
    let at = core.place();
    let event = core.event(out);
    note_reply(opened, &event, noted);
    if flush(link, out, noted) {
        next_of(opening, at, event)
    } else {
        Next::Comes(Came::Broke)
    }
}

/// Takes what has come, one event after the other: what the link is left for, where it is.
fn take_events<L: Link>(
    core: &mut ClientCore,
    link: &mut L,
    out: &mut Bytes,
    noted: &mut Noted,
    opening: bool,
) -> Option<Came>
    requires live { is_lost core.old.state.stage ≡ false }
    requires unopened { opening ≡ true → is_opened core.old.state.stage ≡ false }
    requires empty { out.old ≡ [] }
    ensures empty { out.new ≡ [] }
    ensures fits { core.new.held.place + length core.new.held.rest ≡ core.old.held.place + length core.old.held.rest }
    ensures opened { result ≡ Some Came.Opened → opening ≡ true }
    ensures ready { (at : ℕ) (c : Code) (block : List ℕ) → result ≡ Some (Came.Told at c block) → IsReady core.new.state }
    ensures lives { LivesRound result core.new.state }
    ensures opens { opening ≡ true → OpensRound core.old.state result core.new.state }
    ensures free { result ≡ None → length core.new.held.rest < buffer_length }
    ensures unfinished { result ≡ None → IsUnfinished core.new.held.rest }
    ensures comes { (start : Start) (turns : ℕ) (all : List Happening) (cost : ℕ) → LiveOn start all (spot core.old [] (L.link_state link.old) noted.old cost)
        → RoundOn start turns all result core.new (L.link_state link.new) noted.new cost }
{
    loop {
        match next(core, link, out, noted, opening) {
            Next::Goes => {}
            Next::Reads => return None,
            Next::Comes(came) => return Some(came),
        }
    }
}

/// Reads once, no more than there is room for, and holds what came.
fn read_more<L: Link>(core: &mut ClientCore, link: &mut L, room: &mut [u8]) -> ReadResult
    requires some { 0 < length room.old }
    requires free { length core.old.held.rest < buffer_length }
    requires fits { core.old.held.place + length core.old.held.rest + length room.old < 2 ^ 64 }
    ensures reads { ReadsMore core.old (L.link_state link.old) result core.new (L.link_state link.new) }
    ensures most { TakesAtMost result (length room.old) }
{
    let size = core.room().min(room.len());
    let gave = link.read(&mut room[..size]);
    if let ReadResult::Got(n) = gave {
        core.feed(&room[..n]);
    }
    gave
}

/// Appends a Tickle. An error changes nothing.
fn put_tickle(out: &mut Bytes) -> Result<(), OutOfMemory>
    ensures ok { OnOk result (out.new ≡ out.old ++ canonical_frame tickle_frame) }
    ensures err { OnErr result (out.new ≡ out.old) }
{
    let header = Header {
        reply: false,
        command: DsiCommand::Tickle,
        id: 0,
        word: 0,
        length: 0,
    };
    write_frame(&header, &[], out)
}

/// Appends a CloseSession. An error changes nothing.
pub(crate) fn put_close(out: &mut Bytes) -> Result<(), OutOfMemory>
    ensures ok { OnOk result (out.new ≡ out.old ++ canonical_frame close_session_frame) }
    ensures err { OnErr result (out.new ≡ out.old) }
{
    let header = Header {
        reply: false,
        command: DsiCommand::CloseSession,
        id: 0,
        word: 0,
        length: 0,
    };
    write_frame(&header, &[], out)
}

/// Writes a Tickle, which is due.
fn tickle<L: Link>(link: &mut L, out: &mut Bytes, noted: &mut Noted) -> Option<Came>
    requires empty { out.old ≡ [] }
    ensures empty { out.new ≡ [] }
    ensures opened { result ≢ Some Came.Opened }
    ensures told { (at : ℕ) (c : Code) (block : List ℕ) → result ≢ Some (Came.Told at c block) }
    ensures comes { (start : Start) (turns : ℕ) (all : List Happening) (c : Client) (cost : ℕ) → (on : OnLink start all (spot c [] (L.link_state link.old) noted.old cost)) → IsTickleDue on.began all
        → RoundOn start turns all result c (L.link_state link.new) noted.new cost }
{
    let Ok(()) = put_tickle(out) else {
        return Some(Came::Memory);
    };
    if flush(link, out, noted) {
        None
    } else {
        Some(Came::Broke)
    }
}

/// A quiet: a Tickle is written where it is due, and a link that is silent broke.
fn idle<L: Link>(link: &mut L, out: &mut Bytes, noted: &mut Noted) -> Option<Came>
    requires empty { out.old ≡ [] }
    ensures empty { out.new ≡ [] }
    ensures opened { result ≢ Some Came.Opened }
    ensures told { (at : ℕ) (c : Code) (block : List ℕ) → result ≢ Some (Came.Told at c block) }
    ensures comes { (start : Start) (turns : ℕ) (before : Option (List ℕ)) (all : List Happening) (c : Client) (cost : ℕ)
        → OnLink start (was_quiet before (L.link_state link.old).now ∷ all) (spot c [] (L.link_state link.old) noted.old cost)
        → RoundOn start turns (was_quiet before (L.link_state link.old).now ∷ all) result c (L.link_state link.new) noted.new cost }
{
    noted.pulse.note_read(link.last_read());
    match noted.pulse.due(link.now()) {
        Due::Nothing => None,
        Due::Tickle => tickle(link, out, noted),
        Due::Silent => Some(Came::Broke),
    }
}

/// Reads once, and answers a quiet: what the link is left for, where it is.
fn read_round<L: Link>(
    core: &mut ClientCore,
    link: &mut L,
    out: &mut Bytes,
    noted: &mut Noted,
    room: &mut [u8],
    cost: &mut u64,
) -> Option<Came>
    requires empty { out.old ≡ [] }
    requires some { 0 < length room.old }
    requires small { length room.old < 2 ^ 20 }
    requires free { length core.old.held.rest < buffer_length }
    requires unfinished { IsUnfinished core.old.held.rest }
    requires fits { core.old.held.place + length core.old.held.rest ≤ cost.old }
    requires below { cost.old < 2 ^ 63 }
    ensures empty { out.new ≡ [] }
    ensures fits { core.new.held.place + length core.new.held.rest ≤ cost.new }
    ensures rises { cost.old ≤ cost.new }
    ensures grows { result ≡ None → cost.old < cost.new }
    ensures opened { result ≢ Some Came.Opened }
    ensures told { (at : ℕ) (c : Code) (block : List ℕ) → result ≢ Some (Came.Told at c block) }
    ensures state { core.new.state ≡ core.old.state }
    ensures comes { (start : Start) (turns : ℕ) (all : List Happening) → cost.old < allowed (limits_in start.limits all)
        → LiveOn start all (spot core.old [] (L.link_state link.old) noted.old cost.old)
        → RoundOn start turns all result core.new (L.link_state link.new) noted.new cost.new }
{
    match read_more(core, link, room) {
        ReadResult::Got(n) => {
            *cost += n as u64;
            None
        }
        ReadResult::Quiet => {
            *cost += 1;
            idle(link, out, noted)
        }
        ReadResult::End => Some(Came::Broke),
        ReadResult::Failed => Some(Came::Broke),
    }
}

/// Takes what comes on a link, until it is left.
fn await_on<L: Link>(
    core: &mut ClientCore,
    link: &mut L,
    out: &mut Bytes,
    noted: &mut Noted,
    room: &mut [u8],
    opening: bool,
    turns: u64,
    cost: &mut u64,
) -> Came
    requires empty { out.old ≡ [] }
    requires live { is_lost core.old.state.stage ≡ false }
    requires unopened { opening ≡ true → is_opened core.old.state.stage ≡ false }
    requires some { 0 < length room.old }
    requires small { length room.old < 2 ^ 20 }
    requires fits { core.old.held.place + length core.old.held.rest ≤ cost.old }
    requires turns { turns < 2 ^ 63 }
    ensures empty { out.new ≡ [] }
    ensures fits { core.new.held.place + length core.new.held.rest ≤ cost.new }
    ensures rises { cost.old ≤ cost.new }
    ensures opened { result ≡ Came.Opened → opening ≡ true }
    ensures ready { (at : ℕ) (c : Code) (block : List ℕ) → result ≡ Came.Told at c block → IsReady core.new.state }
    ensures lives { LivesOn result core.new.state }
    ensures opens { opening ≡ true → OpensOn core.old.state result core.new.state }
    ensures comes { (start : Start) (all : List Happening) → turns ≡ allowed (limits_in start.limits all) → LiveOn start all (spot core.old [] (L.link_state link.old) noted.old cost.old)
        → CameOn start turns all result core.new (L.link_state link.new) noted.new cost.new }
{
    loop {
        if let Some(came) = take_events(core, link, out, noted, opening) {
            return came;
        }
        if *cost >= turns {
            return Came::Spent;
        }
        if let Some(came) = read_round(core, link, out, noted, room, cost) {
            return came;
        }
    }
}

/// Writes what is to be written, and then takes what comes on a link, until it is left.
pub(crate) fn await_sent<L: Link>(
    core: &mut ClientCore,
    link: &mut L,
    out: &mut Bytes,
    noted: &mut Noted,
    room: &mut [u8],
    opening: bool,
    turns: u64,
    cost: &mut u64,
) -> Came
    requires live { is_lost core.old.state.stage ≡ false }
    requires unopened { opening ≡ true → is_opened core.old.state.stage ≡ false }
    requires some { 0 < length room.old }
    requires small { length room.old < 2 ^ 20 }
    requires fits { core.old.held.place + length core.old.held.rest ≤ cost.old }
    requires turns { turns < 2 ^ 63 }
    ensures empty { out.new ≡ [] }
    ensures fits { core.new.held.place + length core.new.held.rest ≤ cost.new }
    ensures rises { cost.old ≤ cost.new }
    ensures opened { result ≡ Came.Opened → opening ≡ true }
    ensures ready { (at : ℕ) (c : Code) (block : List ℕ) → result ≡ Came.Told at c block → IsReady core.new.state }
    ensures lives { LivesOn result core.new.state }
    ensures opens { opening ≡ true → OpensOn core.old.state result core.new.state }
    ensures comes { (start : Start) (all : List Happening) → turns ≡ allowed (limits_in start.limits all) → LiveOn start all (spot core.old out.old (L.link_state link.old) noted.old cost.old)
        → CameOn start turns all result core.new (L.link_state link.new) noted.new cost.new }
{
    if flush(link, out, noted) {
        await_on(core, link, out, noted, room, opening, turns, cost)
    } else {
        Came::Broke
    }
}
