//! Serving one link.
ghost use Rattle.std.specs.Prelude.{◌≡◌, ◌⊎◌, ◌+◌, ◌<◌, ◌^◌, List, [], length, false, IfOk};
ghost use Rattle.dsi_frame.specs.Buffered.{buffer_length};
ghost use Rattle.dsi_frame.specs.Filling.{ReadsMore, TakesAtMost};
ghost use Rattle.afp_serial.specs.StatusBlock.{status_block};
ghost use Rattle.afp_serial.specs.Went.{Step, Went};
ghost use Rattle.afp_server.specs.link.LinkRun.{IsRun, IsServed};
ghost use Rattle.afp_outside.specs.ends.Gate.{none_passed};
ghost use Rattle.afp_server.specs.link.Passing.{Passes};
ghost use Rattle.afp_server.specs.link.Progress.{Ended};

use crate::link::frames::serve_frames;
use crate::link::idle::idle;
use crate::link::requests::LinkRequests;
use crate::link::session::LinkSession;
use crate::link::stage::Stage;
use afp_base::{Moment, OutOfMemory};
use afp_outside::{Gate, Link, ReadResult};
use afp_serial::{House, Teller};
use dsi_frame::{BadFrame, Deframer};
use std::alloc::Global;
use std::marker::Model;

/// The most bytes that one read takes.
pub const READ_SIZE: usize = 16_384;

/// Why a link ended.
#[derive(Clone, Copy, Debug, PartialEq, Eq)]
pub enum LinkEnd {
    /// The client closed its session, or a call ended it.
    Closed,
    /// The peer wrote whole frames, and no more.
    Ended,
    /// The peer's bytes ended within the frame that begins at this place, in bytes from the link's first.
    Cut { at: u64 },
    /// A frame has a bad header, or may not come where it came.
    Bad(BadFrame),
    /// The last byte of the peer was read 120 seconds or more before now.
    Silent { last: Moment, now: Moment },
    /// The session has another link.
    Displaced,
    /// The server is about to stop: the moment of its drain lies 60 seconds or more before now.
    Drained,
    /// A read failed.
    ReadFault,
    /// A write failed.
    WriteFault,
    /// The bytes taken and the quiets have reached the limit.
    Spent,
    /// There was no memory.
    Memory,
}

/// The room that a link takes before its first read: for the frames that come, and for one reply.
///
/// Contracts see the status block of its server.
#[derive(Drop)]
pub struct LinkRoom {
    deframer: Deframer,
    session: LinkSession,
}

impl Model for LinkRoom {
    ghost use Rattle.std.specs.Prelude.{◌≡◌, ℕ, List, []};
    ghost use Rattle.afp_server.specs.declared.link.stage.Stage.TheVariants as stages;

    ghost Value = { List ℕ };

    ghost view = { λ r. r.session.block };

    ghost invariant = { λ r. (r.deframer ≡ record { place = 0; rest = [] }) × (r.session.stage ≡ stages.Fresh) };
}

impl LinkRoom {
    /// Takes the room.
    pub fn new(alloc: Global, house: &House) -> Result<LinkRoom, OutOfMemory>
        ensures { IfOk result (λ room. room ≡ status_block house.now) }
    {
        Ok(LinkRoom {
            deframer: Deframer::new(alloc)?,
            session: LinkSession::new(alloc, house)?,
        })
    }

    /// Serves a link until it ends. Each frame is handled, and its reply written, before the next one; it reads
    /// again only where all frames that came were handled, and while the bytes taken and the quiets are fewer than
    /// `turns`. A quiet on an open session asks Pulse. It writes an Attention where a drain is told for the first time,
    /// and else a Tickle where nothing was written for 30 seconds; 60 seconds after the drain's moment it asks Bye, and
    /// the link ends `Drained`. `Memory` comes here only where there is none for a copy of a call, which then was not
    /// asked.
    pub fn serve<L: Link, T: Teller, G: Gate>(
        self,
        link: &mut L,
        teller: &mut T,
        gate: &G,
        turns: u64,
    ) -> LinkEnd
        requires open { (L.link_state link.old).ended ≡ false }
        requires turns { turns < 2 ^ 63 }
        ensures fixed { T.fixed teller.new ≡ T.fixed teller.old }
        ensures serves { (steps : List Step) × IsServed self turns (L.link_state link.old) result (L.link_state link.new) steps
            × Went (T.shown teller.old) steps (T.shown teller.new) × Passes G.passed result steps }
    {
        let LinkRoom {
            mut deframer,
            mut session,
        } = self;
        let mut log = gate.log();
        let end = serve_session(
            &mut deframer,
            &mut session,
            link,
            teller,
            gate,
            &mut log,
            turns,
        );
        session.lose(link.now(), teller);
        end
    }
}

/// Serves a link until it ends, as `LinkRoom::serve` does, with room that is taken here.
pub fn serve_link<L: Link, T: Teller, G: Gate>(
    alloc: Global,
    house: &House,
    link: &mut L,
    teller: &mut T,
    gate: &G,
    turns: u64,
) -> LinkEnd
    requires open { (L.link_state link.old).ended ≡ false }
    requires turns { turns < 2 ^ 63 }
    ensures fixed { T.fixed teller.new ≡ T.fixed teller.old }
    ensures runs { (steps : List Step) × IsRun house.now turns (L.link_state link.old) result (L.link_state link.new) steps
        × Went (T.shown teller.old) steps (T.shown teller.new) × ((steps ≡ []) ⊎ Passes G.passed result steps) }
{
    match LinkRoom::new(alloc, house) {
        Ok(room) => room.serve(link, teller, gate, turns),
        Err(_) => LinkEnd::Memory,
    }
}

/// Reads once, no more than there is room for, and buffers what came.
fn read_more<L: Link>(link: &mut L, deframer: &mut Deframer) -> ReadResult
    requires free { length deframer.old.rest < buffer_length }
    requires fits { deframer.old.place + length deframer.old.rest + READ_SIZE < 2 ^ 64 }
    ensures reads { ReadsMore deframer.old (L.link_state link.old) result deframer.new (L.link_state link.new) }
    ensures most { TakesAtMost result READ_SIZE }
{
    deframer.read_from(link, READ_SIZE)
}

/// Why a link ended whose peer writes no more.
pub fn end_of(deframer: &Deframer) -> LinkEnd
    ensures whole { deframer.now.rest ≡ [] → result ≡ LinkEnd.Ended }
    ensures cut { 0 < length deframer.now.rest → result ≡ LinkEnd.Cut deframer.now.place }
{
    if deframer.rest() == 0 {
        LinkEnd::Ended
    } else {
        LinkEnd::Cut {
            at: deframer.place(),
        }
    }
}

/// Serves a link until it ends, and asks nothing at its end.
fn serve_session<L: Link, T: Teller, G: Gate>(
    deframer: &mut Deframer,
    session: &mut LinkSession,
    link: &mut L,
    teller: &mut T,
    gate: &G,
    log: &mut G::Log,
    turns: u64,
) -> LinkEnd
    requires nothing { G.passed log.old ≡ none_passed }
    requires empty { deframer.old ≡ record { place = 0; rest = [] } }
    requires fresh { session.old.stage ≡ Stage.Fresh }
    requires turns { turns < 2 ^ 63 }
    ensures fixed { T.fixed teller.new ≡ T.fixed teller.old }
    ensures serves { Ended (record { block = session.old.block; turns = turns; link = L.link_state link.old; shown = T.shown teller.old })
        result session.new.stage (L.link_state link.new) (T.shown teller.new) (G.passed log.new) }
{
    let mut requests = LinkRequests::new(link.now());
    let mut cost: u64 = 0;
    loop {
        if let Some(end) = serve_frames(deframer, session, &mut requests, link, teller, gate, log) {
            return end;
        }
        if cost >= turns {
            return LinkEnd::Spent;
        }
        match read_more(link, deframer) {
            ReadResult::Got(n) => cost += n as u64,
            ReadResult::Quiet => {
                cost += 1;
                if let Some(end) = idle(session, &mut requests, link, teller) {
                    return end;
                }
            }
            ReadResult::End => return end_of(deframer),
            ReadResult::Failed => return LinkEnd::ReadFault,
        }
    }
}
