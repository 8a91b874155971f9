//! A client that talks over a dialer.
ghost use Rattle.std.specs.Prelude.{◌≡◌, ◌+◌, ◌<◌, ◌≤◌, ◌^◌, Bool, true, false, Some, None, IsSome, IsTrue, ◌↔◌, [], ◌∷◌, List, ℕ, length, IfOk, OnOk};
ghost use Rattle.afp_base.specs.Limits.{payload_limit};
ghost use Rattle.afp_calls_grammar.specs.grammar.Call.{IsSpellable, canonical_call, canonical_piece};
ghost use Rattle.afp_client.specs.session.State.{IsReady, is_lost, is_of_opening};
ghost use Rattle.afp_outside.specs.ends.Dialer.{DialerState};
ghost use Rattle.afp_client.specs.links.History.{Happening, allowed, limited};
ghost use Rattle.afp_client.specs.links.OnLink.{Start, spot};
ghost use Rattle.afp_client.specs.links.Links.{Part, Over, all_limits, limits_of};
ghost use Rattle.afp_client.specs.links.Talk.{AsksTalk, ClosesTalk, LeavesOpen, OpensTalk, TalkAt};

use crate::links::links::{Answered, TalkEnd, ask_over, close_over, connect, leave_over};
use crate::links::noted::Noted;
use crate::session::ClientCore;
use afp_base::{Bytes, Code, Moment, OutOfMemory};
use afp_calls_grammar::Call;
use afp_outside::Dialer;
use dsi_session::Pulse;

/// A client's core, who dials its links, and the link that it has.
#[derive(Drop)]
pub struct Talk<D: Dialer> {
    core: ClientCore,
    dialer: D,
    link: Option<D::Link>,
    out: Bytes,
    noted: Noted,
    room: Vec<u8>,
    idle: u64,
    turns: u64,
    cost: u64,
}

/// A limit: so much may be spent in all, set where so much was spent.
#[derive(Clone, Copy, Debug, Drop)]
pub struct Limit {
    pub turns: u64,
    pub spent: u64,
}

/// What a call was told.
#[derive(Debug, Drop)]
pub struct Told {
    /// The place on its link of the frame that told it.
    pub at: u64,
    pub code: Code,
    pub block: Bytes,
}

impl<D: Dialer> Talk<D> {
    /// A client without a link. Each read takes at most what `room` holds.
    pub fn new(
        core: ClientCore,
        dialer: D,
        room: Vec<u8>,
        out: Bytes,
        now: Moment,
        turns: u64,
    ) -> Talk<D>
        ensures stands { TalkAt D.Link.link_state (record { state = core.state; spent = 0; idle = 0; limits = (record { turns = turns; spent = 0 }) ∷ [] }) (D.dialer_state dialer) [] [] result.link result.core result.noted result.idle result.cost (D.dialer_state result.dialer) }
        ensures link { result.link ≡ None }
        ensures core { result.core ≡ core }
        ensures idle { result.idle ≡ 0 }
        ensures cost { result.cost ≡ 0 }
        ensures out { result.out ≡ out }
        ensures turns { result.turns ≡ turns }
        ensures room { length result.room.items ≡ length room.items }
    {
        Talk {
            core,
            dialer,
            link: None,
            out,
            noted: Noted {
                pulse: Pulse::new(now),
                replied: false,
            },
            room,
            idle: 0,
            turns,
            cost: 0,
        }
    }

    /// Who dials its links.
    pub fn dialer(&self) -> &D {
        &self.dialer
    }

    /// Dials a link and opens it, where it has none.
    pub fn open(&mut self) -> Result<(), TalkEnd>
        requires live { is_lost self.old.core.state.stage ≡ false }
        requires idle { self.old.core.state.waiting ≡ None }
        requires unlinked { self.old.link ≡ None }
        requires empty { self.old.out ≡ [] }
        requires some { 0 < length self.old.room.items }
        requires small { length self.old.room.items < 2 ^ 20 }
        requires turns { self.old.turns < 2 ^ 63 }
        ensures ready { OnOk result (IsReady self.new.core.state) }
        ensures link { OnOk result (IsSome self.new.link) }
        ensures empty { OnOk result (self.new.out ≡ []) }
        ensures below { OnOk result (self.new.idle < 8) }
        ensures fits { OnOk result (self.new.core.held.place + length self.new.core.held.rest ≤ self.new.cost) }
        ensures turns { self.new.turns ≡ self.old.turns }
        ensures room { length self.new.room.items ≡ length self.old.room.items }
        ensures opens { (first : Start) (old : DialerState D.Link) (past : List (Part D.Link))
            → self.old.turns ≡ allowed (limits_of first.limits past)
            → TalkAt D.Link.link_state first old past [] self.old.link self.old.core self.old.noted self.old.idle self.old.cost (D.dialer_state self.old.dialer)
            → OpensTalk D.Link.link_state self.old.turns first old past result self.new.link self.new.core self.new.noted self.new.idle self.new.cost (D.dialer_state self.new.dialer) }
    {
        match connect(
            &mut self.core,
            &mut self.dialer,
            &mut self.out,
            &mut self.noted,
            self.room.as_mut_slice(),
            &mut self.idle,
            self.turns,
            &mut self.cost,
        ) {
            Ok(link) => {
                self.link = Some(link);
                Ok(())
            }
            Err(end) => Err(end),
        }
    }

    /// Whether it can be asked.
    pub fn ready(&self) -> bool
        ensures { IsTrue result ↔ IsReady self.now.core.state }
    {
        self.core.ready()
    }

    /// Asks a call on the link that it has, and waits for its result over links.
    pub fn ask(&mut self, call: &Call) -> Result<Told, TalkEnd>
        requires linked { IsSome self.old.link }
        requires empty { self.old.out ≡ [] }
        requires ready { IsReady self.old.core.state }
        requires command { is_of_opening call.now ≡ false }
        requires spellable { IsSpellable call.now }
        requires size { length (canonical_call call.now) + length (canonical_piece call.now) ≤ payload_limit }
        requires some { 0 < length self.old.room.items }
        requires small { length self.old.room.items < 2 ^ 20 }
        requires below { self.old.idle < 8 }
        requires fits { self.old.core.held.place + length self.old.core.held.rest ≤ self.old.cost }
        requires turns { self.old.turns < 2 ^ 63 }
        ensures link { OnOk result (IsSome self.new.link) }
        ensures empty { OnOk result (self.new.out ≡ []) }
        ensures ready { OnOk result (IsReady self.new.core.state) }
        ensures below { OnOk result (self.new.idle < 8) }
        ensures fits { OnOk result (self.new.core.held.place + length self.new.core.held.rest ≤ self.new.cost) }
        ensures turns { self.new.turns ≡ self.old.turns }
        ensures room { length self.new.room.items ≡ length self.old.room.items }
        ensures answers { (first : Start) (old : DialerState D.Link) (past : List (Part D.Link)) (all : List Happening)
            → self.old.turns ≡ allowed (all_limits first.limits past all)
            → TalkAt D.Link.link_state first old past all self.old.link self.old.core self.old.noted self.old.idle self.old.cost (D.dialer_state self.old.dialer)
            → AsksTalk D.Link.link_state self.old.turns first old past all self.old.core.state call.now result self.new.link self.new.core self.new.noted self.new.idle self.new.cost (D.dialer_state self.new.dialer) }
    {
        let Some(link) = self.link.take() else {
            return Err(TalkEnd::Memory);
        };
        match ask_over(
            &mut self.core,
            &mut self.dialer,
            link,
            call,
            &mut self.out,
            &mut self.noted,
            self.room.as_mut_slice(),
            &mut self.idle,
            self.turns,
            &mut self.cost,
        ) {
            Ok(answered) => {
                let Answered {
                    link,
                    at,
                    code,
                    block,
                } = answered;
                self.link = Some(link);
                Ok(Told { at, code, block })
            }
            Err(end) => Err(end),
        }
    }

    /// Ends the session: CloseSession is written, whatever becomes of the write, and the link is handed back. An error writes nothing.
    pub fn close(&mut self) -> Result<(), OutOfMemory>
        requires linked { IsSome self.old.link }
        requires empty { self.old.out ≡ [] }
        ensures link { self.new.link ≡ None }
        ensures closes { (first : Start) (old : DialerState D.Link) (past : List (Part D.Link)) (all : List Happening)
            → TalkAt D.Link.link_state first old past all self.old.link self.old.core self.old.noted self.old.idle self.old.cost (D.dialer_state self.old.dialer)
            → ClosesTalk D.Link.link_state first old past all result (D.dialer_state self.new.dialer) }
    {
        let Some(link) = self.link.take() else {
            return Ok(());
        };
        close_over(&mut self.dialer, link, &mut self.out, &mut self.noted)
    }

    /// Leaves the link that it has: nothing is written, and it is handed back.
    pub fn leave(&mut self)
        requires linked { IsSome self.old.link }
        ensures link { self.new.link ≡ None }
        ensures turns { self.new.turns ≡ self.old.turns }
        ensures leaves { (first : Start) (old : DialerState D.Link) (past : List (Part D.Link)) (all : List Happening)
            → TalkAt D.Link.link_state first old past all self.old.link self.old.core self.old.noted self.old.idle self.old.cost (D.dialer_state self.old.dialer)
            → LeavesOpen D.Link.link_state first old past all (D.dialer_state self.new.dialer) }
    {
        let Some(link) = self.link.take() else {
            return;
        };
        leave_over(&mut self.dialer, link);
    }

    /// What was spent: the bytes that came, the quiets, and 1 for each link that was dialled.
    pub fn cost(&self) -> u64
        ensures { result ≡ self.now.cost }
    {
        self.cost
    }

    /// From now on it may spend so much in all.
    #[tactic(auto, using(crate::proofs::OfLinks::LimitLemmas::limits_talk))]
    pub fn limit(&mut self, turns: u64)
        ensures same { self.new ≡ record self.old { turns = turns } }
        ensures limits { (first : Start) (old : DialerState D.Link) (past : List (Part D.Link)) (all : List Happening) → IsSome self.old.link
            → TalkAt D.Link.link_state first old past all self.old.link self.old.core self.old.noted self.old.idle self.old.cost (D.dialer_state self.old.dialer)
            → TalkAt D.Link.link_state first old past (limited (record { turns = turns; spent = self.old.cost }) ∷ all) self.old.link self.old.core self.old.noted self.old.idle self.old.cost (D.dialer_state self.old.dialer) }
    {
        self.turns = turns;
    }

    /// Who dialled its links.
    pub fn into_dialer(self) -> D
        ensures { result ≡ self.dialer }
    {
        self.dialer
    }
}
