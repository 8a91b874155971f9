//! A script's client over its links.
ghost use Rattle.std.specs.Prelude.{◌≡◌, ◌<◌, ◌^◌, ◌-◌, ◌∷◌, ◌++◌, [], false, None, IsSome, IfOk, IfErr, OnOk, length};
ghost use Rattle.afp_client.specs.session.State.{is_lost};
ghost use Rattle.client_script_lines.specs.calls.Asked.{IsAskable};
ghost use Rattle.client_script_run.specs.asker.Read.{zipped};
ghost use Rattle.client_script_run.specs.asker.Standing.{AnswersBy, Closes, Finishes, IsNew, IsOpen, LogsAnswer, LogsUnanswered, OpensNone, Stands, TellsOn, first_of};

use crate::asker::exchanges::{Exchanges, note_unanswered};
use crate::asker::kind::reply_kind;
use afp_base::{Bytes, Moment};
use afp_calls_grammar::Call;
use afp_client::{ClientCore, Limit, Talk, TalkEnd, Told};
use afp_outside::Dialer;
use afp_replies::{ReplyFault, read_reply};
use client_script_commands::{Answer, Asker};
use ghost_log::{Log, Notes};
use std::alloc::Global;
use std::marker::Model;
use std::snapshot::Snapshot;

/// Why no answer comes.
#[derive(Clone, Copy, Debug, PartialEq, Eq)]
pub enum AskEnd {
    /// The client's links ended.
    Links(TalkEnd),
    /// The frame at this place of the newest link shows no reply of its call.
    BadReply { at: u64 },
    /// There was no memory.
    Memory,
}

/// What stays the same of a script's client while it is asked: the client and the dialer as they were before the first link, how much it
/// might spend then, and each limit that was set to that, this one first.
#[derive(Drop)]
pub struct Beginning<D> {
    pub core: Snapshot<ClientCore>,
    pub dialer: Snapshot<D>,
    pub turns: u64,
    pub limits: Log<Limit>,
}

/// A script's client, who is asked calls. It has a link while it has not ended.
#[derive(Drop)]
pub struct LinkAsker<D: Dialer> {
    alloc: Global,
    talk: Talk<D>,
    beginning: Beginning<D>,
    exchanges: Exchanges,
    unanswered: Notes<Call<'static>>,
    ended: Option<AskEnd>,
    answered: u64,
    place: u64,
}

impl<D: Dialer> Model for LinkAsker<D> {
    ghost use Rattle.std.specs.Prelude.{◌≡◌, length};
    ghost use Rattle.client_script_run.specs.asker.Read.{zipped};
    ghost use Rattle.client_script_run.specs.asker.Standing.{AskerValue, Stands, first_of};
    ghost use Rattle.client_script_run.specs.declared.asker.asker.Beginning.{Beginning};

    ghost Value = { AskerValue (Beginning D) };

    ghost view = { λ a. record {
      asked = record { fixed = a.beginning; exchanges = zipped a.exchanges.calls.items a.exchanges.answers.items; unanswered = a.unanswered.items };
      answered = a.answered;
      ended = a.ended;
      cost = a.talk.cost;
      place = a.place;
    } };

    ghost invariant = { λ a. Stands D.Link.link_state (first_of a.beginning.core.value a.beginning.turns) (D.dialer_state a.beginning.dialer.value) a.beginning.limits.items a.talk.turns (zipped a.exchanges.calls.items a.exchanges.answers.items) a.unanswered.items a.ended
        a.talk.link a.talk.core a.talk.out (length a.talk.room.items) a.talk.noted a.talk.idle a.talk.cost a.place (D.dialer_state a.talk.dialer) };
}

/// A dialer whose links were all handed back, and why no client was opened over it.
#[derive(Drop)]
pub struct Unopened<D> {
    pub dialer: D,
    pub end: AskEnd,
}

/// A dialer whose links were all handed back, and why its client ended, where it did.
#[derive(Drop)]
pub struct Finished<D> {
    pub dialer: D,
    pub end: Option<AskEnd>,
}

/// Opens a client's first link.
pub fn open_asker<D: Dialer>(
    alloc: Global,
    core: ClientCore,
    dialer: D,
    room: Vec<u8>,
    turns: u64,
) -> Result<LinkAsker<D>, Unopened<D>>
    requires live { is_lost core.state.stage ≡ false }
    requires idle { core.state.waiting ≡ None }
    requires some { 0 < length room.items }
    requires small { length room.items < 2 ^ 20 }
    requires turns { turns < 2 ^ 63 }
    ensures opened { IfOk result (λ a. IsNew core dialer turns a.asked.fixed.core.value a.asked.fixed.dialer.value a.asked.fixed.turns a.asked.fixed.limits.items a.asked.exchanges a.asked.unanswered a.ended) }
    ensures failed { IfErr result (λ f. OpensNone D.Link.link_state turns (first_of core turns) (D.dialer_state dialer) f.end (D.dialer_state f.dialer)) }
{
    let first = Limit { turns, spent: 0 };
    let none = Log::new();
    let limits = none.and(&first);
    let beginning = Beginning {
        core: Snapshot::of(&core),
        dialer: Snapshot::of(&dialer),
        turns,
        limits,
    };
    let Some(now) = Moment::new(0) else {
        return Err(Unopened {
            dialer,
            end: AskEnd::Memory,
        });
    };
    let mut talk = Talk::new(core, dialer, room, Bytes::new(alloc), now, turns);
    match talk.open() {
        Ok(()) => Ok(LinkAsker {
            alloc,
            talk,
            beginning,
            exchanges: Exchanges::new(),
            unanswered: Notes::new(),
            ended: None,
            answered: 0,
            place: 0,
        }),
        Err(end) => Err(Unopened {
            dialer: talk.into_dialer(),
            end: AskEnd::Links(end),
        }),
    }
}

/// The answer that a block shows.
fn answer_of(alloc: Global, call: &Call, told: &Told) -> Result<Answer, AskEnd>
    ensures { AnswersBy call.now told.now result }
{
    let kind = reply_kind(call);
    match read_reply(alloc, &kind, told.code, told.block.as_slice()) {
        Ok(reply) => Ok(Answer {
            code: told.code,
            reply,
        }),
        Err(fault) => match fault {
            ReplyFault::Bad { .. } => Err(AskEnd::BadReply { at: told.at }),
            ReplyFault::Memory => Err(AskEnd::Memory),
        },
    }
}

/// What a call that was told something comes to: its answer, or the end, and then the link is left.
fn take_told<D: Dialer>(
    alloc: Global,
    talk: &mut Talk<D>,
    beginning: &Beginning<D>,
    exchanges: &mut Exchanges,
    unanswered: &mut Notes<Call<'static>>,
    ended: &mut Option<AskEnd>,
    call: &Call,
    told: Told,
) -> Result<Answer, AskEnd>
    requires linked { IsSome talk.old.link }
    requires none { ended.old ≡ None }
    requires answered { unanswered.old.items ≡ [] }
    ensures logs { LogsAnswer call.now (zipped exchanges.old.calls.items exchanges.old.answers.items) result (zipped exchanges.new.calls.items exchanges.new.answers.items) }
    ensures unanswered { LogsUnanswered call.now unanswered.old.items result unanswered.new.items }
    ensures turns { talk.new.turns ≡ talk.old.turns }
    ensures stands { TellsOn D.Link.link_state (first_of beginning.now.core.value beginning.now.turns) (D.dialer_state beginning.now.dialer.value) beginning.now.limits.items talk.old.turns (zipped exchanges.old.calls.items exchanges.old.answers.items) call.now told talk.old.link talk.old.core talk.old.out (length talk.old.room.items) talk.old.noted talk.old.idle talk.old.cost (D.dialer_state talk.old.dialer)
        → Stands D.Link.link_state (first_of beginning.now.core.value beginning.now.turns) (D.dialer_state beginning.now.dialer.value) beginning.now.limits.items talk.new.turns (zipped exchanges.new.calls.items exchanges.new.answers.items) unanswered.new.items ended.new talk.new.link talk.new.core talk.new.out (length talk.new.room.items) talk.new.noted talk.new.idle talk.new.cost told.at (D.dialer_state talk.new.dialer) }
{
    match answer_of(alloc, call, &told) {
        Ok(answer) => {
            *exchanges = exchanges.and(call, &answer);
            Ok(answer)
        }
        Err(end) => {
            talk.leave();
            note_unanswered(unanswered, call);
            *ended = Some(end);
            Err(end)
        }
    }
}

/// Asks a call of a client that has a link.
fn ask_open<D: Dialer>(
    alloc: Global,
    talk: &mut Talk<D>,
    beginning: &Beginning<D>,
    exchanges: &mut Exchanges,
    unanswered: &mut Notes<Call<'static>>,
    ended: &mut Option<AskEnd>,
    answered: &mut u64,
    place: &mut u64,
    call: &Call,
) -> Result<Answer, AskEnd>
    requires askable { IsAskable call.now }
    requires none { ended.old ≡ None }
    requires answered { unanswered.old.items ≡ [] }
    requires open { IsOpen D.Link.link_state (first_of beginning.now.core.value beginning.now.turns) (D.dialer_state beginning.now.dialer.value) beginning.now.limits.items talk.old.turns (zipped exchanges.old.calls.items exchanges.old.answers.items) talk.old.link talk.old.core talk.old.out (length talk.old.room.items) talk.old.noted talk.old.idle talk.old.cost place.old (D.dialer_state talk.old.dialer) }
    ensures logs { LogsAnswer call.now (zipped exchanges.old.calls.items exchanges.old.answers.items) result (zipped exchanges.new.calls.items exchanges.new.answers.items) }
    ensures unanswered { LogsUnanswered call.now unanswered.old.items result unanswered.new.items }
    ensures falls { OnOk result (2 ^ 64 - answered.new < 2 ^ 64 - answered.old) }
    ensures turns { talk.new.turns ≡ talk.old.turns }
    ensures stands { Stands D.Link.link_state (first_of beginning.now.core.value beginning.now.turns) (D.dialer_state beginning.now.dialer.value) beginning.now.limits.items talk.new.turns (zipped exchanges.new.calls.items exchanges.new.answers.items) unanswered.new.items ended.new talk.new.link talk.new.core talk.new.out (length talk.new.room.items) talk.new.noted talk.new.idle talk.new.cost place.new (D.dialer_state talk.new.dialer) }
{
    if *answered == u64::MAX {
        talk.leave();
        note_unanswered(unanswered, call);
        *ended = Some(AskEnd::Memory);
        return Err(AskEnd::Memory);
    }
    match talk.ask(call) {
        Ok(told) => {
            *answered += 1;
            *place = told.at;
            take_told(
                alloc, talk, beginning, exchanges, unanswered, ended, call, told,
            )
        }
        Err(end) => {
            note_unanswered(unanswered, call);
            *ended = Some(AskEnd::Links(end));
            Err(AskEnd::Links(end))
        }
    }
}

impl<D: Dialer> LinkAsker<D> {
    /// What was spent: the bytes that came, the quiets, and 1 for each link that was dialled.
    pub fn cost(&self) -> u64
        ensures { result ≡ self.now.cost }
    {
        self.talk.cost()
    }

    /// The place on its link of the last reply.
    pub fn place(&self) -> u64
        ensures { result ≡ self.now.place }
    {
        self.place
    }

    /// Why it ended, where it did.
    pub fn ended(&self) -> Option<AskEnd>
        ensures { result ≡ self.now.ended }
    {
        self.ended
    }

    /// From now on it may spend so much in all, where it has not ended.
    pub fn limit(&mut self, turns: u64)
        requires { turns < 2 ^ 63 }
        ensures exchanges { self.new.asked.exchanges ≡ self.old.asked.exchanges }
        ensures unanswered { self.new.asked.unanswered ≡ self.old.asked.unanswered }
        ensures core { self.new.asked.fixed.core ≡ self.old.asked.fixed.core }
        ensures dialer { self.new.asked.fixed.dialer ≡ self.old.asked.fixed.dialer }
        ensures ended { self.new.ended ≡ self.old.ended }
        ensures cost { self.new.cost ≡ self.old.cost }
        ensures place { self.new.place ≡ self.old.place }
        ensures turns { self.new.asked.fixed.turns ≡ self.old.asked.fixed.turns }
        ensures limits { self.old.ended ≡ None → self.new.asked.fixed.limits.items ≡ self.old.asked.fixed.limits.items ++ (record { turns = turns; spent = self.old.cost }) ∷ [] }
    {
        match self.ended {
            None => {
                let limit = Limit {
                    turns,
                    spent: self.talk.cost(),
                };
                self.talk.limit(turns);
                self.beginning.limits = self.beginning.limits.and(&limit);
            }
            Some(_) => {}
        }
    }

    /// Ends the session, where it has a link: CloseSession is written, whatever becomes of the write. Where there is no memory for it, the
    /// link is left in silence, and `Memory` tells so.
    pub fn close(self) -> Finished<D>
        ensures { Closes D.Link.link_state (first_of self.asked.fixed.core.value self.asked.fixed.turns) (D.dialer_state self.asked.fixed.dialer.value) self.asked.fixed.limits.items self.asked.exchanges self.asked.unanswered self.ended result.end self.cost self.place (D.dialer_state result.dialer) }
    {
        let mut talk = self.talk;
        match self.ended {
            None => match talk.close() {
                Ok(()) => Finished {
                    dialer: talk.into_dialer(),
                    end: None,
                },
                Err(_) => Finished {
                    dialer: talk.into_dialer(),
                    end: Some(AskEnd::Memory),
                },
            },
            Some(end) => Finished {
                dialer: talk.into_dialer(),
                end: Some(end),
            },
        }
    }

    /// Leaves the link, where it has one: nothing more is written.
    pub fn leave(self) -> Finished<D>
        ensures end { result.end ≡ self.ended }
        ensures finishes { Finishes D.Link.link_state (first_of self.asked.fixed.core.value self.asked.fixed.turns) (D.dialer_state self.asked.fixed.dialer.value) self.asked.fixed.limits.items self.asked.exchanges self.asked.unanswered self.ended self.cost self.place (D.dialer_state result.dialer) }
    {
        let mut talk = self.talk;
        match self.ended {
            None => {
                talk.leave();
                Finished {
                    dialer: talk.into_dialer(),
                    end: None,
                }
            }
            Some(end) => Finished {
                dialer: talk.into_dialer(),
                end: Some(end),
            },
        }
    }
}

impl<D: Dialer> Asker for LinkAsker<D> {
    ghost use Rattle.std.specs.Prelude.{◌-◌, ◌^◌};

    type End = AskEnd;

    type Fixed = Beginning<D>;

    ghost exchanges = { λ a. a.asked };

    ghost left = { λ a. 2 ^ 64 - a.answered };

    fn ask(&mut self, call: &Call) -> Result<Answer, AskEnd> {
        match self.ended {
            Some(end) => {
                note_unanswered(&mut self.unanswered, call);
                Err(end)
            }
            None => ask_open(
                self.alloc,
                &mut self.talk,
                &self.beginning,
                &mut self.exchanges,
                &mut self.unanswered,
                &mut self.ended,
                &mut self.answered,
                &mut self.place,
                call,
            ),
        }
    }
}
