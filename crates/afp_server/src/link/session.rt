//! The session machine of a link: it takes frames, asks a teller, and holds the reply. It knows no bytes on a
//! link.
ghost use Rattle.std.specs.Prelude.{◌≡◌, ◌≢◌, ◌<◌, ◌≤◌, [], ◌∷◌, length, take, drop, Option, Some, IfOk, IfNone, MatchBool, true, false};
ghost use Rattle.afp_outside.specs.ends.Gate.{with_entered};
ghost use Rattle.afp_base.specs.Limits.{payload_limit};
ghost use Rattle.afp_serial.specs.StatusBlock.{status_block};
ghost use Rattle.afp_serial.specs.Went.{Went, step};
ghost use Rattle.afp_serial.specs.declared.ask.Told.{Told};
ghost use Rattle.afp_serial.specs.Answered.{tells_bytes, told_of};
ghost use Rattle.dsi_session.specs.Pulse.{silence_limit, seconds_between};
ghost use Rattle.afp_server.specs.declared.link.stage.Stage.{Stage};
ghost use Rattle.afp_server.specs.declared.link.stage.FrameEnd.{FrameEnd};
ghost use Rattle.dsi_frame.specs.Frame.{canonical_frame, frame_of, header_length};
ghost use Rattle.dsi_frame.specs.Buffered.{buffer_length};
ghost use Rattle.afp_server.specs.link.Calls.{AsksCall};
ghost use Rattle.afp_server.specs.link.CloseSession.{ClosesSession};
ghost use Rattle.afp_server.specs.link.Did.{Did};
ghost use Rattle.afp_server.specs.link.LinkRun.{carries_call};
ghost use Rattle.afp_server.specs.link.OpenSession.{OpensSession};
ghost use Rattle.afp_server.specs.link.lemma.Passing.{PassesIn, call_link, if_call};
ghost use Rattle.afp_serial.specs.Shown.{Asked, is_answer_to};
ghost use Rattle.afp_server.specs.link.OpenSession.{OpenTold};
ghost use Rattle.dsi_frame.specs.Replies.{code_word, reply_to};
ghost use Rattle.afp_server.specs.link.Script.{FreshDoes, ReplyDoes};
ghost use Rattle.afp_server.specs.link.lemma.SessionState.{Acts, Handles, HandlesOpen, CalledBy, AsksPulse, PulseTold, IsCall, IsCallAnswer, IsOpenAnswer, told_in};
ghost use Rattle.afp_server.specs.link.Progress.{LeavesBy};
ghost use Rattle.afp_server.specs.link.Wire.{PartsBy};
ghost use Rattle.afp_server.specs.link.Tally.{no_tally, and_reply, and_told};
ghost use Rattle.afp_server.specs.link.Wire.{open_link};
ghost use Rattle.dsi_frame.specs.Frame.{Frame};

use crate::link::reply::{MOST_PAYLOAD, MOST_REPLY, put_header, put_reply};
use crate::link::stage::{FrameEnd, Idle, Stage};
use crate::link::tally::Tally;
use afp_base::{Bytes, Code, LinkNumber, Moment, OutOfMemory};
use afp_outside::Gate;
use afp_serial::{Answered, Ask, House, Teller};
use dsi_frame::{DsiCommand, HEADER_LENGTH, Header, Reason};
use dsi_session::{Due, OpenOptions, Pulse, option_bytes, read_options};
use std::alloc::Global;
use std::marker::Model;

/// No link of a session.
const NO_LINK: LinkNumber = LinkNumber(0);

/// A link's session, or that it has none yet; and room for one reply.
///
/// Contracts see the status block of its server, how far the link has come, the bytes of the reply to the last
/// frame, and the tally of its frames.
#[derive(Drop)]
pub struct LinkSession {
    alloc: Global,
    status: Bytes,
    stage: Stage,
    buffer: Vec<u8>,
    size: usize,
    tally: Tally,
}

impl Model for LinkSession {
    ghost use Rattle.std.specs.Prelude.{◌≡◌, ◌≤◌, length, take};
    ghost use Rattle.afp_base.specs.Limits.{payload_limit};
    ghost use Rattle.afp_server.specs.link.lemma.SessionState.{SessionState};
    ghost use Rattle.dsi_frame.specs.Buffered.{buffer_length};

    ghost Value = { SessionState };

    ghost view = { λ s. record { block = s.status; stage = s.stage; reply = take s.size s.buffer.items; tally = s.tally } };

    ghost invariant = { λ s. (length s.status ≤ payload_limit) × (length s.buffer.items ≡ buffer_length) × (s.size ≤ buffer_length) };
}

/// Why a reply of the client's ends its link: only that to an Attention is expected.
fn reply_end(command: DsiCommand) -> Option<FrameEnd>
    ensures { (stage : Stage) → ReplyDoes command stage (record { steps = []; reply = None; stage = stage; end = result }) }
{
    match command {
        DsiCommand::Attention => None,
        DsiCommand::GetStatus
        | DsiCommand::OpenSession
        | DsiCommand::Command
        | DsiCommand::Write
        | DsiCommand::Tickle
        | DsiCommand::CloseSession => Some(FrameEnd::Bad(Reason::Unexpected)),
    }
}

/// The link, where a request on its session carries a call.
fn called_by(command: DsiCommand, link: LinkNumber) -> Option<LinkNumber>
    ensures { result ≡ if_call (carries_call command) link }
{
    match command {
        DsiCommand::Command => Some(link),
        DsiCommand::Write => Some(link),
        DsiCommand::GetStatus
        | DsiCommand::OpenSession
        | DsiCommand::Tickle
        | DsiCommand::CloseSession
        | DsiCommand::Attention => None,
    }
}

impl LinkSession {
    /// No session yet. All memory that replies need is taken here.
    pub fn new(alloc: Global, house: &House) -> Result<LinkSession, OutOfMemory>
        ensures { IfOk result (λ s. s ≡ record { block = status_block house.now; stage = Stage.Fresh; reply = []; tally = no_tally }) }
    {
        Ok(LinkSession {
            alloc,
            status: house.status(alloc)?,
            stage: Stage::Fresh,
            buffer: vec![in alloc; 0u8; MOST_REPLY]?,
            size: 0,
            tally: Tally::new(),
        })
    }

    /// Goes on with another link, which has come so far; there is no reply.
    pub fn resume(&mut self, stage: Stage)
        ensures { self.new ≡ record self.old { stage = stage; reply = [] } }
    {
        self.stage = stage;
        self.size = 0;
    }

    /// Begins to count anew.
    pub fn begin_tally(&mut self)
        ensures { self.new ≡ record self.old { tally = no_tally } }
    {
        self.tally = Tally::new();
    }

    /// What it has counted of its frames.
    pub fn tally(&self) -> Tally
        ensures { result ≡ self.now.tally }
    {
        self.tally
    }

    /// Notes what an ask was told that is told no bytes.
    fn note(&mut self, answered: Answered)
        ensures { self.new ≡ record self.old { tally = record self.old.tally { answered = and_told (told_of answered []) self.old.tally.answered } } }
    {
        self.tally = self.tally.and_told(answered);
    }

    /// Notes that an ask was told Memory.
    fn note_memory(&mut self)
        ensures { self.new ≡ record self.old { tally = record self.old.tally { answered = false } } }
    {
        self.tally = self.tally.and_memory();
    }

    /// The link of the session that is open, if one is.
    pub fn open_link(&self) -> Option<LinkNumber>
        ensures { result ≡ open_link self.now.stage }
    {
        match self.stage {
            Stage::Open(link) => Some(link),
            Stage::Fresh => None,
            Stage::Closing => None,
        }
    }

    /// How far the link has come.
    pub fn stage(&self) -> Stage
        ensures { result ≡ self.now.stage }
    {
        self.stage
    }

    /// The bytes of the reply to the last frame: none, where there is none.
    pub fn reply(&self) -> &[u8]
        ensures { result.now ≡ self.now.reply }
    {
        &self.buffer[..self.size]
    }

    /// How many bytes the reply to the last frame has.
    pub fn reply_size(&self) -> usize
        ensures size { result ≡ length self.now.reply }
        ensures fits { result ≤ MOST_REPLY }
    {
        self.size
    }

    /// As many bytes as the longest reply has, whatever they are.
    pub fn room(&self) -> &[u8]
        ensures { length result.now ≡ MOST_REPLY }
    {
        self.buffer.as_slice()
    }

    /// The link of the session that a frame is a call on: a request that carries a call, on an open session.
    pub fn called_link(&self, header: &Header) -> Option<LinkNumber>
        ensures { result ≡ call_link header.now.reply self.now.stage header.now.command }
    {
        if header.reply {
            return None;
        }
        match self.stage {
            Stage::Fresh => None,
            Stage::Open(link) => called_by(header.command, link),
            Stage::Closing => None,
        }
    }

    /// Handles a frame: asks what it asks, and holds the reply. It says why the frame ends the link, where it does.
    /// A call goes through the gate before it is asked. An error: there was no memory for a copy of a call, and it
    /// was not asked.
    pub fn handle<T: Teller, G: Gate>(
        &mut self,
        header: &Header,
        payload: &[u8],
        now: Moment,
        teller: &mut T,
        gate: &G,
        log: &mut G::Log,
    ) -> Result<Option<FrameEnd>, OutOfMemory>
        requires { self.old.stage ≢ Stage.Closing }
        ensures fixed { T.fixed teller.new ≡ T.fixed teller.old }
        ensures handles { Handles now (frame_of header.now payload.now) self.old (T.shown teller.old) result self.new (T.shown teller.new) }
        ensures passes { PassesIn (call_link header.now.reply self.old.stage header.now.command) result (G.passed log.old) (G.passed log.new) }
        ensures live { IfOk result (λ end. IfNone end (self.new.stage ≢ Stage.Closing)) }
    {
        self.size = 0;
        if header.reply {
            return Ok(reply_end(header.command));
        }
        match self.stage {
            Stage::Open(link) => { self.handle_open(link, header, payload, now, teller, gate, log) }
            _ => Ok(self.handle_fresh(header, payload, now, teller)),
        }
    }

    /// A request before a session is open.
    fn handle_fresh<T: Teller>(
        &mut self,
        header: &Header,
        payload: &[u8],
        now: Moment,
        teller: &mut T,
    ) -> Option<FrameEnd>
        requires fresh { self.old.stage ≡ Stage.Fresh }
        requires no_reply { self.old.reply ≡ [] }
        ensures fixed { T.fixed teller.new ≡ T.fixed teller.old }
        ensures handles { (did : Did) × FreshDoes self.old.block now header.now.command (frame_of header.now payload.now) did
            × Acts self.old (T.shown teller.old) did self.new (T.shown teller.new) × (result ≡ did.end) }
        ensures live { IfNone result (self.new.stage ≢ Stage.Closing) }
    {
        match header.command {
            DsiCommand::GetStatus => self.get_status(header),
            DsiCommand::OpenSession => self.open_session(header, payload, now, teller),
            DsiCommand::Command => Some(FrameEnd::Bad(Reason::Phase)),
            DsiCommand::Write => Some(FrameEnd::Bad(Reason::Phase)),
            DsiCommand::Tickle => None,
            DsiCommand::CloseSession => {
                self.close();
                Some(FrameEnd::Closed)
            }
            DsiCommand::Attention => Some(FrameEnd::Bad(Reason::Unexpected)),
        }
    }

    /// A request on an open session.
    fn handle_open<T: Teller, G: Gate>(
        &mut self,
        link: LinkNumber,
        header: &Header,
        payload: &[u8],
        now: Moment,
        teller: &mut T,
        gate: &G,
        log: &mut G::Log,
    ) -> Result<Option<FrameEnd>, OutOfMemory>
        requires session { self.old.stage ≡ Stage.Open link }
        requires no_reply { self.old.reply ≡ [] }
        ensures fixed { T.fixed teller.new ≡ T.fixed teller.old }
        ensures handles { HandlesOpen now link header.now.command (frame_of header.now payload.now) self.old (T.shown teller.old) result self.new (T.shown teller.new) }
        ensures passes { PassesIn (if_call (carries_call header.now.command) link) result (G.passed log.old) (G.passed log.new) }
        ensures live { IfOk result (λ end. IfNone end (self.new.stage ≢ Stage.Closing)) }
    {
        match header.command {
            DsiCommand::GetStatus => Ok(self.get_status(header)),
            DsiCommand::OpenSession => Ok(Some(FrameEnd::Bad(Reason::Phase))),
            DsiCommand::Command => {
                let ask = self.call_of(header, false, 0, payload)?;
                Ok(self.call(link, header, ask, now, teller, gate, log))
            }
            DsiCommand::Write => {
                let ask = self.call_of(header, true, header.word, payload)?;
                Ok(self.call(link, header, ask, now, teller, gate, log))
            }
            DsiCommand::Tickle => Ok(None),
            DsiCommand::CloseSession => Ok(self.close_session(link, now, teller)),
            DsiCommand::Attention => Ok(Some(FrameEnd::Bad(Reason::Unexpected))),
        }
    }

    /// DSIGetStatus: the reply is the status block.
    fn get_status(&mut self, request: &Header) -> Option<FrameEnd>
        ensures is { result ≡ None }
        ensures reply { self.new ≡ record self.old { reply = canonical_frame (reply_to (frame_of request.now []) Code.Ok self.old.block); tally = and_reply (code_word Code.Ok) self.old.tally } }
    {
        self.size = put_reply(
            self.buffer.as_mut_slice(),
            request,
            Code::Ok,
            self.status.as_slice(),
        );
        self.tally = self.tally.and_reply(Code::Ok);
        None
    }

    /// DSIOpenSession on a link that has no session: a Pulse, so that the server sweeps, and then Open.
    fn open_session<T: Teller>(
        &mut self,
        request: &Header,
        payload: &[u8],
        now: Moment,
        teller: &mut T,
    ) -> Option<FrameEnd>
        requires fresh { self.old.stage ≡ Stage.Fresh }
        ensures fixed { T.fixed teller.new ≡ T.fixed teller.old }
        ensures is { result ≡ None }
        ensures opens { (did : Did) × OpensSession now (frame_of request.now payload.now) did
            × Acts self.old (T.shown teller.old) did self.new (T.shown teller.new) × (did.end ≡ None) }
        ensures live { self.new.stage ≢ Stage.Closing }
    {
        match read_options(payload) {
            Ok(options) => {
                let pulsed = ask_bare(now, NO_LINK, Ask::Pulse, teller);
                self.note(pulsed);
                let answered = self.ask(now, NO_LINK, open_of(options), teller);
                self.opened(request, answered);
            }
            Err(_) => self.answer(request, Code::ParamErr, &[]),
        }
        None
    }

    /// Asks. All its room then stands for the reply: there the bytes of what is told are behind those of a header.
    fn ask<T: Teller>(
        &mut self,
        now: Moment,
        link: LinkNumber,
        ask: Ask,
        teller: &mut T,
    ) -> Answered
        ensures fixed { T.fixed teller.new ≡ T.fixed teller.old }
        ensures asked { Asked (T.shown teller.old) now link ask (told_in result self.new) (T.shown teller.new) }
        ensures answers { is_answer_to ask (told_in result self.new) ≡ true }
        ensures room { length self.new.reply ≡ MOST_REPLY }
        ensures rest { self.new ≡ record self.old { reply = self.new.reply } }
    {
        self.size = MOST_REPLY;
        ask_behind(self.buffer.as_mut_slice(), now, link, ask, teller)
    }

    /// The reply to an OpenSession, by what Open was told.
    fn opened(&mut self, request: &Header, answered: Answered)
        requires fresh { self.old.stage ≡ Stage.Fresh }
        requires told { IsOpenAnswer (told_in answered self.old) }
        requires room { length self.old.reply ≡ MOST_REPLY }
        ensures opened { (reply : Frame) × OpenTold (frame_of request.now []) (told_in answered self.old) (Some reply) self.new.stage × (self.new.reply ≡ canonical_frame reply)
            × (self.new.tally ≡ and_reply reply.word (record self.old.tally { answered = and_told (told_in answered self.old) self.old.tally.answered })) }
        ensures block { self.new.block ≡ self.old.block }
        ensures live { self.new.stage ≢ Stage.Closing }
    {
        match answered {
            Answered::Opened { link } => {
                self.stage = Stage::Open(link);
                self.answer(request, Code::Ok, &option_bytes());
            }
            Answered::Reply { code, size, .. } => self.answer_told(request, code, size),
            Answered::Memory => {
                self.note_memory();
                self.answer(request, Code::NoMemory, &[]);
            }
            Answered::Live { .. } | Answered::Done | Answered::Displaced => {}
        }
    }

    /// A reply with this code, whose payload was told: the first so many bytes of its room, behind those of a header.
    fn answer_told(&mut self, request: &Header, code: Code, size: usize)
        requires { length self.old.reply ≡ MOST_REPLY }
        ensures { self.new ≡ record self.old { reply = canonical_frame (reply_to (frame_of request.now []) code (take size (drop header_length self.old.reply))); tally = and_reply (code_word code) self.old.tally } }
    {
        self.size = put_header(
            self.buffer.as_mut_slice(),
            request,
            code,
            size.min(MOST_PAYLOAD),
        );
        self.tally = self.tally.and_reply(code);
    }

    /// A reply with this code and payload.
    fn answer(&mut self, request: &Header, code: Code, payload: &[u8])
        requires { length payload.now ≤ payload_limit }
        ensures { self.new ≡ record self.old { reply = canonical_frame (reply_to (frame_of request.now []) code payload.now); tally = and_reply (code_word code) self.old.tally } }
    {
        self.size = put_reply(self.buffer.as_mut_slice(), request, code, payload);
        self.tally = self.tally.and_reply(code);
    }

    /// The call that a request carries: a Write has the offset of its enclosed bytes.
    fn call_of(
        &self,
        request: &Header,
        write: bool,
        offset: u32,
        payload: &[u8],
    ) -> Result<Ask, OutOfMemory>
        ensures { IfOk result (λ ask. ask ≡ Ask.Call request.now.id write offset payload.now) }
    {
        Ok(Ask::Call {
            id: request.id,
            write,
            offset,
            payload: Bytes::of(self.alloc, payload)?,
        })
    }

    /// DSICommand and DSIWrite on an open session: the call enters the gate, and is asked at its link.
    fn call<T: Teller, G: Gate>(
        &mut self,
        link: LinkNumber,
        request: &Header,
        ask: Ask,
        now: Moment,
        teller: &mut T,
        gate: &G,
        log: &mut G::Log,
    ) -> Option<FrameEnd>
        requires session { self.old.stage ≡ Stage.Open link }
        requires call { IsCall ask }
        ensures fixed { T.fixed teller.new ≡ T.fixed teller.old }
        ensures calls { (did : Did) × AsksCall now link (frame_of request.now []) ask did
            × Acts self.old (T.shown teller.old) did self.new (T.shown teller.new) × (result ≡ did.end) }
        ensures passes { G.passed log.new ≡ with_entered (G.passed log.old) (Some link) }
        ensures live { IfNone result (self.new.stage ≢ Stage.Closing) }
    {
        gate.before(link, log);
        let answered = self.ask(now, link, ask, teller);
        self.called(request, answered)
    }

    /// The reply to a call, by what it was told.
    fn called(&mut self, request: &Header, answered: Answered) -> Option<FrameEnd>
        requires told { IsCallAnswer (told_in answered self.old) }
        requires room { length self.old.reply ≡ MOST_REPLY }
        ensures called { (reply : Option Frame) × CalledBy (frame_of request.now []) (told_in answered self.old) reply self.old self.new result }
    {
        match answered {
            Answered::Reply { code, size, ends } => {
                self.answer_told(request, code, size);
                if ends {
                    self.close();
                    Some(FrameEnd::Closed)
                } else {
                    None
                }
            }
            Answered::Memory => {
                self.note_memory();
                self.answer(request, Code::NoMemory, &[]);
                None
            }
            Answered::Displaced
            | Answered::Opened { .. }
            | Answered::Live { .. }
            | Answered::Done => {
                self.close_unanswered();
                Some(FrameEnd::Displaced)
            }
        }
    }

    /// DSICloseSession on an open session: a Bye, whatever it is told.
    fn close_session<T: Teller>(
        &mut self,
        link: LinkNumber,
        now: Moment,
        teller: &mut T,
    ) -> Option<FrameEnd>
        requires no_reply { self.old.reply ≡ [] }
        ensures fixed { T.fixed teller.new ≡ T.fixed teller.old }
        ensures is { result ≡ Some FrameEnd.Closed }
        ensures closes { (did : Did) × ClosesSession now link did × Acts self.old (T.shown teller.old) did self.new (T.shown teller.new) × (result ≡ did.end) }
    {
        let answered = ask_bare(now, link, Ask::Bye, teller);
        self.note(answered);
        self.close();
        Some(FrameEnd::Closed)
    }

    /// The link ends.
    fn close(&mut self)
        ensures { self.new ≡ record self.old { stage = Stage.Closing } }
    {
        self.stage = Stage::Closing;
    }

    /// The link ends, and there is no reply.
    fn close_unanswered(&mut self)
        ensures { self.new ≡ record self.old { stage = Stage.Closing; reply = [] } }
    {
        self.stage = Stage::Closing;
        self.size = 0;
    }

    /// A quiet: silence ends the link; else an open session asks Pulse.
    pub fn idle<T: Teller>(&mut self, last_read: Moment, now: Moment, teller: &mut T) -> Idle
        requires { self.old.stage ≢ Stage.Closing }
        ensures fixed { T.fixed teller.new ≡ T.fixed teller.old }
        ensures asks { AsksPulse last_read now self.old (T.shown teller.old) result self.new (T.shown teller.new) }
    {
        if is_silent(last_read, now) {
            return Idle::Silent;
        }
        match self.stage {
            Stage::Open(link) => self.pulse(link, now, teller),
            Stage::Fresh => Idle::On,
            Stage::Closing => Idle::On,
        }
    }

    /// A Pulse of an open session.
    fn pulse<T: Teller>(&mut self, link: LinkNumber, now: Moment, teller: &mut T) -> Idle
        requires session { self.old.stage ≡ Stage.Open link }
        ensures fixed { T.fixed teller.new ≡ T.fixed teller.old }
        ensures pulses { (answer : Told) × PulseTold link answer self.old result self.new × Went (T.shown teller.old) (step now link Ask.Pulse answer ∷ []) (T.shown teller.new) }
    {
        let answered = ask_bare(now, link, Ask::Pulse, teller);
        self.pulsed(link, answered)
    }

    /// What a Pulse's answer does.
    fn pulsed(&mut self, link: LinkNumber, answered: Answered) -> Idle
        ensures { PulseTold link (told_of answered []) self.old result self.new }
    {
        match answered {
            Answered::Displaced => {
                self.close();
                Idle::Displaced
            }
            Answered::Live { drain } => Idle::Live { link, drain },
            Answered::Opened { .. } => Idle::Live { link, drain: None },
            Answered::Reply { .. } => Idle::Live { link, drain: None },
            Answered::Done => Idle::Live { link, drain: None },
            Answered::Memory => Idle::Live { link, drain: None },
        }
    }

    /// The server ends the session of an open link: a Bye, whatever it is told.
    pub fn leave<T: Teller>(&mut self, link: LinkNumber, now: Moment, teller: &mut T)
        ensures fixed { T.fixed teller.new ≡ T.fixed teller.old }
        ensures leaves { LeavesBy now link (T.shown teller.old) (T.shown teller.new) }
        ensures closed { self.new ≡ record self.old { stage = Stage.Closing } }
    {
        ask_bare(now, link, Ask::Bye, teller);
        self.close();
    }

    /// The link ended: an open session asks Lost.
    pub fn lose<T: Teller>(&mut self, now: Moment, teller: &mut T)
        ensures fixed { T.fixed teller.new ≡ T.fixed teller.old }
        ensures parts { PartsBy self.old.stage now (T.shown teller.old) (T.shown teller.new) }
        ensures closed { self.new ≡ record self.old { stage = Stage.Closing } }
    {
        ask_lost(self.stage, now, teller);
        self.stage = Stage::Closing;
    }
}

/// Asks. The bytes of what is told stand in the buffer behind those of a header.
fn ask_behind<T: Teller>(
    buffer: &mut [u8],
    now: Moment,
    link: LinkNumber,
    ask: Ask,
    teller: &mut T,
) -> Answered
    requires room { length buffer.old ≡ MOST_REPLY }
    ensures fixed { T.fixed teller.new ≡ T.fixed teller.old }
    ensures asked { Asked (T.shown teller.old) now link ask (told_of result (drop HEADER_LENGTH buffer.new)) (T.shown teller.new) }
    ensures answers { is_answer_to ask (told_of result (drop HEADER_LENGTH buffer.new)) ≡ true }
    ensures length { length buffer.new ≡ length buffer.old }
{
    teller.ask(now, link, ask, &mut buffer[HEADER_LENGTH..])
}

/// Asks what is told no bytes.
fn ask_bare<T: Teller>(now: Moment, link: LinkNumber, ask: Ask, teller: &mut T) -> Answered
    requires { tells_bytes ask ≡ false }
    ensures fixed { T.fixed teller.new ≡ T.fixed teller.old }
    ensures asked { Asked (T.shown teller.old) now link ask (told_of result []) (T.shown teller.new) }
    ensures answers { is_answer_to ask (told_of result []) ≡ true }
{
    teller.ask(now, link, ask, &mut [])
}

/// Asks Lost, where a session is open.
fn ask_lost<T: Teller>(stage: Stage, now: Moment, teller: &mut T)
    ensures fixed { T.fixed teller.new ≡ T.fixed teller.old }
    ensures parts { PartsBy stage now (T.shown teller.old) (T.shown teller.new) }
{
    match stage {
        Stage::Open(link) => {
            ask_bare(now, link, Ask::Lost, teller);
        }
        Stage::Fresh => {}
        Stage::Closing => {}
    }
}

/// Whether a peer of which the last byte was read at this moment is silent now.
fn is_silent(last_read: Moment, now: Moment) -> bool
    ensures { MatchBool result (silence_limit ≤ seconds_between last_read now) (seconds_between last_read now < silence_limit) }
{
    match Pulse::new(last_read).due(now) {
        Due::Silent => true,
        Due::Tickle => false,
        Due::Nothing => false,
    }
}

/// What an OpenSession asks.
fn open_of(options: OpenOptions) -> Ask
    ensures { result ≡ Ask.Open options.attention }
{
    Ask::Open {
        attention: options.attention,
    }
}
