//! A client's state, which knows no bytes of a link.
ghost use Rattle.std.specs.Prelude.{◌≡◌, ◌+◌, ◌<◌, ◌≤◌, ◌++◌, [], Option, Some, None, length, option_map, IfOk, IfSome, OnOk, OnErr, IsTrue, ◌↔◌, true, false};
ghost use Rattle.afp_base.specs.Limits.{payload_limit};
ghost use Rattle.afp_base.specs.declared.code.Code.{Code};
ghost use Rattle.dsi_frame.specs.Frame.{canonical_frame, frame_of};
ghost use Rattle.dsi_session.specs.RequestIds.{first_request_id, id_after};
ghost use Rattle.afp_calls_grammar.specs.grammar.Call.{IsSpellable, canonical_call, canonical_piece};
ghost use Rattle.afp_client.specs.session.Opening.{FitsLogin, command_frame, login_call, open_session_frame, opening_frame, session_call};
ghost use Rattle.afp_client.specs.session.State.{ClientState, IsReady, Waiting, call_frame, is_lost, is_opened};
ghost use Rattle.afp_client.specs.session.Takes.{IsCodeIn, asked, begun, broken, is_retried, opened, opening_command, opening_replied, refusal, session_told, takes, takes_reply, takes_request, token_in, writes_opening, written, ready_reply};
ghost use Rattle.afp_client.specs.session.lemma.Steps.{IsTaken, Makes};

use crate::session::event::Event;
use crate::session::login::Login;
use crate::session::request::{Request, answers};
use crate::session::stage::{OpeningStep, Stage};
use afp_base::{Bytes, Code, OutOfMemory};
use afp_calls::write_call;
use afp_calls_grammar::Call;
use byteorder::{BigEndian, ByteOrder};
use dsi_frame::{DsiCommand, Header, write_frame};
use std::alloc::Global;
use std::marker::Model;

/// How often at most a request is written again because it was told that there was no memory.
const MOST_RETRIES: u8 = 3;

/// The most bytes of a token.
const MOST_TOKEN: usize = 131_064;

/// The option of an OpenSession request: an attention quantum of 1,024.
const OPEN_OPTIONS: [u8; 6] = [1, 4, 0, 0, 4, 0];

/// The id behind an id.
fn id_after(id: u16) -> u16
    ensures { result ≡ id_after id }
{
    id.wrapping_add(1)
}

/// The code whose number a word is, where it is one.
fn code_in(word: u32) -> Option<Code>
    ensures { IsCodeIn word result }
{
    Code::of(word.cast_signed())
}

/// Whether a request that was written again so often is written again once more, by the code of its reply.
fn is_retried(code: Code, retries: u8) -> bool
    ensures { result ≡ is_retried code retries }
{
    match code {
        Code::NoMemory => retries < MOST_RETRIES,
        _ => false,
    }
}

/// The command of a request of the opening.
fn opening_command(step: OpeningStep) -> DsiCommand
    ensures { result ≡ opening_command step }
{
    match step {
        OpeningStep::OpenSession => DsiCommand::OpenSession,
        OpeningStep::Login => DsiCommand::Command,
        OpeningStep::Session => DsiCommand::Command,
    }
}

/// The token that a reply to FPGetSessionToken shows, where it does and the token is not too long.
fn token_of(alloc: Global, payload: &[u8]) -> Result<Option<Bytes>, OutOfMemory>
    ensures { IfOk result (λ token. token ≡ token_in payload.now) }
{
    if payload.len() < 4 {
        return Ok(None);
    }
    let count = BigEndian::read_u32(payload) as usize;
    let token = &payload[4..];
    if count != token.len() || token.len() > MOST_TOKEN {
        return Ok(None);
    }
    Ok(Some(Bytes::of(alloc, token)?))
}

/// A client's state.
#[derive(Drop)]
pub(crate) struct ClientMachine {
    alloc: Global,
    login: Login,
    stage: Stage,
    token: Option<Bytes>,
    waiting: Option<Request>,
    next_id: u16,
}

impl Model for ClientMachine {
    ghost use Rattle.std.specs.Prelude.{◌≤◌, length, IfSome};
    ghost use Rattle.afp_client.specs.session.Opening.{FitsLogin};
    ghost use Rattle.afp_client.specs.session.State.{ClientState};
    ghost use Rattle.afp_client.specs.session.Takes.{most_token};

    ghost Value = { ClientState };

    ghost view = { λ m. record { login = m.login; stage = m.stage; token = m.token; waiting = m.waiting; next_id = m.next_id } };

    ghost invariant = { λ m. FitsLogin m.login × IfSome m.token (λ token. length token ≤ most_token) };
}

impl ClientMachine {
    /// A client without a link.
    pub(crate) fn new(alloc: Global, login: Login) -> ClientMachine
        requires { FitsLogin login }
        ensures { result ≡ record { login = login; stage = Stage.Unlinked; token = None; waiting = None; next_id = 0 } }
    {
        ClientMachine {
            alloc,
            login,
            stage: Stage::Unlinked,
            token: None,
            waiting: None,
            next_id: 0,
        }
    }

    /// Whether the client can be asked.
    pub(crate) fn is_ready(&self) -> bool
        ensures { IsTrue result ↔ IsReady self.now }
    {
        match self.stage {
            Stage::Ready => self.waiting.is_none(),
            _ => false,
        }
    }

    /// Whether the opening of its link is done.
    pub(crate) fn is_opened(&self) -> bool
        ensures { result ≡ is_opened self.now.stage }
    {
        match self.stage {
            Stage::Ready => true,
            _ => false,
        }
    }

    /// Whether a request of an opening was refused.
    pub(crate) fn is_lost(&self) -> bool
        ensures { result ≡ is_lost self.now.stage }
    {
        match self.stage {
            Stage::Lost => true,
            _ => false,
        }
    }

    /// The last call of the opening.
    fn session_call(&self) -> Result<Call<'static>, OutOfMemory>
        ensures call { IfOk result (λ call. call ≡ session_call self.now.token) }
        ensures fits { IfOk result (λ call. length (canonical_call call) ≤ payload_limit) }
        ensures spellable { IfOk result (λ call. IsSpellable call) }
    {
        match &self.token {
            None => Ok(Call::GetSessionToken {
                kind: 0,
                stamp: None,
                id: Bytes::new(self.alloc),
            }),
            Some(token) => Ok(Call::DisconnectOldSession {
                kind: 0,
                token: token.copy()?,
            }),
        }
    }

    /// Appends OpenSession with this id. An error changes nothing.
    fn put_open_session(id: u16, out: &mut Bytes) -> Result<(), OutOfMemory>
        ensures ok { OnOk result (out.new ≡ out.old ++ canonical_frame (open_session_frame id)) }
        ensures err { OnErr result (out.new ≡ out.old) }
    {
        let header = Header {
            reply: false,
            command: DsiCommand::OpenSession,
            id,
            word: 0,
            length: OPEN_OPTIONS.len() as u32,
        };
        write_frame(&header, &OPEN_OPTIONS, out)
    }

    /// Appends the request of a call without data, with this id. An error changes nothing.
    fn put_command(&self, call: &Call, id: u16, out: &mut Bytes) -> Result<(), OutOfMemory>
        requires spellable { IsSpellable call.now }
        requires fits { length (canonical_call call.now) ≤ payload_limit }
        ensures ok { OnOk result (out.new ≡ out.old ++ canonical_frame (command_frame id call.now)) }
        ensures err { OnErr result (out.new ≡ out.old) }
    {
        let mut block = Bytes::new(self.alloc);
        let mut piece = Bytes::new(self.alloc);
        write_call(self.alloc, call, &mut block, &mut piece)?;
        let header = Header {
            reply: false,
            command: DsiCommand::Command,
            id,
            word: 0,
            length: block.as_slice().len() as u32,
        };
        write_frame(&header, block.as_slice(), out)
    }

    /// Appends FPLogin, with this id. An error changes nothing.
    fn put_login(&self, id: u16, out: &mut Bytes) -> Result<(), OutOfMemory>
        ensures ok { OnOk result (out.new ≡ out.old ++ canonical_frame (command_frame id (login_call self.now.login))) }
        ensures err { OnErr result (out.new ≡ out.old) }
    {
        let call = self.login.call(self.alloc)?;
        self.put_command(&call, id, out)
    }

    /// Appends the last request of the opening, with this id. An error changes nothing.
    fn put_session(&self, id: u16, out: &mut Bytes) -> Result<(), OutOfMemory>
        ensures ok { OnOk result (out.new ≡ out.old ++ canonical_frame (command_frame id (session_call self.now.token))) }
        ensures err { OnErr result (out.new ≡ out.old) }
    {
        let call = self.session_call()?;
        self.put_command(&call, id, out)
    }

    /// Appends a request of the opening, with this id. An error changes nothing.
    fn put_opening(&self, step: OpeningStep, id: u16, out: &mut Bytes) -> Result<(), OutOfMemory>
        ensures ok { OnOk result (out.new ≡ out.old ++ canonical_frame (opening_frame self.now.login self.now.token step id)) }
        ensures err { OnErr result (out.new ≡ out.old) }
    {
        match step {
            OpeningStep::OpenSession => ClientMachine::put_open_session(id, out),
            OpeningStep::Login => self.put_login(id, out),
            OpeningStep::Session => self.put_session(id, out),
        }
    }

    /// Appends the request that waits, where there is one. An error changes nothing.
    fn put_waiting(&self, out: &mut Bytes) -> Result<(), OutOfMemory>
        ensures ok { OnOk result (out.new ≡ out.old ++ written (option_map (λ (w : Waiting). w.request) self.now.waiting)) }
        ensures err { OnErr result (out.new ≡ out.old) }
    {
        match &self.waiting {
            None => Ok(()),
            Some(request) => request.write(request.id(), out),
        }
    }

    /// A link begins: OpenSession is written. An error changes nothing.
    pub(crate) fn begin(&mut self, out: &mut Bytes) -> Result<(), OutOfMemory>
        ensures state { OnOk result (self.new ≡ begun self.old) }
        ensures frame { OnOk result (out.new ≡ out.old ++ canonical_frame (open_session_frame first_request_id)) }
        ensures same { OnErr result (self.new ≡ self.old) }
        ensures err { OnErr result (out.new ≡ out.old) }
    {
        ClientMachine::put_open_session(0, out)?;
        self.stage = match self.stage {
            Stage::Lost => Stage::Lost,
            _ => Stage::Opening {
                step: OpeningStep::OpenSession,
                id: 0,
                retries: 0,
            },
        };
        Ok(())
    }

    /// The link broke.
    pub(crate) fn lose_link(&mut self)
        ensures { self.new ≡ broken self.old }
    {
        self.stage = match self.stage {
            Stage::Lost => Stage::Lost,
            _ => Stage::Unlinked,
        };
    }

    /// Asks a call: its request is written, and waits. An error changes nothing.
    pub(crate) fn ask(&mut self, call: &Call, out: &mut Bytes) -> Result<(), OutOfMemory>
        requires spellable { IsSpellable call.now }
        requires fits { length (canonical_call call.now) + length (canonical_piece call.now) ≤ payload_limit }
        ensures state { OnOk result (self.new ≡ asked self.old call.now) }
        ensures frame { OnOk result (out.new ≡ out.old ++ canonical_frame (call_frame self.old.next_id call.now)) }
        ensures same { OnErr result (self.new ≡ self.old) }
        ensures err { OnErr result (out.new ≡ out.old) }
    {
        let request = Request::of(self.alloc, self.next_id, call)?;
        request.write(self.next_id, out)?;
        self.waiting = Some(request);
        self.next_id = id_after(self.next_id);
        Ok(())
    }

    /// Writes a request of the opening, with this id.
    fn write_opening(
        &mut self,
        step: OpeningStep,
        id: u16,
        retries: u8,
        out: &mut Bytes,
    ) -> Result<Option<Event>, OutOfMemory>
        ensures { Makes self.old out.old (Some (writes_opening self.old step id retries)) result self.new out.new }
    {
        self.put_opening(step, id, out)?;
        self.stage = Stage::Opening { step, id, retries };
        Ok(Some(Event::Step))
    }

    /// The link is opened again, for the session that the token names.
    fn reopen(&mut self, out: &mut Bytes) -> Result<Option<Event>, OutOfMemory>
        ensures { Makes self.old out.old (Some (opened self.old)) result self.new out.new }
    {
        self.put_waiting(out)?;
        self.stage = Stage::Ready;
        Ok(Some(Event::Ready))
    }

    /// The last request of the opening, with this id, is told Ok.
    fn take_session(
        &mut self,
        id: u16,
        payload: &[u8],
        out: &mut Bytes,
    ) -> Result<Option<Event>, OutOfMemory>
        ensures { Makes self.old out.old (session_told self.old self.old.token id payload.now) result self.new out.new }
    {
        if self.token.is_some() {
            return self.reopen(out);
        }
        let Some(token) = token_of(self.alloc, payload)? else {
            return Ok(None);
        };
        self.put_waiting(out)?;
        self.token = Some(token);
        self.next_id = id_after(id);
        self.stage = Stage::Ready;
        Ok(Some(Event::Ready))
    }

    /// What it is that a request of the opening is refused.
    fn refusal(&self, step: OpeningStep, code: Code) -> Event
        ensures event { result ≡ refusal self.now.token step code }
        ensures taken { IsTaken result }
    {
        match step {
            OpeningStep::OpenSession => Event::Refused { code },
            OpeningStep::Login => Event::Refused { code },
            OpeningStep::Session => match &self.token {
                None => Event::Refused { code },
                Some(_) => Event::Lost { code },
            },
        }
    }

    /// The reply to a request of the opening.
    fn take_opening(
        &mut self,
        step: OpeningStep,
        id: u16,
        retries: u8,
        code: Code,
        payload: &[u8],
        out: &mut Bytes,
    ) -> Result<Option<Event>, OutOfMemory>
        ensures { Makes self.old out.old (opening_replied self.old step id retries code payload.now) result self.new out.new }
    {
        if is_retried(code, retries) {
            return self.write_opening(step, id_after(id), retries + 1, out);
        }
        if code != Code::Ok {
            let event = self.refusal(step, code);
            self.stage = Stage::Lost;
            return Ok(Some(event));
        }
        match step {
            OpeningStep::OpenSession => {
                self.write_opening(OpeningStep::Login, id_after(id), 0, out)
            }
            OpeningStep::Login => self.write_opening(OpeningStep::Session, id_after(id), 0, out),
            OpeningStep::Session => self.take_session(id, payload, out),
        }
    }

    /// A reply on a link that is opened.
    fn take_told(
        &mut self,
        found: Option<Code>,
        header: &Header,
        payload: &[u8],
        out: &mut Bytes,
    ) -> Result<Option<Event>, OutOfMemory>
        ensures { Makes self.old out.old (ready_reply self.old self.old.waiting found (frame_of header.now payload.now)) result self.new out.new }
    {
        let Some(request) = &mut self.waiting else {
            return Ok(None);
        };
        if !request.is_answered_by(header) {
            return Ok(None);
        }
        let Some(code) = found else {
            return Ok(None);
        };
        if is_retried(code, request.retries()) {
            request.write_again(self.next_id, out)?;
            self.next_id = id_after(self.next_id);
            return Ok(Some(Event::Step));
        }
        let block = Bytes::of(self.alloc, payload)?;
        self.waiting = None;
        Ok(Some(Event::Told { code, block }))
    }

    /// A reply.
    fn take_reply(
        &mut self,
        found: Option<Code>,
        header: &Header,
        payload: &[u8],
        out: &mut Bytes,
    ) -> Result<Option<Event>, OutOfMemory>
        ensures { Makes self.old out.old (takes_reply self.old self.old.stage found (frame_of header.now payload.now)) result self.new out.new }
    {
        match self.stage {
            Stage::Unlinked => Ok(None),
            Stage::Opening { step, id, retries } => {
                if !answers(header, opening_command(step), id) {
                    return Ok(None);
                }
                let Some(code) = found else {
                    return Ok(None);
                };
                self.take_opening(step, id, retries, code, payload, out)
            }
            Stage::Ready => self.take_told(found, header, payload, out),
            Stage::Lost => Ok(None),
        }
    }

    /// An Attention: the reply is written.
    fn take_attention(
        &mut self,
        header: &Header,
        payload: &[u8],
        out: &mut Bytes,
    ) -> Result<Option<Event>, OutOfMemory>
        requires { header.now.command ≡ DsiCommand.Attention }
        ensures { Makes self.old out.old (takes_request self.old DsiCommand.Attention (frame_of header.now payload.now)) result self.new out.new }
    {
        if payload.len() != 2 {
            return Ok(None);
        }
        let reply = Header {
            reply: true,
            command: header.command,
            id: header.id,
            word: 0,
            length: 0,
        };
        write_frame(&reply, &[], out)?;
        Ok(Some(Event::Attention(BigEndian::read_u16(payload))))
    }

    /// A request of the server's.
    fn take_request(
        &mut self,
        header: &Header,
        payload: &[u8],
        out: &mut Bytes,
    ) -> Result<Option<Event>, OutOfMemory>
        ensures { Makes self.old out.old (takes_request self.old header.now.command (frame_of header.now payload.now)) result self.new out.new }
    {
        match header.command {
            DsiCommand::Tickle => Ok(Some(Event::Tickle)),
            DsiCommand::CloseSession => Ok(Some(Event::Closed)),
            DsiCommand::Attention => self.take_attention(header, payload, out),
            DsiCommand::Command => Ok(None),
            DsiCommand::Write => Ok(None),
            DsiCommand::GetStatus => Ok(None),
            DsiCommand::OpenSession => Ok(None),
        }
    }

    /// Takes a frame, where it may come. An error: there was no memory, and nothing changed.
    pub(crate) fn take(
        &mut self,
        header: &Header,
        payload: &[u8],
        out: &mut Bytes,
    ) -> Result<Option<Event>, OutOfMemory>
        ensures { (found : Option Code) × IsCodeIn header.now.word found × Makes self.old out.old (takes self.old found (frame_of header.now payload.now)) result self.new out.new }
    {
        let found = code_in(header.word);
        if header.reply {
            self.take_reply(found, header, payload, out)
        } else {
            self.take_request(header, payload, out)
        }
    }
}
