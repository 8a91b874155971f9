//! A request that waits for its reply.
ghost use Rattle.std.specs.Prelude.{[], ◌≡◌, ◌+◌, ◌<◌, ◌≤◌, ◌++◌, length, nat_le, is_some, IfOk, OnOk, OnErr};
ghost use Rattle.afp_base.specs.Limits.{payload_limit};
ghost use Rattle.dsi_frame.specs.Frame.{WordFits, canonical_frame, frame_of};
ghost use Rattle.afp_calls_grammar.specs.grammar.Call.{IsSpellable, canonical_call, canonical_data, canonical_piece};
ghost use Rattle.afp_client.specs.session.State.{call_frame};
ghost use Rattle.afp_client.specs.session.lemma.Requests.{call_header};
ghost use Rattle.afp_client.specs.session.Takes.{answers, most_retries, with_id};

use afp_base::{Bytes, MAX_PAYLOAD, OutOfMemory};
use afp_calls::write_call;
use afp_calls_grammar::Call;
use dsi_frame::{DsiCommand, Header, write_frame};
use std::alloc::Global;
use std::marker::Model;

/// Whether a frame can carry the bytes of a call. The one error is want of memory.
pub fn fits_frame(alloc: Global, call: &Call) -> Result<bool, OutOfMemory>
    requires { IsSpellable call.now }
    ensures { IfOk result (λ fits. fits ≡ nat_le (length (canonical_call call.now) + length (canonical_piece call.now)) payload_limit) }
{
    let mut block = Bytes::new(alloc);
    let mut piece = Bytes::new(alloc);
    write_call(alloc, call, &mut block, &mut piece)?;
    Ok(block.as_slice().len() + piece.as_slice().len() <= MAX_PAYLOAD as usize)
}

/// Appends the frame of a call's request, with this id. An error changes nothing.
pub fn put_call(alloc: Global, id: u16, call: &Call, out: &mut Bytes) -> Result<(), OutOfMemory>
    requires spellable { IsSpellable call.now }
    requires fits { length (canonical_call call.now) + length (canonical_piece call.now) ≤ payload_limit }
    ensures ok { OnOk result (out.new ≡ out.old ++ canonical_frame (call_frame id call.now)) }
    ensures err { OnErr result (out.new ≡ out.old) }
{
    let request = Request::of(alloc, id, call)?;
    request.write(id, out)
}

/// Whether a call has data, so that it comes in a Write frame.
#[tactic(auto, unfolding(afp_calls_grammar::specs::grammar::Call::canonical_data))]
fn has_data(call: &Call) -> bool
    ensures { result ≡ is_some (canonical_data call.now) }
{
    match call {
        Call::Write { .. } => true,
        Call::WriteExt { .. } => true,
        Call::AddIcon { .. } => true,
        _ => false,
    }
}

/// The header of a call with this id: its data, where it has some, begin at this place of its payload.
fn header_of_call(has_piece: bool, id: u16, place: u32, length: u32) -> Header
    ensures header { result ≡ call_header has_piece id place length }
    ensures word { place ≤ length → WordFits result.reply result.command result.word length }
{
    Header {
        reply: false,
        command: if has_piece {
            DsiCommand::Write
        } else {
            DsiCommand::Command
        },
        id,
        word: if has_piece { place } else { 0 },
        length,
    }
}

/// Whether a frame has the command and the id of a request.
pub(crate) fn answers(header: &Header, command: DsiCommand, id: u16) -> bool
    ensures { result ≡ answers command id (frame_of header.now []) }
{
    header.command == command && header.id == id
}

/// A request that waits, and how often it was written again because it was told that there was no memory.
#[derive(Drop)]
pub(crate) struct Request {
    header: Header,
    payload: Bytes,
    retries: u8,
}

impl Model for Request {
    ghost use Rattle.std.specs.Prelude.{◌≡◌, ◌≤◌, length};
    ghost use Rattle.afp_base.specs.Limits.{payload_limit};
    ghost use Rattle.dsi_frame.specs.Frame.{WordFits, frame_of};
    ghost use Rattle.afp_client.specs.session.State.{Waiting};

    ghost Value = { Waiting };

    ghost view = { λ r. record { request = frame_of r.header r.payload; retries = r.retries } };

    ghost invariant = { λ r. (r.header.length ≡ length r.payload) × (r.header.length ≤ payload_limit) × WordFits r.header.reply r.header.command r.header.word r.header.length };
}

impl Request {
    /// The request of a call, with this id. The one error is want of memory.
    pub(crate) fn of(alloc: Global, id: u16, call: &Call) -> Result<Request, OutOfMemory>
        requires spellable { IsSpellable call.now }
        requires fits { length (canonical_call call.now) + length (canonical_piece call.now) ≤ payload_limit }
        ensures { IfOk result (λ r. r ≡ record { request = call_frame id call.now; retries = 0 }) }
    {
        let mut payload = Bytes::new(alloc);
        let mut piece = Bytes::new(alloc);
        write_call(alloc, call, &mut payload, &mut piece)?;
        let place = payload.as_slice().len() as u32;
        payload.extend(piece.as_slice())?;
        let length = payload.as_slice().len() as u32;
        let header = header_of_call(has_data(call), id, place, length);
        Ok(Request {
            header,
            payload,
            retries: 0,
        })
    }

    /// Whether a frame has its command and id.
    pub(crate) fn is_answered_by(&self, header: &Header) -> bool
        ensures { result ≡ answers self.now.request.command self.now.request.id (frame_of header.now []) }
    {
        answers(header, self.header.command, self.header.id)
    }

    /// How often it was written again because it was told that there was no memory.
    pub(crate) fn retries(&self) -> u8
        ensures { result ≡ self.now.retries }
    {
        self.retries
    }

    /// Its id.
    pub(crate) fn id(&self) -> u16
        ensures { result ≡ self.now.request.id }
    {
        self.header.id
    }

    /// Appends its frame under this id. An error changes nothing.
    pub(crate) fn write(&self, id: u16, out: &mut Bytes) -> Result<(), OutOfMemory>
        ensures ok { OnOk result (out.new ≡ out.old ++ canonical_frame (with_id self.now.request id)) }
        ensures err { OnErr result (out.new ≡ out.old) }
    {
        let header = Header { id, ..self.header };
        write_frame(&header, self.payload.as_slice(), out)
    }

    /// Appends its frame under another id, which is its own from now on. An error changes nothing.
    pub(crate) fn write_again(&mut self, id: u16, out: &mut Bytes) -> Result<(), OutOfMemory>
        requires { self.old.retries < most_retries }
        ensures frame { OnOk result (out.new ≡ out.old ++ canonical_frame (with_id self.old.request id)) }
        ensures now { OnOk result (self.new ≡ record { request = with_id self.old.request id; retries = self.old.retries + 1 }) }
        ensures err { OnErr result (out.new ≡ out.old) }
        ensures same { OnErr result (self.new ≡ self.old) }
    {
        self.write(id, out)?;
        self.header = Header { id, ..self.header };
        self.retries += 1;
        Ok(())
    }
}
