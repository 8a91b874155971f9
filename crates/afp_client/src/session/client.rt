//! A client, over the bytes of its links.
ghost use Rattle.std.specs.Prelude.{◌≡◌, ◌≢◌, ◌+◌, ◌-◌, ◌<◌, ◌≤◌, ◌^◌, ◌↔◌, ◌++◌, [], Some, None, length, take, min, IfOk, OnOk, OnErr, IsTrue, false};
ghost use Rattle.afp_base.specs.Limits.{payload_limit};
ghost use Rattle.dsi_frame.specs.Buffered.{buffer_length};
ghost use Rattle.dsi_frame.specs.Frame.{Frame, canonical_frame, header_of};
ghost use Rattle.dsi_frame.specs.Stream.{Begins};
ghost use Rattle.dsi_session.specs.RequestIds.{first_request_id};
ghost use Rattle.afp_calls_grammar.specs.grammar.Call.{IsSpellable, canonical_call, canonical_piece};
ghost use Rattle.afp_client.specs.session.Opening.{FitsLogin, open_session_frame};
ghost use Rattle.afp_client.specs.session.State.{IsReady, call_frame, is_lost, is_of_opening, is_opened};
ghost use Rattle.afp_client.specs.session.Takes.{asked, begun, broken};
ghost use Rattle.afp_client.specs.session.Happens.{Happens};

use crate::session::event::Event;
use crate::session::login::Login;
use crate::session::stage::Stage;
use crate::session::state::ClientMachine;
use afp_base::{Bytes, OutOfMemory};
use afp_calls_grammar::Call;
use dsi_frame::{Deframer, Head, Header};
use std::alloc::Global;
use std::marker::Model;

/// A client: it opens a link, writes one request at a time, and takes what comes.
///
/// Contracts see its state, and what it holds of the bytes of its link.
#[derive(Drop)]
pub struct ClientCore {
    deframer: Deframer,
    machine: ClientMachine,
}

impl Model for ClientCore {
    ghost use Rattle.afp_client.specs.session.State.{Client};

    ghost Value = { Client };

    ghost view = { λ c. record { state = c.machine; held = c.deframer } };
}

impl ClientCore {
    /// A client without a link. The one error is want of memory.
    pub fn new(alloc: Global, login: Login) -> Result<ClientCore, OutOfMemory>
        requires { FitsLogin login }
        ensures { IfOk result (λ c. c ≡ record {
          state = record { login = login; stage = Stage.Unlinked; token = None; waiting = None; next_id = 0 };
          held = record { place = 0; rest = [] };
        }) }
    {
        Ok(ClientCore {
            deframer: Deframer::new(alloc)?,
            machine: ClientMachine::new(alloc, login),
        })
    }

    /// Whether the client can be asked: its link is opened, and no request waits.
    pub fn ready(&self) -> bool
        ensures { IsTrue result ↔ IsReady self.now.state }
    {
        self.machine.is_ready()
    }

    /// Whether the opening of its link is done.
    pub fn opened(&self) -> bool
        ensures { result ≡ is_opened self.now.state.stage }
    {
        self.machine.is_opened()
    }

    /// Begins a link: writes OpenSession. An error changes nothing.
    pub fn start(&mut self, out: &mut Bytes) -> Result<(), OutOfMemory>
        ensures state { OnOk result (self.new ≡ record { state = begun self.old.state; held = record { place = 0; rest = [] } }) }
        ensures frame { OnOk result (out.new ≡ out.old ++ canonical_frame (open_session_frame first_request_id)) }
        ensures same { OnErr result (self.new ≡ self.old) }
        ensures err { OnErr result (out.new ≡ out.old) }
    {
        self.machine.begin(out)?;
        self.deframer.restart();
        Ok(())
    }

    /// Asks a call: its request is written, and waits for its reply. An error changes nothing.
    pub fn ask(&mut self, call: &Call, out: &mut Bytes) -> Result<(), OutOfMemory>
        requires ready { IsReady self.old.state }
        requires command { is_of_opening call.now ≡ false }
        requires spellable { IsSpellable call.now }
        requires fits { length (canonical_call call.now) + length (canonical_piece call.now) ≤ payload_limit }
        ensures state { OnOk result (self.new ≡ record self.old { state = asked self.old.state call.now }) }
        ensures frame { OnOk result (out.new ≡ out.old ++ canonical_frame (call_frame self.old.state.next_id call.now)) }
        ensures same { OnErr result (self.new ≡ self.old) }
        ensures err { OnErr result (out.new ≡ out.old) }
    {
        self.machine.ask(call, out)
    }

    /// Takes bytes of the piece that came on the link, as many as there is room for, and answers how many. Fewer than 2^64 bytes are
    /// fed in all on one link.
    pub fn feed(&mut self, piece: &[u8]) -> usize
        requires { self.old.held.place + length self.old.held.rest + length piece.now < 2 ^ 64 }
        ensures taken { result ≡ min (length piece.now) (buffer_length - length self.old.held.rest) }
        ensures rest { self.new.held.rest ≡ self.old.held.rest ++ take result piece.now }
        ensures place { self.new.held.place ≡ self.old.held.place }
        ensures state { self.new.state ≡ self.old.state }
    {
        self.deframer.feed(piece)
    }

    /// The place on the link of the next frame, in bytes from the link's first.
    pub fn place(&self) -> u64
        ensures { result ≡ self.now.held.place }
    {
        self.deframer.place()
    }

    /// For how many bytes there is room.
    pub fn room(&self) -> usize
        ensures { result ≡ buffer_length - length self.now.held.rest }
    {
        self.deframer.room()
    }

    /// What the next frame does, and what it writes.
    pub fn event(&mut self, out: &mut Bytes) -> Event
        ensures happens { Happens self.old out.old result self.new out.new }
        ensures room { result ≡ Event.NotYet → is_lost self.new.state.stage ≡ false → length self.new.held.rest < buffer_length }
    {
        take_next(&mut self.deframer, &mut self.machine, out)
    }

    /// The link broke: what came on it is dropped. The token, and a request that waits, stay.
    pub fn broke(&mut self)
        ensures { self.new ≡ record { state = broken self.old.state; held = record { place = 0; rest = [] } } }
    {
        self.machine.lose_link();
        self.deframer.restart();
    }
}

/// What the next frame does, and what it writes.
fn take_next(deframer: &mut Deframer, machine: &mut ClientMachine, out: &mut Bytes) -> Event
    ensures happens { Happens (record { state = machine.old; held = deframer.old }) out.old result (record { state = machine.new; held = deframer.new }) out.new }
    ensures room { result ≡ Event.NotYet → is_lost machine.new.stage ≡ false → length deframer.new.rest < buffer_length }
{
    if machine.is_lost() {
        return Event::NotYet;
    }
    match deframer.head() {
        Head::NotYet => Event::NotYet,
        Head::Bad(bad) => Event::Bad { at: bad.at },
        Head::Whole(header) => take_whole(&header, deframer, machine, out),
    }
}

/// Takes the whole frame at the front.
fn take_whole(
    header: &Header,
    deframer: &mut Deframer,
    machine: &mut ClientMachine,
    out: &mut Bytes,
) -> Event
    requires live { is_lost machine.old.stage ≡ false }
    requires whole { (f : Frame) × Begins deframer.old.rest f × (header.now ≡ header_of f) }
    ensures happens { Happens (record { state = machine.old; held = deframer.old }) out.old result (record { state = machine.new; held = deframer.new }) out.new }
    ensures some { result ≢ Event.NotYet }
{
    match machine.take(header, deframer.payload(), out) {
        Err(_) => Event::Memory,
        Ok(None) => Event::Bad {
            at: deframer.place(),
        },
        Ok(Some(event)) => {
            deframer.advance();
            event
        }
    }
}
