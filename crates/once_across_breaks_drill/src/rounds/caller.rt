//! The client, to which whole replies come.
ghost use Rattle.std.specs.Prelude.{◌≡◌, ◌+◌, ◌<◌, ◌≤◌, ◌^◌, ◌++◌, ◌↔◌, false, None, length, IfOk, OnOk, OnErr, IsTrue};
ghost use Rattle.afp_base.specs.Limits.{payload_limit};
ghost use Rattle.afp_base.specs.declared.code.Code.{Code};
ghost use Rattle.afp_calls_grammar.specs.grammar.Call.{IsSpellable, canonical_call, canonical_piece};
ghost use Rattle.afp_client.specs.session.Opening.{FitsLogin, open_session_frame};
ghost use Rattle.afp_client.specs.session.State.{IsReady, call_frame, is_of_opening};
ghost use Rattle.afp_client.specs.session.Takes.{Step, asked, begun, broken, written};
ghost use Rattle.afp_client.specs.declared.session.stage.Stage.{Stage};
ghost use Rattle.dsi_frame.specs.Frame.{Frame, canonical_frame};
ghost use Rattle.dsi_session.specs.RequestIds.{first_request_id};
ghost use Rattle.once_across_breaks_drill.specs.rounds.Callers.{IsNextStep};
ghost use Rattle.once_across_breaks_drill.specs.rounds.lemma.Whole.{is_memory};

use afp_base::{Bytes, OutOfMemory};
use afp_calls_grammar::Call;
use afp_client::{ClientCore, Event, Login, the_next_frame_decides};
use dsi_frame::one_frame;
use std::alloc::Global;
use std::marker::Model;

/// A client, between two replies.
///
/// Contracts see its state.
#[derive(Drop)]
pub struct Caller {
    client: ClientCore,
    came: u64,
}

impl Model for Caller {
    ghost use Rattle.afp_client.specs.session.State.{ClientState};
    ghost use Rattle.once_across_breaks_drill.specs.rounds.Callers.{IsAwaiting};

    ghost Value = { ClientState };

    ghost view = { λ c. c.client.state };

    ghost invariant = { λ c. IsAwaiting c.client c.came };
}

/// Whether there was no memory.
fn is_memory(event: &Event) -> bool
    ensures { result ≡ is_memory event.now }
{
    matches!(event, Event::Memory)
}

impl Caller {
    /// A client without a link. The one error is want of memory.
    pub fn new(alloc: Global, login: Login) -> Result<Caller, OutOfMemory>
        requires { FitsLogin login }
        ensures { IfOk result (λ c. c ≡ record { login = login; stage = Stage.Unlinked; token = None; waiting = None; next_id = 0 }) }
    {
        let client = ClientCore::new(alloc, login)?;
        Ok(Caller { client, came: 0 })
    }

    /// The client itself.
    pub fn into_client(self) -> ClientCore
        ensures { result.state ≡ self }
    {
        self.client
    }

    /// Whether the client can be asked: its link is opened, and no request waits.
    pub fn ready(&self) -> bool
        ensures { IsTrue result ↔ IsReady self.now }
    {
        self.client.ready()
    }

    /// Begins a link: writes OpenSession. An error changes nothing.
    pub fn start(&mut self, out: &mut Bytes) -> Result<(), OutOfMemory>
        ensures state { OnOk result (self.new ≡ begun self.old) }
        ensures frame { OnOk result (out.new ≡ out.old ++ canonical_frame (open_session_frame first_request_id)) }
        ensures same { OnErr result (self.new ≡ self.old) }
        ensures err { OnErr result (out.new ≡ out.old) }
    {
        self.client.start(out)
    }

    /// Asks a call: its request is written, and waits for its reply. An error changes nothing.
    pub fn ask(&mut self, call: &Call, out: &mut Bytes) -> Result<(), OutOfMemory>
        requires ready { IsReady self.old }
        requires command { is_of_opening call.now ≡ false }
        requires spellable { IsSpellable call.now }
        requires fits { length (canonical_call call.now) + length (canonical_piece call.now) ≤ payload_limit }
        ensures state { OnOk result (self.new ≡ asked self.old call.now) }
        ensures frame { OnOk result (out.new ≡ out.old ++ canonical_frame (call_frame self.old.next_id call.now)) }
        ensures same { OnErr result (self.new ≡ self.old) }
        ensures err { OnErr result (out.new ≡ out.old) }
    {
        self.client.ask(call, out)
    }

    /// The link broke. The token, and a request that waits, stay.
    pub fn broke(&mut self)
        ensures { self.new ≡ broken self.old }
    {
        self.client.broke();
    }

    /// A whole reply comes: what it does, and the client behind it; what the client writes with it is appended to `out`. The one error is want of
    /// memory: the client is gone then.
    pub fn take(self, reply: &[u8], out: &mut Bytes) -> Result<(Caller, Event), OutOfMemory>
        requires { (f : Frame) × (code : Code) × (does : Step) × IsNextStep self reply.now f code does }
        ensures { IfOk result (λ taken. (f : Frame) (code : Code) (does : Step) → IsNextStep self reply.now f code does
            → (taken.0 ≡ does.state) × (taken.1 ≡ does.event) × (out.new ≡ out.old ++ written does.writes)) }
    {
        the_next_frame_decides();
        one_frame();
        let Some(came) = self.came.checked_add(reply.len() as u64) else {
            return Err(OutOfMemory);
        };
        let mut client = self.client;
        let _size = client.feed(reply);
        let event = client.event(out);
        if is_memory(&event) {
            return Err(OutOfMemory);
        }
        Ok((Caller { client, came }, event))
    }
}
