//! Serving the whole frames that are buffered.
ghost use Rattle.std.specs.Prelude.{◌≡◌, ◌≢◌, ◌<◌, ℕ, length, IfNone};
ghost use Rattle.afp_outside.specs.ends.Gate.{with_exited};
ghost use Rattle.dsi_frame.specs.Frame.{Frame, header_of};
ghost use Rattle.dsi_frame.specs.Stream.{Begins};
ghost use Rattle.afp_server.specs.link.lemma.Serving.{ServesFrame, ServesFrames, end_of_frame};
ghost use Rattle.afp_server.specs.link.Progress.{Start, SoFar, point};

use crate::link::requests::LinkRequests;
use crate::link::serve::LinkEnd;
use crate::link::session::LinkSession;
use crate::link::stage::{FrameEnd, Stage};
use afp_base::LinkNumber;
use afp_outside::{Gate, Link, send_all};
use afp_serial::Teller;
use dsi_frame::{BadFrame, Deframer, Head, Header};

/// Serves every whole frame that is buffered, in order, and says why the link ends, where a frame ends it.
pub fn serve_frames<L: Link, T: Teller, G: Gate>(
    deframer: &mut Deframer,
    session: &mut LinkSession,
    requests: &mut LinkRequests,
    link: &mut L,
    teller: &mut T,
    gate: &G,
    log: &mut G::Log,
) -> Option<LinkEnd>
    requires { session.old.stage ≢ Stage.Closing }
    ensures fixed { T.fixed teller.new ≡ T.fixed teller.old }
    ensures block { session.new.block ≡ session.old.block }
    ensures live { IfNone result (session.new.stage ≢ Stage.Closing) }
    ensures serves { (start : Start) (cost : ℕ) → start.block ≡ session.old.block
        → SoFar start (point deframer.old session.old.stage requests.old (L.link_state link.old) (T.shown teller.old) (G.passed log.old)) cost
        → ServesFrames start cost result (point deframer.new session.new.stage requests.new (L.link_state link.new) (T.shown teller.new) (G.passed log.new)) }
{
    loop {
        match deframer.head() {
            Head::NotYet => return None,
            Head::Bad(bad) => return Some(LinkEnd::Bad(bad)),
            Head::Whole(header) => {
                if let Some(end) = serve_frame(
                    &header, deframer, session, requests, link, teller, gate, log,
                ) {
                    return Some(end);
                }
            }
        }
    }
}

/// Serves the whole frame at the front, and writes its reply; a call leaves the gate only then.
fn serve_frame<L: Link, T: Teller, G: Gate>(
    header: &Header,
    deframer: &mut Deframer,
    session: &mut LinkSession,
    requests: &mut LinkRequests,
    link: &mut L,
    teller: &mut T,
    gate: &G,
    log: &mut G::Log,
) -> Option<LinkEnd>
    requires whole { (f : Frame) × Begins deframer.old.rest f × (header.now ≡ header_of f) }
    requires live { session.old.stage ≢ Stage.Closing }
    ensures fixed { T.fixed teller.new ≡ T.fixed teller.old }
    ensures block { session.new.block ≡ session.old.block }
    ensures live { IfNone result (session.new.stage ≢ Stage.Closing) }
    ensures less { IfNone result (length deframer.new.rest < length deframer.old.rest) }
    ensures serves { (start : Start) (cost : ℕ) → start.block ≡ session.old.block
        → SoFar start (point deframer.old session.old.stage requests.old (L.link_state link.old) (T.shown teller.old) (G.passed log.old)) cost
        → ServesFrame start cost result (point deframer.new session.new.stage requests.new (L.link_state link.new) (T.shown teller.new) (G.passed log.new)) }
{
    let now = link.now();
    let called = session.called_link(header);
    let Ok(end) = session.handle(header, deframer.payload(), now, teller, gate, log) else {
        return Some(LinkEnd::Memory);
    };
    let reply = session.reply();
    requests.note_reply(reply, now);
    if !send_all(link, reply) {
        return Some(LinkEnd::WriteFault);
    }
    exit_gate(gate, called, log);
    match end {
        None => {
            deframer.advance();
            None
        }
        Some(end) => Some(link_end(end, deframer.place())),
    }
}

/// The call of a link leaves the gate, where one entered.
pub fn exit_gate<G: Gate>(gate: &G, called: Option<LinkNumber>, log: &mut G::Log)
    ensures { G.passed log.new ≡ with_exited (G.passed log.old) called }
{
    match called {
        Some(number) => gate.after(number, log),
        None => {}
    }
}

/// Why a link ended, by the frame that ended it, which begins at this place.
pub fn link_end(end: FrameEnd, at: u64) -> LinkEnd
    ensures { result ≡ end_of_frame end at }
{
    match end {
        FrameEnd::Closed => LinkEnd::Closed,
        FrameEnd::Displaced => LinkEnd::Displaced,
        FrameEnd::Bad(reason) => LinkEnd::Bad(BadFrame { at, reason }),
    }
}
