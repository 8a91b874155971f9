//! The lines of a made capture, each of which is replayed as it is made.
ghost use Rattle.std.specs.Prelude.{◌≡◌, ◌<◌, ◌++◌, ◌∷◌, [], ℕ, List, OnOk};
ghost use Rattle.capture_log.specs.Taking.{IsCapture, IsLink};
ghost use Rattle.capture_log_server.specs.CaptureState.{CaptureState};
ghost use Rattle.capture_log.specs.Standing.{uncompared};
ghost use Rattle.capture_log_lines.specs.made.Lines.{house_lines, end_line, in_line, out_line};
ghost use Rattle.afp_client.specs.session.State.{call_frame};
ghost use Rattle.capture_made.specs.requests.Requests.{after, first_moment, login, most_steps, open_session, open_volume, opening, request, request_of};
ghost use Rattle.capture_made.specs.made.lemma.Adding.{Adds, Exchanged, Takes};

use crate::requests::{Request, Steps, login, open_session, open_volume};
use afp_base::{Bytes, OutOfMemory};
use capture_log::Capture;
use capture_log_lines::{put_in_line, put_out_line};
use capture_log_server::TellerMaker;
use std::alloc::Global;

/// Takes a line. None of those that are made is refused.
fn take<M: TellerMaker>(capture: &mut Capture<M>, line: &[u8]) -> Result<(), OutOfMemory>
    requires { (s : CaptureState) × IsCapture capture.old s }
    ensures takes { OnOk result ((s : CaptureState) → IsCapture capture.old s → Takes s line.now capture.new) }
    ensures stands { OnOk result ((s : CaptureState) × IsCapture capture.new s) }
{
    match capture.take(line)? {
        None => Ok(()),
        Some(_) => Err(OutOfMemory),
    }
}

/// Takes a line that ends with its newline, and appends it to the text.
fn add<M: TellerMaker>(
    capture: &mut Capture<M>,
    ended: &[u8],
    text: &mut Bytes,
) -> Result<(), OutOfMemory>
    requires { (s : CaptureState) × IsCapture capture.old s }
    ensures stands { OnOk result ((s : CaptureState) × IsCapture capture.new s) }
    ensures adds { OnOk result ((s : CaptureState) (line : List ℕ) → IsCapture capture.old s → ended.now ≡ line ++ 10 ∷ []
        → Adds s (line ∷ []) text.old capture.new text.new) }
{
    let size = ended.len().saturating_sub(1);
    take(capture, &ended[..size])?;
    text.extend(ended)
}

/// Adds the lines of the house.
pub(crate) fn add_house<M: TellerMaker>(
    capture: &mut Capture<M>,
    text: &mut Bytes,
) -> Result<(), OutOfMemory>
    requires { (s : CaptureState) × IsCapture capture.old s }
    ensures stands { OnOk result ((s : CaptureState) × IsCapture capture.new s) }
    ensures adds { OnOk result ((s : CaptureState) → IsCapture capture.old s → Adds s house_lines text.old capture.new text.new) }
{
    add(capture, b"afp-capture 1\n", text)?;
    add(capture, b"server Mac\n", text)?;
    add(
        capture,
        b"signature 000102030405060708090a0b0c0d0e0f\n",
        text,
    )?;
    add(capture, b"volume Share\n", text)?;
    add(
        capture,
        b"key 0000000000000000000000000000000000000000000000000000000000000000\n",
        text,
    )
}

/// Adds the last line.
pub(crate) fn add_end<M: TellerMaker>(
    capture: &mut Capture<M>,
    text: &mut Bytes,
) -> Result<(), OutOfMemory>
    requires { (s : CaptureState) × IsCapture capture.old s }
    ensures stands { OnOk result ((s : CaptureState) × IsCapture capture.new s) }
    ensures adds { OnOk result ((s : CaptureState) → IsCapture capture.old s → Adds s (end_line ∷ []) text.old capture.new text.new) }
{
    add(capture, b"end\n", text)
}

/// Adds a request.
fn add_request<M: TellerMaker>(
    alloc: Global,
    capture: &mut Capture<M>,
    request: &Request,
    text: &mut Bytes,
) -> Result<(), OutOfMemory>
    requires { (s : CaptureState) × IsCapture capture.old s }
    ensures stands { OnOk result ((s : CaptureState) × IsCapture capture.new s) }
    ensures adds { OnOk result ((s : CaptureState) → IsCapture capture.old s
        → Adds s (in_line request.now.link request.now.at request.now.frame ∷ []) text.old capture.new text.new) }
{
    let mut line = Bytes::new(alloc);
    put_in_line(
        alloc,
        request.link,
        request.at,
        request.frame.as_slice(),
        &mut line,
    )?;
    add(capture, line.as_slice(), text)
}

/// Adds the reply to it.
fn add_reply<M: TellerMaker>(
    alloc: Global,
    capture: &mut Capture<M>,
    request: &Request,
    text: &mut Bytes,
) -> Result<(), OutOfMemory>
    requires link { IsLink request.now.link }
    requires is { (s : CaptureState) × IsCapture capture.old s }
    ensures stands { OnOk result ((s : CaptureState) × IsCapture capture.new s) }
    ensures adds { OnOk result ((s : CaptureState) → IsCapture capture.old s
        → Adds s (out_line request.now.link request.now.at (uncompared (s.connections request.now.link)) ∷ []) text.old capture.new text.new) }
{
    let mut line = Bytes::new(alloc);
    put_out_line(
        alloc,
        request.link,
        request.at,
        capture.uncompared(request.link),
        &mut line,
    )?;
    add(capture, line.as_slice(), text)
}

/// Adds a request and the reply to it.
fn exchange<M: TellerMaker>(
    alloc: Global,
    capture: &mut Capture<M>,
    request: &Request,
    text: &mut Bytes,
) -> Result<(), OutOfMemory>
    requires link { IsLink request.now.link }
    requires is { (s : CaptureState) × IsCapture capture.old s }
    ensures stands { OnOk result ((s : CaptureState) × IsCapture capture.new s) }
    ensures exchanged { OnOk result ((s : CaptureState) → IsCapture capture.old s → Exchanged s (request.now ∷ []) text.old capture.new text.new) }
{
    add_request(alloc, capture, request, text)?;
    add_reply(alloc, capture, request, text)
}

/// Adds DSIOpenSession, with its reply.
fn add_open_session<M: TellerMaker>(
    alloc: Global,
    capture: &mut Capture<M>,
    link: u32,
    text: &mut Bytes,
) -> Result<(), OutOfMemory>
    requires link { IsLink link }
    requires is { (s : CaptureState) × IsCapture capture.old s }
    ensures stands { OnOk result ((s : CaptureState) × IsCapture capture.new s) }
    ensures exchanged { OnOk result ((s : CaptureState) → IsCapture capture.old s → Exchanged s (request link first_moment open_session ∷ []) text.old capture.new text.new) }
{
    let request = open_session(alloc, link)?;
    exchange(alloc, capture, &request, text)
}

/// Adds FPLogin, with its reply.
fn add_login<M: TellerMaker>(
    alloc: Global,
    capture: &mut Capture<M>,
    link: u32,
    text: &mut Bytes,
) -> Result<(), OutOfMemory>
    requires link { IsLink link }
    requires is { (s : CaptureState) × IsCapture capture.old s }
    ensures stands { OnOk result ((s : CaptureState) × IsCapture capture.new s) }
    ensures exchanged { OnOk result ((s : CaptureState) → IsCapture capture.old s → Exchanged s (request link first_moment (call_frame 1 login) ∷ []) text.old capture.new text.new) }
{
    let request = login(alloc, link)?;
    exchange(alloc, capture, &request, text)
}

/// Adds FPOpenVol, with its reply.
fn add_open_volume<M: TellerMaker>(
    alloc: Global,
    capture: &mut Capture<M>,
    link: u32,
    text: &mut Bytes,
) -> Result<(), OutOfMemory>
    requires link { IsLink link }
    requires is { (s : CaptureState) × IsCapture capture.old s }
    ensures stands { OnOk result ((s : CaptureState) × IsCapture capture.new s) }
    ensures exchanged { OnOk result ((s : CaptureState) → IsCapture capture.old s → Exchanged s (request link first_moment (call_frame 2 open_volume) ∷ []) text.old capture.new text.new) }
{
    let request = open_volume(alloc, link)?;
    exchange(alloc, capture, &request, text)
}

/// Adds the requests that open a connection, with their replies.
pub(crate) fn add_connection<M: TellerMaker>(
    alloc: Global,
    capture: &mut Capture<M>,
    link: u32,
    text: &mut Bytes,
) -> Result<(), OutOfMemory>
    requires link { IsLink link }
    requires is { (s : CaptureState) × IsCapture capture.old s }
    ensures stands { OnOk result ((s : CaptureState) × IsCapture capture.new s) }
    ensures exchanged { OnOk result ((s : CaptureState) → IsCapture capture.old s → Exchanged s (opening link) text.old capture.new text.new) }
{
    add_open_session(alloc, capture, link, text)?;
    add_login(alloc, capture, link, text)?;
    add_open_volume(alloc, capture, link, text)
}

/// Adds the request of the next step, with its reply.
pub(crate) fn add_step<M: TellerMaker>(
    alloc: Global,
    capture: &mut Capture<M>,
    steps: &mut Steps,
    text: &mut Bytes,
) -> Result<(), OutOfMemory>
    requires more { steps.old.steps < most_steps }
    requires is { (s : CaptureState) × IsCapture capture.old s }
    ensures after { OnOk result (steps.new ≡ after steps.old) }
    ensures stands { OnOk result ((s : CaptureState) × IsCapture capture.new s) }
    ensures exchanged { OnOk result ((s : CaptureState) → IsCapture capture.old s → Exchanged s (request_of steps.old ∷ []) text.old capture.new text.new) }
{
    let request = steps.next(alloc)?;
    exchange(alloc, capture, &request, text)
}
