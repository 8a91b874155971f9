//! The frames of requests.
ghost use Rattle.std.specs.Prelude.{◌≡◌, IfOk};
ghost use Rattle.dsi_frame.specs.Frame.{canonical_frame};
ghost use Rattle.afp_calls_grammar.specs.grammar.Call.{IsSpellable};
ghost use Rattle.afp_client.specs.session.State.{call_frame};
ghost use Rattle.capture_made.specs.requests.Requests.{call_of, login, open_session, open_volume};

use crate::requests::calls;
use afp_base::{Bytes, OutOfMemory};
use afp_calls::Call;
use afp_client::{fits_frame, put_call};
use dsi_frame::{DsiCommand, Header, write_frame};
use std::alloc::Global;

/// The bytes of a call's request, with this id. The one error is want of memory.
pub(crate) fn call_bytes(alloc: Global, id: u16, call: &Call) -> Result<Bytes, OutOfMemory>
    requires { IsSpellable call.now }
    ensures { IfOk result (λ bytes. bytes ≡ canonical_frame (call_frame id call.now)) }
{
    if !fits_frame(alloc, call)? {
        return Err(OutOfMemory);
    }
    let mut bytes = Bytes::new(alloc);
    put_call(alloc, id, call, &mut bytes)?;
    Ok(bytes)
}

/// The bytes of DSIOpenSession.
pub(crate) fn open_session_bytes(alloc: Global) -> Result<Bytes, OutOfMemory>
    ensures { IfOk result (λ bytes. bytes ≡ canonical_frame open_session) }
{
    let header = Header {
        reply: false,
        command: DsiCommand::OpenSession,
        id: 0,
        word: 0,
        length: 6,
    };
    let mut bytes = Bytes::new(alloc);
    write_frame(&header, &[1, 4, 0, 0, 4, 0], &mut bytes)?;
    Ok(bytes)
}

/// The bytes of FPLogin, the second request of a connection.
pub(crate) fn login_bytes(alloc: Global) -> Result<Bytes, OutOfMemory>
    ensures { IfOk result (λ bytes. bytes ≡ canonical_frame (call_frame 1 login)) }
{
    let call = calls::login(alloc)?;
    call_bytes(alloc, 1, &call)
}

/// The bytes of FPOpenVol, the third one.
pub(crate) fn open_volume_bytes(alloc: Global) -> Result<Bytes, OutOfMemory>
    ensures { IfOk result (λ bytes. bytes ≡ canonical_frame (call_frame 2 open_volume)) }
{
    let call = calls::open_volume_call(alloc)?;
    call_bytes(alloc, 2, &call)
}

/// The bytes of a step's request, with this id, by the numbers that were drawn for it.
pub(crate) fn step_bytes(
    alloc: Global,
    id: u16,
    o: u64,
    a: u64,
    b: u64,
) -> Result<Bytes, OutOfMemory>
    ensures { IfOk result (λ bytes. bytes ≡ canonical_frame (call_frame id (call_of o a b))) }
{
    let call = calls::call_of(alloc, o, a, b)?;
    call_bytes(alloc, id, &call)
}
