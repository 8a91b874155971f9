//! The requests that open a connection.
ghost use Rattle.std.specs.Prelude.{◌≡◌, ◌≤◌, IfOk};
ghost use Rattle.afp_client.specs.session.State.{call_frame};
ghost use Rattle.capture_made.specs.requests.Requests.{first_moment, login, open_session, open_volume, request};

use crate::requests::frames::{login_bytes, open_session_bytes, open_volume_bytes};
use crate::requests::request::Request;
use afp_base::{Moment, OutOfMemory};
use std::alloc::Global;

/// The moment of the openings.
const FIRST: u32 = 100;

/// A moment of a made capture.
pub(crate) fn moment_at(seconds: u32) -> Result<Moment, OutOfMemory>
    ensures { IfOk result (λ now. now ≡ seconds) }
{
    match Moment::new(seconds) {
        Some(now) => Ok(now),
        None => Err(OutOfMemory),
    }
}

/// DSIOpenSession on a connection, the first request. The one error is want of memory.
pub fn open_session(alloc: Global, link: u32) -> Result<Request, OutOfMemory>
    ensures { IfOk result (λ r. r ≡ request link first_moment open_session) }
{
    Ok(Request {
        link,
        at: moment_at(FIRST)?,
        frame: open_session_bytes(alloc)?,
    })
}

/// FPLogin on a connection, the second one.
pub fn login(alloc: Global, link: u32) -> Result<Request, OutOfMemory>
    ensures { IfOk result (λ r. r ≡ request link first_moment (call_frame 1 login)) }
{
    Ok(Request {
        link,
        at: moment_at(FIRST)?,
        frame: login_bytes(alloc)?,
    })
}

/// FPOpenVol on a connection, the third one.
pub fn open_volume(alloc: Global, link: u32) -> Result<Request, OutOfMemory>
    ensures { IfOk result (λ r. r ≡ request link first_moment (call_frame 2 open_volume)) }
{
    Ok(Request {
        link,
        at: moment_at(FIRST)?,
        frame: open_volume_bytes(alloc)?,
    })
}
