//! What an ask is told, where the bytes of a reply stand in a buffer of whoever asks.
ghost use Rattle.std.specs.Prelude.{◌≡◌, ◌≤◌, length};
ghost use Rattle.afp_serial.specs.Answered.{block_in, told_of};

use crate::ask::Told;
use afp_base::{Code, LinkNumber, Moment};

/// What an ask is told. It has no bytes of its own.
#[derive(Clone, Copy, Debug, PartialEq, Eq)]
pub enum Answered {
    /// A session was opened on this link.
    Opened { link: LinkNumber },
    /// The reply to a call, whose block is so many bytes at the front of the buffer. `ends`: the session has ended with it.
    Reply { code: Code, size: usize, ends: bool },
    /// The link's session lives. `drain`: since when the server is about to stop.
    Live { drain: Option<Moment> },
    /// It was done.
    Done,
    /// No session has this link.
    Displaced,
    /// There was no memory. Nothing has changed, and the ask is no entry of the history.
    Memory,
}

/// Puts the block of what is told at the front of a buffer. It takes no memory.
pub fn put_told(told: &Told, out: &mut [u8]) -> Answered
    requires room { length (block_in told.now) ≤ length out.old }
    ensures told { told_of result out.new ≡ told.now }
    ensures length { length out.new ≡ length out.old }
{
    match told {
        Told::Opened { link } => Answered::Opened { link: *link },
        Told::Reply { code, block, ends } => {
            let block = block.as_slice();
            out[..block.len()].copy_from_slice(block);
            Answered::Reply {
                code: *code,
                size: block.len(),
                ends: *ends,
            }
        }
        Told::Live { drain } => Answered::Live { drain: *drain },
        Told::Done => Answered::Done,
        Told::Displaced => Answered::Displaced,
        Told::Memory => Answered::Memory,
    }
}
