//! What the serial file server is asked, and what it tells.
ghost use Rattle.std.specs.Prelude.{◌≡◌, IfOk};

use afp_base::{Bytes, Code, LinkNumber, Moment, OutOfMemory};

/// What a server is asked at one moment on one link.
#[derive(Drop)]
pub enum Ask {
    /// A session on a new link. The attention quantum is the client's, in bytes.
    Open {
        attention: u32,
    },
    /// A call of AFP: the request's id, whether its frame is a Write, the enclosed data offset of a
    /// Write, and the frame's payload.
    Call {
        id: u16,
        write: bool,
        offset: u32,
        payload: Bytes,
    },
    /// Whether the session of this link still lives. Sessions that lost their link long ago go. At link 0: that alone.
    Pulse,
    /// The client closes the session of this link.
    Bye,
    /// The link was lost.
    Lost,
    /// The server is about to stop.
    Drain,
}

/// What an ask is told.
#[derive(Drop)]
pub enum Told {
    /// A session was opened on this link.
    Opened {
        link: LinkNumber,
    },
    /// The reply to a call. `ends`: the session has ended with it.
    Reply {
        code: Code,
        block: Bytes,
        ends: bool,
    },
    /// The link's session lives. `drain`: since when the server is about to stop.
    Live {
        drain: Option<Moment>,
    },
    /// It was done.
    Done,
    /// No session has this link.
    Displaced,
    /// There was no memory. Nothing has changed, and the ask is no entry of the history.
    Memory,
}

/// Whether what a call changes could be kept.
#[derive(Clone, Copy, Debug, PartialEq, Eq)]
pub enum Outcome {
    /// It was kept, or there was nothing to keep.
    Done,
    /// It could not be kept: all stays as it was.
    Fault,
}

/// An ask of the history, with its link and moment.
#[derive(Drop)]
pub struct Entry {
    pub link: LinkNumber,
    pub at: Moment,
    pub ask: Ask,
    pub outcome: Outcome,
}

impl Ask {
    /// The same ask once more. The one error is want of memory.
    pub fn copy(&self) -> Result<Ask, OutOfMemory>
        ensures { IfOk result (λ ask. ask ≡ self.now) }
    {
        Ok(match self {
            Ask::Open { attention } => Ask::Open {
                attention: *attention,
            },
            Ask::Call {
                id,
                write,
                offset,
                payload,
            } => Ask::Call {
                id: *id,
                write: *write,
                offset: *offset,
                payload: payload.copy()?,
            },
            Ask::Pulse => Ask::Pulse,
            Ask::Bye => Ask::Bye,
            Ask::Lost => Ask::Lost,
            Ask::Drain => Ask::Drain,
        })
    }
}
