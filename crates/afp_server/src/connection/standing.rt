//! Where a link stands that is served in turns.

use crate::connection::sending::Unsent;
use crate::link::LinkEnd;
use afp_base::{LinkNumber, Moment};

/// What follows once a reply or a request is written.
#[derive(Clone, Copy)]
pub enum Then {
    /// The link goes on.
    GoesOn,
    /// It ends so.
    Ends(LinkEnd),
    /// Its session, at this link of the server's, is drained: it asks Bye, and the link ends.
    Leaves(LinkNumber),
}

/// Where a link stands between its turns.
#[derive(Drop)]
pub enum Standing {
    /// All that came is handled, and all replies are written.
    Waits,
    /// There may be more frames to handle.
    More,
    /// A reply or a request is under way. Once it is written, this call leaves the gate.
    Sends {
        unsent: Unsent,
        then: Then,
        called: Option<LinkNumber>,
    },
    /// It has ended.
    Over(LinkEnd),
}

/// The limits of a link in a turn, and the turn's moment.
#[derive(Clone, Copy)]
pub struct Turn {
    /// The most bytes taken and quiets of a link, in all its turns.
    pub turns: u64,
    /// The most frames that are handled in this turn.
    pub frames: u32,
    pub at: Moment,
}
