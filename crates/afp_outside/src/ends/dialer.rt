//! Who dials links to a peer.

use crate::ends::link::Link;
use thiserror::Error;

/// Why no link was dialled.
#[derive(Clone, Copy, Debug, PartialEq, Eq, Error)]
pub enum DialFault {
    /// The dial failed.
    #[error("the dial failed")]
    Failed,
    /// There was no memory.
    #[error("out of memory")]
    Memory,
}

/// Dials links to a peer, one after the other.
pub trait Dialer {
    ghost use Rattle.afp_outside.specs.ends.Dialer.{DialerState, Dials, TakesBack};

    /// The links of this dialer.
    type Link: Link + Drop;

    /// What the dialer is seen as.
    ghost dialer_state: { Self → DialerState Self.Link };

    /// The next link.
    fn dial(&mut self) -> Result<Self::Link, DialFault>
        ensures { Dials Self.Link.link_state (dialer_state self.old) result (dialer_state self.new) };

    /// Hands a link back that needs no more.
    fn back(&mut self, link: Self::Link)
        ensures { TakesBack (dialer_state self.old) link (dialer_state self.new) };
}
