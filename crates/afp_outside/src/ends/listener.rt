//! A door through which links come.

use crate::ends::link::Link;

/// What an accept gave.
#[derive(Debug, Drop)]
pub enum Accepted<L> {
    /// A link that was neither read nor written.
    Link(L),
    /// No link comes any more.
    Closed,
    /// The accept failed.
    Failed,
}

/// A door through which links come.
pub trait Listener {
    ghost use Rattle.afp_outside.specs.ends.Listener.{DoorState, Accepts, TakesBack};

    /// The links of this door.
    type Link: Link;

    /// What the door is seen as.
    ghost door_state: { Self → DoorState Self.Link };

    /// The next link.
    fn accept(&mut self) -> Accepted<Self::Link>
        ensures { Accepts Self.Link.link_state (door_state self.old) result (door_state self.new) };

    /// Hands a link back that needs no more.
    fn back(&mut self, link: Self::Link)
        ensures { TakesBack (door_state self.old) link (door_state self.new) };
}
