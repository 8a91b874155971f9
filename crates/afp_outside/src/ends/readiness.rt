//! A door, and a watch over the links that came through it.

use crate::ends::ready_link::ReadyLink;
use afp_base::Moment;

/// What an accept gave that does not wait.
#[derive(Debug, Drop)]
pub enum Came<L> {
    /// A link that was neither read nor written.
    Link(L),
    /// No link is there yet.
    NotYet,
    /// No link comes any more.
    Closed,
    /// The accept failed.
    Failed,
}

/// A door, and a watch over the links that came through it, which says who may go on. It decides speed alone: that a link is
/// told or not told as ready changes nothing for it but when it is served.
pub trait Readiness {
    ghost use Rattle.std.specs.Prelude.{◌≡◌};
    ghost use Rattle.afp_outside.specs.ends.Listener.{DoorState, TakesBack};
    ghost use Rattle.afp_outside.specs.ends.Ready.{Comes};

    /// The links of this door.
    type Link: ReadyLink;

    /// What the door is seen as.
    ghost door_state: { Self → DoorState Self.Link };

    /// Waits until a link may go on or a new one is there, a second at most, or not at all where that is `at_once`. The keys of
    /// those that may go on are put in place of what `ready` had.
    fn wait(&mut self, ready: &mut Vec<usize>, at_once: bool)
        ensures { door_state self.new ≡ door_state self.old };

    /// The moment of the last wait.
    fn now(&self) -> Moment;

    /// The next link, which is told under this key from now on.
    fn accept(&mut self, key: usize) -> Came<Self::Link>
        ensures { Comes Self.Link.link_state (door_state self.old) result (door_state self.new) };

    /// Hands a link back that needs no more, which is watched no longer.
    fn back(&mut self, link: Self::Link)
        ensures { TakesBack (door_state self.old) link (door_state self.new) };
}
