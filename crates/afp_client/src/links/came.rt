//! What comes on a link.
ghost use Rattle.std.specs.Prelude.{◌≡◌};
ghost use Rattle.afp_client.specs.links.lemma.Coming.{next_of};

use crate::session::Event;
use afp_base::{Bytes, Code};

/// What a link is left for.
#[derive(Drop)]
pub enum Came {
    /// The reply to the client's request, from this place of the link on.
    Told { at: u64, code: Code, block: Bytes },
    /// The opening is done.
    Opened,
    /// An opening was refused.
    Refused { code: Code },
    /// The session is lost.
    Lost { code: Code },
    /// The frame at this place is none that may come.
    Bad { at: u64 },
    /// The link broke.
    Broke,
    /// The limit is reached.
    Spent,
    /// There was no memory.
    Memory,
}

/// What an event leads to.
#[derive(Drop)]
pub enum Next {
    /// The next event.
    Goes,
    /// A read.
    Reads,
    /// The link is left.
    Comes(Came),
}

/// What an event leads to, of a frame at this place; whoever waits for the opening leaves the link when it is done.
pub(crate) fn next_of(opening: bool, at: u64, event: Event) -> Next
    ensures { result ≡ next_of opening at event }
{
    match event {
        Event::NotYet => Next::Reads,
        Event::Step => Next::Goes,
        Event::Ready => {
            if opening {
                Next::Comes(Came::Opened)
            } else {
                Next::Goes
            }
        }
        Event::Told { code, block } => Next::Comes(Came::Told { at, code, block }),
        Event::Refused { code } => Next::Comes(Came::Refused { code }),
        Event::Lost { code } => Next::Comes(Came::Lost { code }),
        Event::Tickle => Next::Goes,
        Event::Attention(_) => Next::Goes,
        Event::Closed => Next::Comes(Came::Broke),
        Event::Bad { at } => Next::Comes(Came::Bad { at }),
        Event::Memory => Next::Comes(Came::Memory),
    }
}
