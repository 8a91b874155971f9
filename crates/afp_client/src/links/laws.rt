//! Laws of histories. Their function does nothing: the contract is the law.
ghost use Rattle.afp_client.specs.links.Laws.{LeadsFollows, TakesBytes, WritesFrames};

use crate::session::steps_join;

/// What happened on a link are the client's steps; what is to be written is the spelling of their frames and of Tickles; and the bytes that came
/// are those of the link's events.
pub fn histories_are_steps()
    ensures follows { LeadsFollows }
    ensures writes { WritesFrames }
    ensures takes { TakesBytes }
{
    steps_join();
}
