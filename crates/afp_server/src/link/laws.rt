//! Laws of whole runs. Their functions do nothing: the contract is the law.
ghost use Rattle.afp_server.specs.link.Complete.{FollowsScript, IsComplete};
ghost use Rattle.afp_server.specs.link.Written.{IsWrittenBeside};

use dsi_frame::{one_frame, one_stream};

/// The frames of a run follow the script, with the steps that they asked and the replies to them.
pub fn what_happens_follows_the_script()
    ensures { FollowsScript }
{}

/// What a link writes beside replies are the requests of its quiets, one a quiet at most: Tickles, and one Attention
/// where the Pulse of a quiet was told a drain's moment, else none.
pub fn what_is_written_beside_replies()
    ensures { IsWrittenBeside }
{}

/// Where whole good frames are coming, up to the last byte or to a frame that ends the link, nothing fails or hinders
/// the run and the limit is not reached, each request has its reply, up to the one that closes the link; or there was
/// no memory. What stands behind a frame that ends the link does not matter.
pub fn each_request_has_its_reply()
    ensures { IsComplete }
{
    one_frame();
    one_stream();
}
