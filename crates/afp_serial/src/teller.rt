//! Whoever answers asks out of one history.
use crate::answered::Answered;
use crate::ask::Ask;
use afp_base::{LinkNumber, Moment};

/// Answers asks as the serial file server would, each at its place in one history.
///
/// Others may ask too, in between: what a contract knows of a teller is what it has shown.
pub trait Teller {
    ghost use Rattle.std.specs.Prelude.{◌≡◌, ◌≤◌, true, length};
    ghost use Rattle.afp_base.specs.Limits.{payload_limit};
    ghost use Rattle.afp_serial.specs.Answered.{tells_bytes, told_of};
    ghost use Rattle.afp_serial.specs.Shown.{Shown, Asked, IsSoundShown, fits_frame, is_answer_to};

    /// What no ask changes.
    type Fixed;

    ghost fixed: { Self → Self.Fixed };

    /// The world at the start, the history, the places of its own asks in it, and the keepers'
    /// count of faults.
    ghost shown: { Self → Shown };

    /// Asks, and tells the answer; the block of a reply is put at the front of `out`. `Memory`: there was no memory, and
    /// this ask is no entry. An ask that is told no bytes wants no room for them.
    fn ask(&mut self, now: Moment, link: LinkNumber, ask: Ask, out: &mut [u8]) -> Answered
        requires room { tells_bytes ask ≡ true → payload_limit ≤ length out.old }
        ensures asked { Asked (shown self.old) now link ask (told_of result out.new) (shown self.new) }
        ensures answers { is_answer_to ask (told_of result out.new) ≡ true }
        ensures size { fits_frame (told_of result out.new) ≡ true }
        ensures length { length out.new ≡ length out.old }
        ensures fixed { fixed self.new ≡ fixed self.old };

    ghost sound: { (t : Self) → IsSoundShown (shown t) };
}
