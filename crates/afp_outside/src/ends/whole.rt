//! Writing whole pieces and whole texts.
ghost use Rattle.afp_outside.specs.ends.Whole.{PrintsAll, SendsAll};

use crate::ends::link::{Link, Wrote};
use crate::ends::sink::Sink;

/// Writes the whole piece to a link, in as many writes as the link takes. `false`: a write failed, and what was
/// written is a first part of it.
pub fn send_all<L: Link>(link: &mut L, piece: &[u8]) -> bool
    ensures { SendsAll (L.link_state link.old) piece.now result (L.link_state link.new) }
{
    let mut left = piece;
    while !left.is_empty() {
        match link.write(left) {
            Wrote::Took(n) => left = &left[n..],
            Wrote::Failed => return false,
        }
    }
    true
}

/// Prints the whole text to a sink, in as many writes as the sink takes. `false`: a write failed, and what was
/// printed is a first part of it.
pub fn print_all<O: Sink>(out: &mut O, text: &[u8]) -> bool
    ensures { PrintsAll (O.sink_state out.old) text.now result (O.sink_state out.new) }
{
    let mut left = text;
    while !left.is_empty() {
        match out.write(left) {
            Wrote::Took(n) => left = &left[n..],
            Wrote::Failed => return false,
        }
    }
    true
}
