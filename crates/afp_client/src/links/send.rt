//! Writing what a client has to write.
ghost use Rattle.std.specs.Prelude.{◌≡◌, []};
ghost use Rattle.afp_outside.specs.ends.Whole.{SendsAll};
ghost use Rattle.afp_client.specs.links.lemma.Coming.{NotesWrite};

use crate::links::noted::Noted;
use afp_base::{Bytes, Moment};
use afp_outside::{Link, send_all};

/// Notes that these bytes are written now, where there are any.
#[tactic(auto, using(crate::proofs::OfLinks::LinkLemmas::notes_none, crate::proofs::OfLinks::LinkLemmas::notes_some))]
fn note_write(noted: &mut Noted, piece: &[u8], now: Moment)
    ensures { NotesWrite piece.now now noted.old noted.new }
{
    if !piece.is_empty() {
        noted.pulse.note_write(now);
    }
}

/// Writes what is to be written, and holds nothing of it any more, also where a write failed.
pub(crate) fn flush<L: Link>(link: &mut L, out: &mut Bytes, noted: &mut Noted) -> bool
    ensures sends { SendsAll (L.link_state link.old) out.old result (L.link_state link.new) }
    ensures notes { NotesWrite out.old (L.link_state link.old).now noted.old noted.new }
    ensures empty { out.new ≡ [] }
{
    note_write(noted, out.as_slice(), link.now());
    let sent = send_all(link, out.as_slice());
    out.truncate(0);
    sent
}
