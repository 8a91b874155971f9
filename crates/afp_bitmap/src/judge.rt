//! Whether bytes are a block, and the first place where they are none.
ghost use Rattle.std.specs.Prelude.{◌≡◌, ◌<◌, ◌^◌, true};
ghost use Rattle.afp_bitmap.specs.lemma.Reading.{Gives, asked_size, start, walk_of, names_of, may_stand, stands, behind_field, step, walked, judged};

use crate::names::{Names, names_at};
use crate::params::ParamFault;
use crate::spot::Spot;
use crate::table::{Shape, Slot, fixed_size, is_asked};

/// How far the fixed part was read.
#[derive(Drop)]
pub(crate) struct Walked<'a> {
    /// A long name is to come.
    pub(crate) long_name: bool,
    /// Where the UTF-8 name is to stand.
    pub(crate) utf8_name: Option<usize>,
    /// What is read next.
    pub(crate) spot: Spot<'a>,
}

/// Whether a UTF-8 name may stand at a place, where the names begin at `first`: just there, or
/// behind some long name and its pad.
#[tactic(auto, unfolding(crate::specs::lemma::Reading::may_stand))]
fn may_stand(first: usize, long_name: bool, place: usize) -> bool
    requires { first < 2 ^ 16 }
    ensures { result ≡ may_stand first long_name place }
{
    if long_name {
        first + 2 <= place && place <= first + 256 && (place - first) % 2 == 0
    } else {
        place == first
    }
}

/// Whether the bytes at the walk's place are a field of that shape.
#[tactic(auto, unfolding(crate::specs::lemma::Reading::stands))]
fn stands(first: usize, shape: Shape, walk: &Walked<'_>) -> bool
    requires { first < 2 ^ 16 }
    ensures { result ≡ stands first shape (walk_of walk.now) }
{
    if walk.spot.rest().len() < shape.size() {
        return false;
    }
    match shape {
        Shape::Plain(_) => true,
        Shape::LongName => walk.spot.u16() as usize == first,
        Shape::Utf8Name => {
            may_stand(first, walk.long_name, walk.spot.u16() as usize)
                && walk.spot.behind(2).u32() == 0
        }
    }
}

/// Goes behind a field of that shape.
#[tactic(auto, unfolding(crate::specs::lemma::Reading::behind_field, crate::specs::lemma::Reading::stands))]
fn behind_field<'a>(first: usize, shape: Shape, walk: &Walked<'a>) -> Walked<'a>
    requires small { first < 2 ^ 16 }
    requires whole { stands first shape (walk_of walk.now) ≡ true }
    ensures { walk_of result ≡ behind_field shape (walk_of walk.now) }
{
    let spot = walk.spot.behind(shape.size());
    match shape {
        Shape::Plain(_) => Walked {
            long_name: walk.long_name,
            utf8_name: walk.utf8_name,
            spot,
        },
        Shape::LongName => Walked {
            long_name: true,
            utf8_name: walk.utf8_name,
            spot,
        },
        Shape::Utf8Name => Walked {
            long_name: walk.long_name,
            utf8_name: Some(walk.spot.u16() as usize),
            spot,
        },
    }
}

/// Goes over one field, where it is asked.
#[tactic(auto, unfolding(crate::specs::lemma::Reading::step))]
fn step<'a>(bits: u16, first: usize, slot: Slot, walk: Walked<'a>) -> Result<Walked<'a>, ParamFault>
    requires small { first < 2 ^ 16 }
    ensures { Gives walk_of result (step bits first slot (walk_of walk.entry)) }
{
    if !is_asked(bits, slot.0) {
        return Ok(walk);
    }
    if !stands(first, slot.1, &walk) {
        return Err(ParamFault::Bad {
            at: walk.spot.place(),
        });
    }
    Ok(behind_field(first, slot.1, &walk))
}

/// Goes over the fixed part.
fn walk<'a>(bits: u16, table: &[Slot], bytes: &'a [u8]) -> Result<Walked<'a>, ParamFault>
    requires { asked_size bits table.now < 2 ^ 16 }
    ensures { Gives walk_of result (walked bits (asked_size bits table.now) table.now (start bytes.now)) }
{
    let first = fixed_size(bits, table);
    let mut walk = Walked {
        long_name: false,
        utf8_name: None,
        spot: Spot::new(bytes),
    };
    for slot in table {
        walk = step(bits, first, *slot, walk)?;
    }
    Ok(walk)
}

/// The names of a block for these bits, where the bytes are one from the first to the last.
#[tactic(auto, unfolding(crate::specs::lemma::Reading::judged))]
pub(crate) fn judge<'a>(bits: u16, table: &[Slot], bytes: &'a [u8]) -> Result<Names<'a>, ParamFault>
    requires { asked_size bits table.now < 2 ^ 16 }
    ensures { Gives names_of result (judged bits table.now bytes.now) }
{
    let walk = walk(bits, table, bytes)?;
    names_at(walk)
}
