//! The names behind the fixed part.
ghost use Rattle.std.specs.Prelude.{◌≡◌, ◌+◌, ◌<◌, ◌^◌};
ghost use Rattle.afp_bitmap.specs.lemma.Reading.{Gives, walk_of, names_of, name_of, zero_at, pad_at, leads_to, long_name_at, utf8_name_at, long_name_of, utf8_name_of, names_at};

use crate::judge::Walked;
use crate::params::ParamFault;
use crate::spot::Spot;

/// The asked names of a block; no bytes where one is not asked.
#[derive(Drop)]
pub(crate) struct Names<'a> {
    pub(crate) long: &'a [u8],
    pub(crate) utf8: &'a [u8],
}

/// A name, and the spot behind it and its pad.
#[derive(Drop)]
struct Named<'a> {
    name: &'a [u8],
    behind: Spot<'a>,
}

/// Goes behind the pad of a name of `size` bytes that ends at this spot.
#[tactic(auto, unfolding(crate::specs::lemma::Reading::pad_at, crate::specs::lemma::Reading::zero_at))]
fn pad_at(size: usize, spot: Spot<'_>) -> Result<Spot<'_>, ParamFault>
    ensures { Gives (λ s. s) result (pad_at size spot.entry) }
{
    if size % 2 == 0 {
        return Ok(spot);
    }
    match spot.rest() {
        [0, ..] => Ok(spot.behind(1)),
        _ => Err(ParamFault::Bad { at: spot.place() }),
    }
}

/// Whether a long name of `count` bytes and its pad end where the UTF-8 name is to stand.
#[tactic(auto, unfolding(crate::specs::lemma::Reading::leads_to))]
fn leads_to(place: usize, count: usize, next: Option<usize>) -> bool
    requires { place + count + 2 < 2 ^ 64 }
    ensures { result ≡ leads_to place count next }
{
    match next {
        None => true,
        Some(next) => place + (1 + count + (1 + count) % 2) == next,
    }
}

#[tactic(auto, unfolding(crate::specs::lemma::Reading::long_name_at))]
fn long_name_at(next: Option<usize>, spot: Spot<'_>) -> Result<Named<'_>, ParamFault>
    ensures { Gives name_of result (long_name_at next spot.entry.0 spot.entry.1) }
{
    match spot.rest() {
        [] => Err(ParamFault::Bad { at: spot.place() }),
        [count, rest @ ..] => {
            let count = *count as usize;
            if count <= rest.len() && leads_to(spot.place(), count, next) {
                let behind = pad_at(1 + count, spot.behind(1 + count))?;
                Ok(Named {
                    name: &rest[..count],
                    behind,
                })
            } else {
                Err(ParamFault::Bad { at: spot.place() })
            }
        }
    }
}

#[tactic(auto, unfolding(crate::specs::lemma::Reading::utf8_name_at, crate::specs::lemma::Reading::utf8_text_at))]
fn utf8_name_at(spot: Spot<'_>) -> Result<Named<'_>, ParamFault>
    ensures { Gives name_of result (utf8_name_at spot.entry) }
{
    if spot.rest().len() < 6 || spot.u32() != 0 {
        return Err(ParamFault::Bad { at: spot.place() });
    }
    let count = spot.behind(4).u16() as usize;
    let text = spot.behind(6).rest();
    if text.len() < count {
        return Err(ParamFault::Bad { at: spot.place() });
    }
    let behind = pad_at(6 + count, spot.behind(6 + count))?;
    Ok(Named {
        name: &text[..count],
        behind,
    })
}

/// The long name, where one is to come.
fn long_name_of(walk: Walked<'_>) -> Result<Named<'_>, ParamFault>
    ensures { Gives name_of result (long_name_of (walk_of walk.entry)) }
{
    if walk.long_name {
        return long_name_at(walk.utf8_name, walk.spot);
    }
    Ok(Named {
        name: &[],
        behind: walk.spot,
    })
}

/// The UTF-8 name, where one is to come.
fn utf8_name_of(next: Option<usize>, spot: Spot<'_>) -> Result<Named<'_>, ParamFault>
    ensures { Gives name_of result (utf8_name_of next spot.entry) }
{
    if next.is_some() {
        return utf8_name_at(spot);
    }
    Ok(Named {
        name: &[],
        behind: spot,
    })
}

/// The asked names, which end where the bytes end.
#[tactic(auto, unfolding(crate::specs::lemma::Reading::names_at))]
pub(crate) fn names_at(walk: Walked<'_>) -> Result<Names<'_>, ParamFault>
    ensures { Gives names_of result (names_at (walk_of walk.entry)) }
{
    let next = walk.utf8_name;
    let long = long_name_of(walk)?;
    let utf8 = utf8_name_of(next, long.behind)?;
    if !utf8.behind.rest().is_empty() {
        return Err(ParamFault::Bad {
            at: utf8.behind.place(),
        });
    }
    Ok(Names {
        long: long.name,
        utf8: utf8.name,
    })
}
