//! Volumes, and where they are kept.
ghost use Rattle.std.specs.Prelude.{◌≡◌, map, IfSome, IfNone, IfOk, IsErrOf};
ghost use Rattle.afpd_lib.specs.words.Places.{PlaceValue, VolumeValue, AreVolumes, IsPlace, IsVolume};
ghost use Rattle.afpd_lib.specs.words.lemma.Values.{place_value, volume_value};

use crate::words::read::WordFault;
use std::alloc::Global;

/// Where a volume is kept.
#[derive(Clone, Copy)]
pub enum PlaceWord<'a> {
    /// In memory, for as long as the program runs.
    Memory,
    /// In the file of this name.
    File(&'a str),
}

/// A volume's name, and where it is kept.
#[derive(Clone, Copy)]
pub struct VolumeWord<'a> {
    pub name: &'a str,
    pub place: PlaceWord<'a>,
}

/// The place that a text names: a text that is empty names none.
fn place_of<'a>(text: &'a str) -> Option<PlaceWord<'a>>
    ensures found { IfSome result (λ place. IsPlace text.entry.now (place_value place)) }
    ensures none { IfNone result ((value : PlaceValue) → IsPlace text.entry.now value → ⊥) }
{
    if text == "memory" {
        return Some(PlaceWord::Memory);
    }
    if text.is_empty() {
        return None;
    }
    Some(PlaceWord::File(text))
}

/// The volume that a word is.
fn volume_of<'a>(word: &'a str) -> Option<VolumeWord<'a>>
    ensures found { IfSome result (λ volume. IsVolume word.entry.now (volume_value volume)) }
    ensures none { IfNone result ((value : VolumeValue) → IsVolume word.entry.now value → ⊥) }
{
    let (name, place) = word.split_once('=')?;
    let place = place_of(place)?;
    Some(VolumeWord { name, place })
}

/// The volumes that the words are.
pub fn volumes_of<'a>(alloc: Global, words: &[&'a str]) -> Result<Vec<VolumeWord<'a>>, WordFault>
    ensures found { IfOk result (λ volumes. AreVolumes (map (λ word. word.now) words.now) (map volume_value volumes.items)) }
    ensures bad { IsErrOf result WordFault.Bad → (values : _) → AreVolumes (map (λ word. word.now) words.now) values → ⊥ }
{
    let mut volumes = Vec::new(alloc);
    for word in words {
        let Some(volume) = volume_of(word) else {
            return Err(WordFault::Bad);
        };
        let Ok(()) = volumes.push(volume) else {
            return Err(WordFault::Memory);
        };
    }
    Ok(volumes)
}
