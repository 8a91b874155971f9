//! What the program makes before it serves.
ghost use Rattle.std.specs.Prelude.{◌≡◌, map, string_bytes, IfOk, IsErrOf};
ghost use Rattle.afpd_lib.specs.words.Words.{SaysWords, WordValues};
ghost use Rattle.afpd_lib.specs.words.lemma.Values.{place_value};
ghost use Rattle.afpd_lib.specs.server.Setup.{Sets, kept_at};

use crate::words::{PlaceWord, VolumeWord, WordFault, read_words};
use afp_base::{Bytes, OutOfMemory};
use std::alloc::Global;

/// Where a volume is kept.
#[derive(Drop)]
pub enum VolumePlace {
    /// In memory, for as long as the program runs.
    Memory,
    /// In the file of this name, in UTF-8.
    File(Bytes),
}

/// Where the volumes are kept, in order; the TCP port; how many links are to be served at once; and after how
/// many the door closes, where 0 is never.
#[derive(Drop)]
pub struct ServerSettings {
    pub places: Vec<VolumePlace>,
    pub port: u16,
    pub workers: u8,
    pub links: u64,
}

/// What the words of the command line say, as far as it is no matter of the house.
pub fn setup(alloc: Global, words: &[String]) -> Result<ServerSettings, WordFault>
    ensures found { IfOk result (λ settings. Sets (map (λ word. string_bytes word) words.now) settings) }
    ensures bad { IsErrOf result WordFault.Bad → (values : WordValues) → SaysWords (map (λ word. string_bytes word) words.now) values → ⊥ }
{
    match read_words(alloc, words) {
        Err(fault) => Err(fault),
        Ok(said) => {
            let Ok(places) = places_of(alloc, said.volumes.as_slice()) else {
                return Err(WordFault::Memory);
            };
            Ok(ServerSettings {
                places,
                port: said.port,
                workers: said.workers,
                links: said.links,
            })
        }
    }
}

/// The place that a word names.
fn place_of(alloc: Global, place: PlaceWord<'_>) -> Result<VolumePlace, OutOfMemory>
    ensures { IfOk result (λ made. made ≡ kept_at (place_value place.entry)) }
{
    match place {
        PlaceWord::Memory => Ok(VolumePlace::Memory),
        PlaceWord::File(name) => Ok(VolumePlace::File(Bytes::of(alloc, name.as_bytes())?)),
    }
}

/// Where the volumes are kept.
fn places_of(alloc: Global, volumes: &[VolumeWord<'_>]) -> Result<Vec<VolumePlace>, OutOfMemory>
    ensures { IfOk result (λ places. places.items ≡ map (λ volume. kept_at (place_value volume.place)) volumes.now) }
{
    let mut places = Vec::new(alloc);
    for volume in volumes {
        places.push(place_of(alloc, volume.place)?)?;
    }
    Ok(places)
}
