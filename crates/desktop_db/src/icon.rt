//! An icon of the desktop database.
ghost use Rattle.std.specs.Prelude.{◌≡◌, ◌++◌, ◌∷◌, [], bytes_eq, true};
ghost use Rattle.std.specs.Cmp.Lexicographic.{slice_cmp};
ghost use Rattle.std.specs.Ordering.{nat_cmp};
ghost use Rattle.volume_spec.specs.Desktop.{icon_under};
ghost use Rattle.volume_spec.specs.SoundVolume as sound;
ghost use Rattle.volume_spec.specs.TypedVolume.{is_typed_icon};

use crate::bytes::{long_in_range, nine_bytes};
use afp_base::Bytes;
use std::cmp::Ordering;
use std::marker::Model;
use volume_spec::bytes_in_range;
use volume_spec::limits::LONGEST_ICON;

/// The bits of an icon and its tag, under a key of nine bytes: creator, type, icon type (AFP Reference, FPAddIcon).
///
/// Contracts see it as the definition's icon.
#[derive(Drop)]
pub struct Icon {
    key: [u8; 9],
    tag: u32,
    bits: Bytes,
}

impl Model for Icon {
    ghost use Rattle.std.specs.Prelude.{◌≡◌, take, drop, length, slice_index};
    ghost use Rattle.volume_spec.specs.SoundVolume.{code_size};
    ghost use Rattle.volume_spec.specs.VolumeState.{Icon as DesktopIcon};

    ghost Value = { DesktopIcon };

    ghost view = { λ a. record { creator = take code_size a.key; kind = take code_size (drop code_size a.key); icon_kind = slice_index a.key 8; tag = a.tag; bits = a.bits } };

    ghost invariant = { λ a. length a.key ≡ 9 };
}

impl Icon {
    /// An icon; of its bits the first 65,535 are kept.
    pub(crate) fn new(key: [u8; 9], tag: u32, bits: Bytes) -> Icon
        ensures icon { result ≡ icon_under key tag bits }
        ensures key { sound.icon_key result ≡ key }
        ensures formed { sound.is_icon result ≡ true }
        ensures typed { is_typed_icon result ≡ true }
    {
        let mut bits = bits;
        bits.truncate(LONGEST_ICON);
        bytes_in_range(bits.as_slice());
        bytes_in_range(&key);
        nine_bytes(&key);
        long_in_range(tag);
        Icon { key, tag, bits }
    }

    /// Creator, type and icon type.
    pub fn key(&self) -> &[u8; 9]
        ensures { result.now ≡ sound.icon_key self.now }
    {
        &self.key
    }

    /// The tag that the icon was put with.
    pub fn tag(&self) -> u32
        ensures { result ≡ self.now.tag }
    {
        self.tag
    }

    /// The bits, lent.
    pub fn bits(&self) -> &[u8]
        ensures { result.now ≡ self.now.bits }
    {
        self.bits.as_slice()
    }

    /// How the key stands to another.
    pub(crate) fn compare(&self, key: &[u8; 9]) -> Ordering
        ensures { result ≡ slice_cmp nat_cmp (sound.icon_key self.now) key.now }
    {
        self.key().as_slice().cmp(key.as_slice())
    }

    /// Whether this is the creator.
    pub(crate) fn is_of(&self, creator: &[u8; 4]) -> bool
        ensures { result ≡ bytes_eq self.now.creator creator.now }
    {
        &self.key[..4] == creator.as_slice()
    }

    /// How the creator stands to another.
    pub(crate) fn compare_creator(&self, creator: &[u8; 4]) -> Ordering
        ensures { result ≡ slice_cmp nat_cmp self.now.creator creator.now }
    {
        self.key[..4].cmp(creator.as_slice())
    }
}

/// The key of an icon: creator, type, icon type.
pub fn icon_key(creator: [u8; 4], kind: [u8; 4], icon_kind: u8) -> [u8; 9]
    ensures { result ≡ creator ++ kind ++ icon_kind ∷ [] }
{
    [
        creator[0], creator[1], creator[2], creator[3], kind[0], kind[1], kind[2], kind[3],
        icon_kind,
    ]
}
