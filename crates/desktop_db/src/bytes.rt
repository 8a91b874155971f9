//! What the types say of numbers.
ghost use Rattle.std.specs.Prelude.{◌≡◌, length, true};
ghost use Rattle.volume_spec.specs.TypedVolume.{is_long};

/// A number of four bytes is in its range.
pub(crate) fn long_in_range(number: u32)
    ensures { is_long number ≡ true }
{}

/// A key of an icon has nine bytes.
pub(crate) fn nine_bytes(key: &[u8; 9])
    ensures { length key.now ≡ 9 }
{}
