//! What the types say of numbers.
ghost use Rattle.std.specs.Prelude.{◌≡◌, true};
ghost use Rattle.volume_spec.specs.TypedVolume.{are_bytes};

/// Bytes are in their range. The call does nothing.
pub fn bytes_in_range(bytes: &[u8])
    ensures { are_bytes bytes.now ≡ true }
{}
