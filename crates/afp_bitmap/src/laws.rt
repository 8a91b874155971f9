//! What holds of blocks without any call.
ghost use Rattle.std.specs.Prelude.{◌≡◌, ◌≤◌, ◌<◌, ℕ, slice_index};
ghost use Rattle.afp_bitmap.specs.declared.params.Values.{Values};
ghost use Rattle.afp_bitmap.specs.Offsets.{LongNameStands, Utf8NameStands};
ghost use Rattle.afp_bitmap.specs.Params.{params, IsAnswer};

/// Two values that the same bits ask for have one block only where they are one: what was put is
/// what is read again. The kind is 0 for a volume, 1 for a file and 2 for a directory.
pub fn one_block_for_each()
    ensures { (kind bits : ℕ) (v w : Values) → kind ≤ 2 → IsAnswer kind bits v → IsAnswer kind bits w
        → ((i : ℕ) → slice_index (params bits v) i < 256) → params bits v ≡ params bits w → v ≡ w }
{}

/// A name stands at its offset: the two bytes in the fixed part give the place, from the first byte of
/// the block, at which the name's count and bytes stand, and before them the hint of a UTF-8 name.
pub fn names_stand_at_their_offsets()
    ensures long_name { LongNameStands }
    ensures utf8_name { Utf8NameStands }
{}
