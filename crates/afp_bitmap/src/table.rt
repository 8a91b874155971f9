//! The shape of each field, by its bit.
ghost use Rattle.std.specs.Prelude.{◌≡◌, ◌<◌, ◌^◌};
ghost use Rattle.afp_bitmap.specs.Bits.{is_asked, is_outside};
ghost use Rattle.afp_bitmap.specs.lemma.Reading.{size_of, asked_size};

/// How a field stands in the fixed part.
#[derive(Clone, Copy)]
pub(crate) enum Shape {
    /// So many bytes with its value.
    Plain(usize),
    /// The place of a volume's or a long name.
    LongName,
    /// The place of a UTF-8 name and 4 zeros.
    Utf8Name,
}

impl Shape {
    /// How many bytes the field has in the fixed part.
    pub(crate) fn size(self) -> usize
        ensures { result ≡ size_of self }
    {
        match self {
            Shape::Plain(size) => size,
            Shape::LongName => 2,
            Shape::Utf8Name => 6,
        }
    }
}

/// A bit, and the shape of the field that it asks for.
#[derive(Clone, Copy)]
pub(crate) struct Slot(pub(crate) u32, pub(crate) Shape);

/// Whether a bit of a bitmap is set, counted from the lowest, which is 0. One above 15 is not.
pub fn is_asked(bits: u16, bit: u32) -> bool
    ensures { result ≡ is_asked bits bit }
{
    bit < 16 && bits >> bit & 1 == 1
}

/// Whether a bit outside the mask is set.
pub fn is_outside(mask: u16, bits: u16) -> bool
    ensures { result ≡ is_outside mask bits }
{
    bits & mask != bits
}

/// The size of the fixed part, in bytes.
pub(crate) fn fixed_size(bits: u16, table: &[Slot]) -> usize
    requires { asked_size bits table.now < 2 ^ 16 }
    ensures { result ≡ asked_size bits table.now }
{
    let mut size = 0;
    for slot in table {
        if is_asked(bits, slot.0) {
            size += slot.1.size();
        }
    }
    size
}
