//! The fields of the fixed part, taken one after the other.
ghost use Rattle.std.specs.Prelude.{◌≡◌, ◌≢◌, [], length};
ghost use Rattle.std.specs.Int.{w32, cast_signed};
ghost use Rattle.byteorder.specs.Endian.{big_number};
ghost use Rattle.afp_bitmap.specs.lemma.Reading.{finder_of};
ghost use Rattle.afp_bitmap.specs.lemma.Taking.{Took, taken};

use crate::spot::Spot;
use crate::table::is_asked;
use afp_base::Scan;
use std::marker::Model;

/// Takes field by field from a block, by rising bit. A field that was not asked, or that is not
/// there, is zero and takes no byte.
///
/// Contracts see the asked bits, and the bytes that are not taken yet.
#[derive(Drop)]
pub(crate) struct FieldCursor<'a> {
    bits: u16,
    spot: Spot<'a>,
}

impl<'a> Model for FieldCursor<'a> {
    ghost use Rattle.afp_bitmap.specs.lemma.Taking.{Untaken};

    ghost Value = { Untaken };

    ghost view = { λ f. record { bits = f.bits; rest = f.spot.1 } };
}

impl<'a> FieldCursor<'a> {
    /// No field of the block is taken.
    pub(crate) fn new(bits: u16, bytes: &'a [u8]) -> FieldCursor<'a>
        ensures { result ≡ record { bits = bits; rest = bytes.now } }
    {
        FieldCursor {
            bits,
            spot: Spot::new(bytes),
        }
    }

    /// The `size` bytes of a field.
    #[tactic(auto, unfolding(crate::specs::lemma::Reading::piece, crate::specs::lemma::Reading::behind))]
    fn piece(&mut self, bit: u32, size: usize) -> &'a [u8]
        ensures value { result.now ≡ taken self.old bit size }
        ensures whole { length result.now ≢ size → result.now ≡ [] }
        ensures took { Took self.old bit size self.new }
    {
        let rest = self.spot.rest();
        if is_asked(self.bits, bit) && size <= rest.len() {
            self.spot = self.spot.behind(size);
            &rest[..size]
        } else {
            &[]
        }
    }

    /// Passes over a field.
    pub(crate) fn skip(&mut self, bit: u32, size: usize)
        ensures { Took self.old bit size self.new }
    {
        let _piece = self.piece(bit, size);
    }

    /// A number of 2 bytes.
    #[tactic(auto, using(afp_base::proofs::Numbers::number_front))]
    pub(crate) fn short(&mut self, bit: u32) -> u16
        ensures value { result ≡ big_number 2 (taken self.old bit 2) }
        ensures took { Took self.old bit 2 self.new }
    {
        let piece = self.piece(bit, 2);
        match Scan::new(piece).u16() {
            Ok(number) => number,
            Err(_) => 0,
        }
    }

    /// A number of 4 bytes.
    #[tactic(auto, using(afp_base::proofs::Numbers::number_front))]
    pub(crate) fn long(&mut self, bit: u32) -> u32
        ensures value { result ≡ big_number 4 (taken self.old bit 4) }
        ensures took { Took self.old bit 4 self.new }
    {
        let piece = self.piece(bit, 4);
        match Scan::new(piece).u32() {
            Ok(number) => number,
            Err(_) => 0,
        }
    }

    /// A number of 8 bytes.
    #[tactic(auto, using(afp_base::proofs::Numbers::number_front))]
    pub(crate) fn wide(&mut self, bit: u32) -> u64
        ensures value { result ≡ big_number 8 (taken self.old bit 8) }
        ensures took { Took self.old bit 8 self.new }
    {
        let piece = self.piece(bit, 8);
        match Scan::new(piece).u64() {
            Ok(number) => number,
            Err(_) => 0,
        }
    }

    /// A date.
    pub(crate) fn date(&mut self, bit: u32) -> i32
        ensures value { result ≡ cast_signed w32 (big_number 4 (taken self.old bit 4)) }
        ensures took { Took self.old bit 4 self.new }
    {
        self.long(bit).cast_signed()
    }

    /// The bytes for the Finder.
    #[tactic(auto, unfolding(crate::specs::lemma::Reading::finder_of))]
    pub(crate) fn finder(&mut self, bit: u32) -> [u8; 32]
        ensures value { result ≡ finder_of (taken self.old bit 32) }
        ensures took { Took self.old bit 32 self.new }
    {
        let piece = self.piece(bit, 32);
        let mut finder = [0; 32];
        if piece.len() == 32 {
            finder.copy_from_slice(piece);
        }
        finder
    }
}
