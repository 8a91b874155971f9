//! A place in a block, and the bytes from there on.
ghost use Rattle.std.specs.Prelude.{◌≡◌, ◌+◌, ◌≤◌, ◌<◌, ◌^◌, drop, length};
ghost use Rattle.byteorder.specs.Endian.{big_number};

use afp_base::Scan;
use std::marker::Model;

/// A place in a block, and the bytes from there on.
///
/// Contracts see both.
#[derive(Drop)]
pub(crate) struct Spot<'a> {
    scan: Scan<'a>,
}

impl<'a> Model for Spot<'a> {
    ghost use Rattle.std.specs.Prelude.{◌≤◌, ◌<◌, ◌^◌, drop, length};
    ghost use Rattle.afp_bitmap.specs.lemma.Spot.{Spot as SpotValue};

    ghost Value = { SpotValue };

    ghost view = { λ s. (s.scan.place, drop s.scan.place s.scan.bytes) };

    ghost invariant = { λ s. (s.scan.place ≤ length s.scan.bytes) × (length s.scan.bytes < 2 ^ 63) };
}

impl<'a> Spot<'a> {
    /// The first place of a block.
    pub(crate) fn new(bytes: &'a [u8]) -> Spot<'a>
        ensures { result ≡ (0, bytes.now) }
    {
        Spot {
            scan: Scan::new(bytes),
        }
    }

    /// The place, in bytes from the block's first.
    pub(crate) fn place(&self) -> usize
        ensures place { result ≡ self.now.0 }
        ensures within { result + length self.now.1 < 2 ^ 63 }
    {
        self.scan.place()
    }

    /// The bytes from the place on, lent.
    pub(crate) fn rest(&self) -> &'a [u8]
        ensures { result.now ≡ self.now.1 }
    {
        self.scan.rest()
    }

    /// The number in the next 2 bytes.
    #[tactic(auto, using(afp_base::proofs::Numbers::number_front))]
    pub(crate) fn u16(&self) -> u16
        requires { 2 ≤ length self.now.1 }
        ensures { result ≡ big_number 2 self.now.1 }
    {
        match self.scan.again().u16() {
            Ok(number) => number,
            Err(_) => unreachable!(),
        }
    }

    /// The number in the next 4 bytes.
    #[tactic(auto, using(afp_base::proofs::Numbers::number_front))]
    pub(crate) fn u32(&self) -> u32
        requires { 4 ≤ length self.now.1 }
        ensures { result ≡ big_number 4 self.now.1 }
    {
        match self.scan.again().u32() {
            Ok(number) => number,
            Err(_) => unreachable!(),
        }
    }

    /// The place `n` bytes further on.
    pub(crate) fn behind(&self, n: usize) -> Spot<'a>
        requires { n ≤ length self.now.1 }
        ensures { result ≡ (self.now.0 + n, drop n self.now.1) }
    {
        let mut scan = self.scan.again();
        let _bytes = scan.bytes(n);
        Spot { scan }
    }
}
