//! The fields of a request, one after the other.
#![tactic(auto, using(crate::proofs::OfFields::WordLemmas::words_read))]

ghost use Rattle.std.specs.Prelude.{◌≡◌, ◌≤◌, length, Ok, OnErr, IsErrOf};
ghost use Rattle.std.specs.Option.{option_copied};
ghost use Rattle.afp_calls_grammar.specs.grammar.Words.{Literal, Pad, LastPad, Even, Number, Within, Count, Optional, Signed32, Signed64, Plain, Counted, Tail};
ghost use Rattle.afp_calls_grammar.specs.fields.Taking.{Takes, TakesEnclosed, StandsAlone};
ghost use Rattle.afp_calls_grammar.specs.fields.lemma.Taking.{TakesPiece, TakesCopy};

use crate::grammar::{Piece, ReadFault};
use afp_base::{Bytes, OutOfMemory, Scan};
use byteorder::{BigEndian, ByteOrder};
use std::alloc::Global;
use std::marker::Model;

/// Reads the fields of a block, one after the other, and what a Write frame encloses with it. An error
/// takes nothing.
///
/// Contracts see the block, the place, and what is enclosed.
#[derive(Drop)]
pub struct Fields<'a> {
    scan: Scan<'a>,
    enclosed: Option<&'a [u8]>,
}

impl<'a> Model for Fields<'a> {
    ghost use Rattle.std.specs.Prelude.{◌≤◌, length};
    ghost use Rattle.std.specs.Option.{option_copied};
    ghost use Rattle.afp_calls_grammar.specs.fields.Input.{Input};

    ghost Value = { Input };

    ghost view = { λ f. record { bytes = f.scan.bytes; place = f.scan.place; enclosed = option_copied f.enclosed } };

    ghost invariant = { λ f. f.scan.place ≤ length f.scan.bytes };
}

impl<'a> Fields<'a> {
    ghost use Rattle.afp_calls_grammar.specs.fields.Input.{Input};

    /// The fields from a place of the block on, with what a Write frame encloses.
    pub fn new(block: &'a [u8], place: usize, enclosed: Option<&'a [u8]>) -> Fields<'a>
        requires { place ≤ length block.now }
        ensures { result ≡ record { bytes = block.now; place = place; enclosed = option_copied enclosed.entry } }
    {
        Fields {
            scan: Scan::at(block, place),
            enclosed,
        }
    }

    /// The same fields once more, from the same place on.
    pub(crate) fn again(&self) -> Fields<'a>
        ensures { result ≡ self.now }
    {
        Fields {
            scan: self.scan.again(),
            enclosed: self.enclosed,
        }
    }

    /// The next `size` bytes.
    pub(crate) fn piece(&mut self, size: usize) -> Result<&'a [u8], ReadFault>
        ensures { TakesPiece size self.old result self.new }
    {
        match self.scan.bytes(size) {
            Ok(piece) => Ok(piece),
            Err(_) => Err(ReadFault::Param),
        }
    }

    /// The next `size` bytes, as bytes of one's own.
    fn copy(&mut self, alloc: Global, size: usize) -> Result<Bytes, ReadFault>
        ensures { TakesCopy size self.old result self.new }
    {
        let mut ahead = self.again();
        let piece = ahead.piece(size)?;
        let bytes = Bytes::of(alloc, piece)?;
        *self = ahead;
        Ok(bytes)
    }

    /// Passes over a pad byte.
    pub fn pad(&mut self) -> Result<(), ReadFault>
        ensures taken { Takes Pad self.old result self.new }
        ensures err { OnErr result (self.new ≡ self.old) }
    {
        let _pad = self.piece(1)?;
        Ok(())
    }

    /// Passes over a pad byte, where the block has one.
    pub fn last_pad(&mut self)
        ensures { Takes LastPad self.old (Ok tt) self.new }
    {
        match self.scan.bytes(1) {
            Ok(_) => {}
            Err(_) => {}
        }
    }

    /// Passes over a pad byte, where the place is odd.
    pub fn even(&mut self) -> Result<(), ReadFault>
        ensures taken { Takes Even self.old result self.new }
        ensures err { OnErr result (self.new ≡ self.old) }
    {
        let odd = self.scan.place() % 2;
        let _pad = self.piece(odd)?;
        Ok(())
    }

    /// Passes over a byte of that value.
    pub fn literal(&mut self, byte: u8) -> Result<(), ReadFault>
        ensures taken { Takes (Literal byte) self.old result self.new }
        ensures err { OnErr result (self.new ≡ self.old) }
    {
        let mut ahead = self.again();
        let piece = ahead.piece(1)?;
        if piece[0] != byte {
            return Err(ReadFault::Param);
        }
        *self = ahead;
        Ok(())
    }

    /// A byte.
    pub fn u8(&mut self) -> Result<u8, ReadFault>
        ensures taken { Takes (Number 1) self.old result self.new }
        ensures err { OnErr result (self.new ≡ self.old) }
    {
        let piece = self.piece(1)?;
        Ok(piece[0])
    }

    /// A number of 2 bytes.
    pub fn u16(&mut self) -> Result<u16, ReadFault>
        ensures taken { Takes (Number 2) self.old result self.new }
        ensures err { OnErr result (self.new ≡ self.old) }
    {
        let piece = self.piece(2)?;
        Ok(BigEndian::read_u16(piece))
    }

    /// A number of 4 bytes.
    pub fn u32(&mut self) -> Result<u32, ReadFault>
        ensures taken { Takes (Number 4) self.old result self.new }
        ensures err { OnErr result (self.new ≡ self.old) }
    {
        let piece = self.piece(4)?;
        Ok(BigEndian::read_u32(piece))
    }

    /// A byte from a least to a greatest.
    pub fn u8_within(&mut self, low: u8, high: u8) -> Result<u8, ReadFault>
        ensures taken { Takes (Within 1 low high) self.old result self.new }
        ensures err { OnErr result (self.new ≡ self.old) }
    {
        let mut ahead = self.again();
        let piece = ahead.piece(1)?;
        let number = piece[0];
        if number < low || number > high {
            return Err(ReadFault::Param);
        }
        *self = ahead;
        Ok(number)
    }

    /// A number of 2 bytes, from a least to a greatest.
    pub fn u16_within(&mut self, low: u16, high: u16) -> Result<u16, ReadFault>
        ensures taken { Takes (Within 2 low high) self.old result self.new }
        ensures err { OnErr result (self.new ≡ self.old) }
    {
        let mut ahead = self.again();
        let piece = ahead.piece(2)?;
        let number = BigEndian::read_u16(piece);
        if number < low || number > high {
            return Err(ReadFault::Param);
        }
        *self = ahead;
        Ok(number)
    }

    /// A signed number of 4 bytes.
    pub fn i32(&mut self) -> Result<i32, ReadFault>
        ensures taken { Takes Signed32 self.old result self.new }
        ensures err { OnErr result (self.new ≡ self.old) }
    {
        let piece = self.piece(4)?;
        Ok(BigEndian::read_u32(piece).cast_signed())
    }

    /// A signed number of 8 bytes.
    pub fn i64(&mut self) -> Result<i64, ReadFault>
        ensures taken { Takes Signed64 self.old result self.new }
        ensures err { OnErr result (self.new ≡ self.old) }
    {
        let piece = self.piece(8)?;
        Ok(BigEndian::read_u64(piece).cast_signed())
    }

    /// The next 4 bytes.
    pub fn four(&mut self) -> Result<[u8; 4], ReadFault>
        ensures taken { Takes (Plain 4) self.old result self.new }
        ensures err { OnErr result (self.new ≡ self.old) }
        ensures memory { IsErrOf result ReadFault.Memory → ⊥ }
    {
        let piece = self.piece(4)?;
        let mut bytes = [0; 4];
        bytes.copy_from_slice(piece);
        Ok(bytes)
    }

    /// So many bytes.
    pub fn plain(&mut self, alloc: Global, size: u32) -> Result<Bytes, ReadFault>
        ensures taken { Takes (Plain size) self.old result self.new }
        ensures err { OnErr result (self.new ≡ self.old) }
    {
        let bytes = self.copy(alloc, size as usize)?;
        Ok(bytes)
    }

    /// A count, in 4 bytes, of what stands further on.
    pub fn count(&mut self) -> Result<u32, ReadFault>
        ensures taken { Takes (Count 4) self.old result self.new }
        ensures err { OnErr result (self.new ≡ self.old) }
    {
        let piece = self.piece(4)?;
        Ok(BigEndian::read_u32(piece))
    }

    /// A number of 4 bytes, where it is there.
    pub fn optional(&mut self, there: bool) -> Result<Option<u32>, ReadFault>
        ensures taken { Takes (Optional there 4) self.old result self.new }
        ensures err { OnErr result (self.new ≡ self.old) }
    {
        if !there {
            return Ok(None);
        }
        let piece = self.piece(4)?;
        Ok(Some(BigEndian::read_u32(piece)))
    }

    /// The bytes behind their count of one byte.
    pub fn str(&mut self, alloc: Global) -> Result<Bytes, ReadFault>
        ensures taken { Takes (Counted 1) self.old result self.new }
        ensures err { OnErr result (self.new ≡ self.old) }
    {
        let mut ahead = self.again();
        let count = ahead.piece(1)?[0];
        let text = ahead.copy(alloc, usize::from(count))?;
        *self = ahead;
        Ok(text)
    }

    /// The bytes behind their count of 2 bytes.
    pub fn text(&mut self, alloc: Global) -> Result<Bytes, ReadFault>
        ensures taken { Takes (Counted 2) self.old result self.new }
        ensures err { OnErr result (self.new ≡ self.old) }
    {
        let mut ahead = self.again();
        let count = BigEndian::read_u16(ahead.piece(2)?);
        let text = ahead.copy(alloc, usize::from(count))?;
        *self = ahead;
        Ok(text)
    }

    /// The bytes behind their count of 4 bytes.
    pub fn long_text(&mut self, alloc: Global) -> Result<Bytes, ReadFault>
        ensures taken { Takes (Counted 4) self.old result self.new }
        ensures err { OnErr result (self.new ≡ self.old) }
    {
        let mut ahead = self.again();
        let count = BigEndian::read_u32(ahead.piece(4)?);
        let text = ahead.copy(alloc, count as usize)?;
        *self = ahead;
        Ok(text)
    }

    /// All that remains.
    pub fn tail(&mut self, alloc: Global) -> Result<Bytes, ReadFault>
        ensures taken { Takes Tail self.old result self.new }
        ensures err { OnErr result (self.new ≡ self.old) }
    {
        let remaining = self.scan.remaining();
        self.copy(alloc, remaining)
    }

    /// That nothing is enclosed, as in a Command frame.
    pub fn alone(&self) -> Result<(), ReadFault>
        ensures { StandsAlone self.now result }
    {
        match self.enclosed {
            None => Ok(()),
            Some(_) => Err(ReadFault::Param),
        }
    }

    /// The first `size` bytes of those that a Write frame encloses.
    pub fn enclosed(&self, size: u64) -> Result<Piece<'a>, ReadFault>
        ensures { TakesEnclosed size self.now result }
    {
        let piece = match self.enclosed {
            None => return Err(ReadFault::Param),
            Some(piece) => piece,
        };
        if (piece.len() as u64) < size {
            return Err(ReadFault::Param);
        }
        Ok(Piece::new(&piece[..size as usize]))
    }
}
