//! Fields of replies, read one after the other.
ghost use Rattle.std.specs.Prelude.{◌≡◌, ◌+◌, ◌≤◌, ◌<◌, ◌^◌, length, drop, IfOk};
ghost use Rattle.afp_bitmap.specs.Bits.{IsWithin, mask_of, file_mask, dir_mask};
ghost use Rattle.afp_replies.specs.declared.reply.ReplyFault.TheVariants.{Bad};
ghost use Rattle.afp_replies.specs.Bytes.{width};
ghost use Rattle.afp_replies.specs.Entry.{stated};
ghost use Rattle.afp_replies.specs.Layouts.{optional, optional_text};
ghost use Rattle.afp_replies.specs.lemma.Reading.{Rest, TakesWord, ReadsPart, Front, Ends, TakesParams, TakesText, TakesEntryBytes, entry_result};
ghost use Rattle.afp_replies.specs.Words.{Number, Exactly, Asked, Raw, Pad, Counted, Flag, Entry};

use crate::fields::{DIR, DIRECTORY_FLAG, FILE, head_size, width};
use crate::list::ListEntry;
use crate::reply::ReplyFault;
use afp_base::{Bytes, OutOfMemory, Scan};
use afp_bitmap::{ParamFault, Values, is_outside, read_params};
use byteorder::{BigEndian, ByteOrder};
use std::alloc::Global;
use std::marker::Model;

/// The bytes that are not read yet. A read that fails leaves them as they were, or is the last.
///
/// Contracts see the place of the first of them, and the bytes.
#[derive(Drop)]
pub(crate) struct Cursor<'a> {
    scan: Scan<'a>,
}

impl<'a> Model for Cursor<'a> {
    ghost use Rattle.std.specs.Prelude.{◌≤◌, ◌<◌, ◌^◌, drop, length};
    ghost use Rattle.afp_base.specs.Bytes.{IsBytes};
    ghost use Rattle.afp_replies.specs.lemma.Reading.{Rest};

    ghost Value = { Rest };

    ghost view = { λ c. record { place = c.scan.place; bytes = drop c.scan.place c.scan.bytes } };

    ghost invariant = { λ c. (c.scan.place ≤ length c.scan.bytes) × (length c.scan.bytes < 2 ^ 64) × IsBytes c.scan.bytes };
}

impl<'a> Cursor<'a> {
    ghost use Rattle.afp_base.specs.Bytes.{IsBytes};
    ghost use Rattle.afp_replies.specs.lemma.Reading.{Rest, TakesWord, Front, Ends};

    /// A cursor at the first byte.
    pub(crate) fn new(bytes: &'a [u8]) -> Cursor<'a>
        ensures { result ≡ record { place = 0; bytes = bytes.now } }
    {
        Cursor {
            scan: Scan::new(bytes),
        }
    }

    /// The next `n` bytes.
    fn front(&mut self, n: usize) -> Result<&'a [u8], ReplyFault>
        ensures { Front n self.old result self.new }
    {
        match self.scan.bytes(n) {
            Ok(piece) => Ok(piece),
            Err(short) => Err(ReplyFault::Bad { at: short.at }),
        }
    }

    /// The place of the next byte.
    fn place(&self) -> usize
        ensures place { result ≡ self.now.place }
        ensures within { result + length self.now.bytes < 2 ^ 64 }
    {
        self.scan.place()
    }

    /// All bytes that remain, lent.
    fn rest(&self) -> &'a [u8]
        ensures { result.now ≡ self.now.bytes }
    {
        self.scan.rest()
    }

    /// A number of 1 byte.
    pub(crate) fn u8(&mut self) -> Result<u8, ReplyFault>
        ensures { TakesWord (Number 1) self.old result self.new }
    {
        let piece = self.front(1)?;
        Ok(piece[0])
    }

    /// A number of 2 bytes.
    pub(crate) fn u16(&mut self) -> Result<u16, ReplyFault>
        ensures { TakesWord (Number 2) self.old result self.new }
    {
        let piece = self.front(2)?;
        Ok(BigEndian::read_u16(piece))
    }

    /// A number of 4 bytes.
    pub(crate) fn u32(&mut self) -> Result<u32, ReplyFault>
        ensures { TakesWord (Number 4) self.old result self.new }
    {
        let piece = self.front(4)?;
        Ok(BigEndian::read_u32(piece))
    }

    /// A number of 8 bytes.
    pub(crate) fn u64(&mut self) -> Result<u64, ReplyFault>
        ensures { TakesWord (Number 8) self.old result self.new }
    {
        let piece = self.front(8)?;
        Ok(BigEndian::read_u64(piece))
    }

    /// A number of 2 bytes that must be this one.
    pub(crate) fn exactly(&mut self, number: u16) -> Result<(), ReplyFault>
        ensures { TakesWord (Exactly 2 number) self.old result self.new }
    {
        let at = self.place();
        let piece = self.front(2)?;
        if BigEndian::read_u16(piece) == number {
            Ok(())
        } else {
            Err(ReplyFault::Bad { at })
        }
    }

    /// The bits that were asked, which must lie in the mask.
    pub(crate) fn asked(&mut self, mask: u16, bits: u16) -> Result<(), ReplyFault>
        ensures { TakesWord (Asked mask bits) self.old result self.new }
    {
        if is_outside(mask, bits) {
            Err(self.bad())
        } else {
            self.exactly(bits)
        }
    }

    /// 4 bytes as they are.
    pub(crate) fn raw4(&mut self) -> Result<[u8; 4], ReplyFault>
        ensures { TakesWord (Raw 4) self.old result self.new }
    {
        let piece = self.front(4)?;
        let mut bytes = [0; 4];
        bytes.copy_from_slice(piece);
        Ok(bytes)
    }

    /// A pad byte.
    pub(crate) fn pad(&mut self) -> Result<(), ReplyFault>
        ensures { TakesWord Pad self.old result self.new }
    {
        let _piece = self.front(1)?;
        Ok(())
    }

    /// The bytes of a text with its count in `size` bytes before it.
    fn counted_piece(&mut self, size: usize) -> Result<&'a [u8], ReplyFault>
        requires some { 1 ≤ size }
        requires few { size ≤ 4 }
        ensures { TakesText size self.old result self.new }
    {
        let at = self.place();
        let head = self.front(size)?;
        let count = BigEndian::read_uint(head, size) as usize;
        if self.rest().len() < count {
            return Err(ReplyFault::Bad { at });
        }
        let text = self.front(count)?;
        Ok(text)
    }

    /// A text with its count in `size` bytes before it.
    pub(crate) fn counted(&mut self, alloc: Global, size: usize) -> Result<Bytes, ReplyFault>
        requires some { 1 ≤ size }
        requires few { size ≤ 4 }
        ensures { TakesWord (Counted size) self.old result self.new }
    {
        let text = self.counted_piece(size)?;
        Ok(Bytes::of(alloc, text)?)
    }

    /// A text with its count in 1 byte before it, or in 2 where it is wide.
    pub(crate) fn text(&mut self, alloc: Global, wide: bool) -> Result<Bytes, ReplyFault>
        ensures { TakesWord (Counted (width wide)) self.old result self.new }
    {
        self.counted(alloc, width(wide))
    }

    /// The flag of a directory or a file.
    pub(crate) fn flag(&mut self) -> Result<bool, ReplyFault>
        ensures { TakesWord Flag self.old result self.new }
    {
        let at = self.place();
        let piece = self.front(1)?;
        match piece[0] {
            DIRECTORY_FLAG => Ok(true),
            0 => Ok(false),
            _ => Err(ReplyFault::Bad { at }),
        }
    }

    /// A number of 4 bytes, where it is asked.
    pub(crate) fn optional(&mut self, asked: bool) -> Result<Option<u32>, ReplyFault>
        ensures { ReadsPart (optional asked) self.old result self.new }
    {
        if asked {
            Ok(Some(self.u32()?))
        } else {
            Ok(None)
        }
    }

    /// A text with its count before it, where it is asked.
    pub(crate) fn optional_text(
        &mut self,
        alloc: Global,
        wide: bool,
        asked: bool,
    ) -> Result<Option<Bytes>, ReplyFault>
        ensures { ReadsPart (optional_text wide asked) self.old result self.new }
    {
        if asked {
            Ok(Some(self.text(alloc, wide)?))
        } else {
            Ok(None)
        }
    }

    /// All that remains, as the parameters of a kind: 0 of a volume, 1 of a file, 2 of a directory.
    pub(crate) fn params(self, alloc: Global, kind: u8, bits: u16) -> Result<Values, ReplyFault>
        requires kind { kind ≤ 2 }
        requires bits { IsWithin (mask_of kind) bits }
        ensures { TakesParams kind bits self.entry result }
    {
        params_at(alloc, kind, bits, self.place(), self.rest())
    }

    /// The length that the next entry of a list states.
    #[tactic(auto, using(afp_base::proofs::Numbers::number_front))]
    fn stated(&self, wide: bool) -> usize
        requires { width wide ≤ length self.now.bytes }
        ensures { result ≡ stated wide self.now.bytes }
    {
        let mut ahead = self.scan.again();
        if wide {
            return match ahead.u16() {
                Ok(length) => length as usize,
                Err(_) => unreachable!(),
            };
        }
        match ahead.u8() {
            Ok(length) => length as usize,
            Err(_) => unreachable!(),
        }
    }

    /// The bytes of the next entry of a list, as its length counts them.
    fn entry_bytes(&mut self, wide: bool) -> Result<&'a [u8], ReplyFault>
        ensures { TakesEntryBytes wide self.old result self.new }
    {
        let rest = self.rest();
        if rest.len() < width(wide) {
            return Err(self.bad());
        }
        let length = self.stated(wide);
        if length < head_size(wide) || rest.len() < length {
            return Err(self.bad());
        }
        self.front(length)
    }

    /// The next entry of a list, for these bits of files and directories.
    pub(crate) fn entry(
        &mut self,
        alloc: Global,
        wide: bool,
        file_bits: u16,
        dir_bits: u16,
    ) -> Result<ListEntry, ReplyFault>
        requires file { IsWithin file_mask file_bits }
        requires dir { IsWithin dir_mask dir_bits }
        ensures { TakesWord (Entry wide file_bits dir_bits) self.old result self.new }
    {
        let place = self.place();
        let entry = self.entry_bytes(wide)?;
        let (flag, head) = (place + width(wide), head_size(wide));
        match entry[width(wide)] {
            DIRECTORY_FLAG => {
                entry_of(params_at(alloc, DIR, dir_bits, place + head, &entry[head..]))
            }
            0 => entry_of(params_at(alloc, FILE, file_bits, place + head, &entry[head..])),
            _ => Err(ReplyFault::Bad { at: flag }),
        }
    }

    /// The next byte is one too many.
    pub(crate) fn bad(&self) -> ReplyFault
        ensures { result ≡ Bad self.now.place }
    {
        ReplyFault::Bad { at: self.place() }
    }

    /// All bytes that remain.
    pub(crate) fn remaining(self, alloc: Global) -> Result<Bytes, OutOfMemory>
        ensures { IfOk result (λ b. b ≡ self.entry.bytes) }
    {
        Bytes::of(alloc, self.rest())
    }

    /// The end of the bytes.
    pub(crate) fn done(&self) -> Result<(), ReplyFault>
        ensures { Ends self.now result }
    {
        if self.rest().is_empty() {
            Ok(())
        } else {
            Err(self.bad())
        }
    }
}

/// The parameters that these bytes are, where the first of them stands at `place`. The kind is 0 for
/// a volume, 1 for a file and 2 for a directory.
fn params_at(
    alloc: Global,
    kind: u8,
    bits: u16,
    place: usize,
    bytes: &[u8],
) -> Result<Values, ReplyFault>
    requires kind { kind ≤ 2 }
    requires bits { IsWithin (mask_of kind) bits }
    requires within { place + length bytes.now < 2 ^ 64 }
    ensures { TakesParams kind bits (record { place = place; bytes = bytes.now }) result }
{
    match read_params(alloc, bits, kind, bytes) {
        Ok(values) => Ok(values),
        Err(ParamFault::Memory) => Err(ReplyFault::Memory),
        Err(ParamFault::Bad { at }) => Err(ReplyFault::Bad { at: place + at }),
    }
}

/// The entry with these values.
fn entry_of(values: Result<Values, ReplyFault>) -> Result<ListEntry, ReplyFault>
    ensures { result ≡ entry_result values }
{
    match values {
        Ok(values) => Ok(ListEntry { values }),
        Err(fault) => Err(fault),
    }
}
