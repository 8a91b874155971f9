//! Numbers and codes at a place of some bytes. Bytes behind the end count as 0.
ghost use Rattle.std.specs.Prelude.{◌≡◌, ◌++◌, length, take, drop, slice_index};
ghost use Rattle.volume_keeper_records.specs.Shape.{word_at as the_word, four_at as the_four, long_at as the_long, date_at as the_date, quad_at as the_quad};

use afp_base::rest_of;
use byteorder::{BigEndian, ByteOrder};

pub(crate) fn byte_at(bytes: &[u8], at: usize) -> u8
    ensures { result ≡ slice_index bytes.now at }
{
    if at < bytes.len() { bytes[at] } else { 0 }
}

/// Puts the first bytes in place of those of a piece, and leaves what stands behind them.
fn fill(piece: &mut [u8], bytes: &[u8])
    ensures { piece.new ≡ take (length piece.old) bytes.now ++ drop (length bytes.now) piece.old }
{
    let len = piece.len().min(bytes.len());
    piece[..len].copy_from_slice(&bytes[..len]);
}

pub(crate) fn four_at(bytes: &[u8], at: usize) -> [u8; 4]
    ensures { result ≡ the_four bytes.now at }
{
    let mut piece = [0; 4];
    fill(&mut piece, rest_of(bytes, at));
    piece
}

pub(crate) fn word_at(bytes: &[u8], at: usize) -> u16
    ensures { result ≡ the_word bytes.now at }
{
    let mut piece = [0; 2];
    fill(&mut piece, rest_of(bytes, at));
    BigEndian::read_u16(&piece)
}

pub(crate) fn long_at(bytes: &[u8], at: usize) -> u32
    ensures { result ≡ the_long bytes.now at }
{
    BigEndian::read_u32(&four_at(bytes, at))
}

pub(crate) fn date_at(bytes: &[u8], at: usize) -> i32
    ensures { result ≡ the_date bytes.now at }
{
    long_at(bytes, at).cast_signed()
}

pub(crate) fn quad_at(bytes: &[u8], at: usize) -> u64
    ensures { result ≡ the_quad bytes.now at }
{
    let mut piece = [0; 8];
    fill(&mut piece, rest_of(bytes, at));
    BigEndian::read_u64(&piece)
}
