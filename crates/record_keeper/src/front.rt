//! The numbers in front of keys, by which most keys are told apart.
ghost use Rattle.std.specs.Prelude.{◌≡◌};
ghost use Rattle.std.specs.Cmp.Lexicographic.{slice_cmp};
ghost use Rattle.std.specs.Ordering.{nat_cmp};
ghost use Rattle.afp_base.specs.Bytes.{IsBytes};
ghost use Rattle.byteorder.specs.Endian.{big_number};

use byteorder::{BigEndian, ByteOrder};
use std::cmp::Ordering;

/// How many bytes of a key its number has.
const FRONT_SIZE: usize = 16;

/// The number of the first 16 bytes, big-endian, with zeros behind the last.
pub(crate) fn front_of(bytes: &[u8]) -> u128
    ensures { result ≡ big_number 16 bytes.now }
{
    let size = bytes.len().min(FRONT_SIZE);
    let mut front = [0; FRONT_SIZE];
    front[..size].copy_from_slice(&bytes[..size]);
    BigEndian::read_u128(&front)
}

/// How bytes with these fronts stand to one another in byte order.
pub(crate) fn order_of(front: u128, bytes: &[u8], other_front: u128, other: &[u8]) -> Ordering
    requires front { front ≡ big_number 16 bytes.now }
    requires other { other_front ≡ big_number 16 other.now }
    ensures { result ≡ slice_cmp nat_cmp bytes.now other.now }
{
    bytes_in_range(bytes);
    bytes_in_range(other);
    if front < other_front {
        Ordering::Less
    } else if other_front < front {
        Ordering::Greater
    } else {
        bytes.cmp(other)
    }
}

/// Bytes are in their range. The call does nothing.
fn bytes_in_range(bytes: &[u8])
    ensures { IsBytes bytes.now }
{}
