//! Descriptors of entries, and the slices that they name.
ghost use Rattle.std.specs.Prelude.{◌≡◌, ◌+◌, ◌*◌, ◌≤◌, ◌<◌, length, take};
ghost use Rattle.apple_double.specs.Format.{number_at, header_size, descriptor_size, count_in, descriptor_at, first_descriptors, with_id, slice_of, part};

use crate::parcel::{DESCRIPTOR, HEADER};
use afp_base::rest_of;
use byteorder::{BigEndian, ByteOrder};

/// An entry's id, its offset from the first byte of the file, and its length.
#[derive(Clone, Copy)]
pub struct Descriptor {
    pub id: u32,
    pub offset: u32,
    pub size: u32,
}

/// The number of 4 bytes at a place.
#[tactic(auto, unfolding(crate::specs::Format::number_at))]
pub(crate) fn number_at(bytes: &[u8], place: usize) -> u32
    requires { place + 4 ≤ length bytes.now }
    ensures { result ≡ number_at 4 place bytes.now }
{
    BigEndian::read_u32(rest_of(bytes, place))
}

/// How many entries the header counts.
#[tactic(auto, unfolding(crate::specs::Format::number_at))]
pub(crate) fn count_in(bytes: &[u8]) -> u16
    requires { header_size ≤ length bytes.now }
    ensures { result ≡ count_in bytes.now }
{
    BigEndian::read_u16(rest_of(bytes, 24))
}

/// The descriptor with this index, from 0.
pub(crate) fn descriptor_at(bytes: &[u8], index: usize) -> Descriptor
    requires { header_size + descriptor_size * (index + 1) ≤ length bytes.now }
    ensures { result ≡ descriptor_at bytes.now index }
{
    let place = HEADER + DESCRIPTOR * index;
    Descriptor {
        id: number_at(bytes, place),
        offset: number_at(bytes, place + 4),
        size: number_at(bytes, place + 8),
    }
}

/// The first of the first `end` descriptors that has this id.
pub(crate) fn first_with_id(bytes: &[u8], id: u32, end: usize) -> Option<Descriptor>
    requires { header_size + descriptor_size * end ≤ length bytes.now }
    ensures { result ≡ with_id id (first_descriptors end bytes.now) }
{
    for index in 0..end {
        let descriptor = descriptor_at(bytes, index);
        if descriptor.id == id {
            return Some(descriptor);
        }
    }
    None
}

/// The first `n` bytes, all where there are fewer.
pub(crate) fn front_of(bytes: &[u8], n: usize) -> &[u8]
    ensures { result.now ≡ take n bytes.now }
{
    &bytes[..n.min(bytes.len())]
}

/// The slice that a descriptor names.
pub(crate) fn slice_of(bytes: &[u8], descriptor: Descriptor) -> &[u8]
    ensures { result.now ≡ slice_of bytes.now descriptor }
{
    front_of(
        rest_of(bytes, descriptor.offset as usize),
        descriptor.size as usize,
    )
}

/// The bytes of the entry with this id, none where no descriptor has it.
#[tactic(auto, unfolding(crate::specs::Format::part))]
pub(crate) fn part(bytes: &[u8], id: u32) -> &[u8]
    requires header { header_size ≤ length bytes.now }
    requires descriptors { header_size + descriptor_size * count_in bytes.now ≤ length bytes.now }
    ensures { result.now ≡ part id bytes.now }
{
    match first_with_id(bytes, id, count_in(bytes) as usize) {
        Some(descriptor) => slice_of(bytes, descriptor),
        None => &bytes[..0],
    }
}
