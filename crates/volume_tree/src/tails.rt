//! What the tails of set calls hold.
ghost use Rattle.std.specs.Prelude.{◌≡◌, ◌≤◌, ◌+◌, true, false, None, Some, take, drop, length, option_map, MatchOption, nat_lt};
ghost use Rattle.byteorder.specs.Endian.{big_number};
ghost use Rattle.volume_spec.specs.Parms.{date_in};
ghost use Rattle.volume_spec.specs.SetFileDirParms.{asked_bytes, field_in, is_short_tail, rights_in, set_fields, settings_in};
ghost use Rattle.volume_tree.specs.lemma.Tails.{lower_bytes, size_asked};

use crate::settings::Settings;
use afp_base::Scan;
use afp_bitmap::is_asked;
use byteorder::{BigEndian, ByteOrder};
use volume_spec::limits::ALL_RIGHTS;

/// The size of a field, where it is asked.
fn size_asked(bits: u16, bit: u32, size: usize) -> usize
    requires { nat_lt bit 16 ≡ true }
    ensures { result ≡ size_asked bits bit size }
{
    if is_asked(bits, bit) { size } else { 0 }
}

/// The next `size` bytes at a place.
fn piece_at(bytes: &[u8], at: usize, size: usize) -> &[u8]
    requires { at + size ≤ length bytes.now }
    ensures { result.now ≡ take size (drop at bytes.now) }
{
    match Scan::at(bytes, at).bytes(size) {
        Ok(piece) => piece,
        Err(_) => unreachable!(),
    }
}

/// The bytes of the field of this bit and size, which begins at a place, where it is asked.
#[tactic(auto, unfolding(volume_spec::specs::SetFileDirParms::field_in))]
fn field(bits: u16, tail: &[u8], bit: u32, at: usize, size: usize) -> Option<&[u8]>
    requires bit { nat_lt bit 16 ≡ true }
    requires at { at ≡ lower_bytes bits bit }
    requires fits { at + size_asked bits bit size ≤ length tail.now }
    ensures { MatchOption result (field_in bits tail.now bit size ≡ None) (λ field. (field_in bits tail.now bit size ≡ Some field.now) × (length field.now ≡ size)) }
{
    if !is_asked(bits, bit) {
        return None;
    }
    Some(piece_at(tail, at, size))
}

fn word_in(bits: u16, tail: &[u8], bit: u32, at: usize) -> Option<u16>
    requires bit { nat_lt bit 16 ≡ true }
    requires at { at ≡ lower_bytes bits bit }
    requires fits { at + size_asked bits bit 2 ≤ length tail.now }
    ensures { result ≡ option_map (big_number 2) (field_in bits tail.now bit 2) }
{
    match field(bits, tail, bit, at, 2) {
        Some(field) => Some(BigEndian::read_u16(field)),
        None => None,
    }
}

fn date_in(bits: u16, tail: &[u8], bit: u32, at: usize) -> Option<i32>
    requires bit { nat_lt bit 16 ≡ true }
    requires at { at ≡ lower_bytes bits bit }
    requires fits { at + size_asked bits bit 4 ≤ length tail.now }
    ensures { result ≡ option_map date_in (field_in bits tail.now bit 4) }
{
    match field(bits, tail, bit, at, 4) {
        Some(field) => Some(BigEndian::read_u32(field).cast_signed()),
        None => None,
    }
}

fn finder_in(bits: u16, tail: &[u8], bit: u32, at: usize) -> Option<[u8; 32]>
    requires bit { nat_lt bit 16 ≡ true }
    requires at { at ≡ lower_bytes bits bit }
    requires fits { at + size_asked bits bit 32 ≤ length tail.now }
    ensures { result ≡ field_in bits tail.now bit 32 }
{
    match field(bits, tail, bit, at, 32) {
        Some(field) => {
            let mut finder = [0; 32];
            finder.copy_from_slice(field);
            Some(finder)
        }
        None => None,
    }
}

fn id_in(bits: u16, tail: &[u8], bit: u32, at: usize) -> Option<u32>
    requires bit { nat_lt bit 16 ≡ true }
    requires at { at ≡ lower_bytes bits bit }
    requires fits { at + size_asked bits bit 4 ≤ length tail.now }
    ensures { result ≡ option_map (big_number 4) (field_in bits tail.now bit 4) }
{
    match field(bits, tail, bit, at, 4) {
        Some(field) => Some(BigEndian::read_u32(field)),
        None => None,
    }
}

fn rights_in(bits: u16, tail: &[u8], bit: u32, at: usize) -> Option<[u8; 3]>
    requires bit { nat_lt bit 16 ≡ true }
    requires at { at ≡ lower_bytes bits bit }
    requires fits { at + size_asked bits bit 4 ≤ length tail.now }
    ensures { result ≡ option_map rights_in (field_in bits tail.now bit 4) }
{
    match field(bits, tail, bit, at, 4) {
        Some(field) => Some([
            field[1] & ALL_RIGHTS,
            field[2] & ALL_RIGHTS,
            field[3] & ALL_RIGHTS,
        ]),
        None => None,
    }
}

/// How many bytes the fields take that are asked (AFP Reference, "FPSetFileDirParms").
fn bytes_asked(bits: u16) -> usize
    ensures { result ≡ asked_bytes bits set_fields }
{
    let dates = size_asked(bits, 2, 4) + size_asked(bits, 3, 4) + size_asked(bits, 4, 4);
    let rights = size_asked(bits, 10, 4) + size_asked(bits, 11, 4) + size_asked(bits, 12, 4);
    size_asked(bits, 0, 2) + dates + size_asked(bits, 5, 32) + rights
}

/// Whether a tail has fewer bytes than the fields that are asked.
#[tactic(auto, unfolding(volume_spec::specs::SetFileDirParms::is_short_tail))]
pub fn is_short_tail(bits: u16, tail: &[u8]) -> bool
    ensures { result ≡ is_short_tail bits tail.now }
{
    tail.len() < bytes_asked(bits)
}

/// The settings that a tail holds.
pub fn settings_in(bits: u16, tail: &[u8]) -> Settings
    requires { is_short_tail bits tail.now ≡ false }
    ensures { result ≡ settings_in bits tail.now }
{
    let created = size_asked(bits, 0, 2);
    let modified = created + size_asked(bits, 2, 4);
    let backup = modified + size_asked(bits, 3, 4);
    let finder = backup + size_asked(bits, 4, 4);
    let owner = finder + size_asked(bits, 5, 32);
    let group = owner + size_asked(bits, 10, 4);
    let rights = group + size_asked(bits, 11, 4);
    Settings {
        attributes: word_in(bits, tail, 0, 0),
        created: date_in(bits, tail, 2, created),
        modified: date_in(bits, tail, 3, modified),
        backup: date_in(bits, tail, 4, backup),
        finder: finder_in(bits, tail, 5, finder),
        owner: id_in(bits, tail, 10, owner),
        group: id_in(bits, tail, 11, group),
        rights: rights_in(bits, tail, 12, rights),
    }
}
