//! The status block, built part by part.
ghost use Rattle.std.specs.Prelude.{◌≡◌, ◌+◌, ◌≤◌, ◌<◌, ◌^◌, ◌++◌, length, map, All, IfOk, OnOk, flat_map};
ghost use Rattle.std.specs.List.{concat};
ghost use Rattle.byteorder.specs.Endian.{big_bytes};
ghost use Rattle.afp_serial.specs.StatusBlock.{pascal_string, counted_words, long_counted, status_pad, status_head_size, offsets_of, status_parts, status_head, status_of};
ghost use Rattle.afp_serial.specs.Limits.{longest_server};

use crate::limits::{NO_ICON, SIZE_BEFORE_NAME, SIZE_BEHIND_NAME};
use crate::status_words::{MACHINE_TYPE, SERVER_FLAGS, UAMS, VERSIONS};
use afp_base::{Bytes, OutOfMemory};
use std::alloc::Global;
use std::marker::Model;

/// Where the parts of a status block stand, in bytes from its first.
#[derive(Drop)]
struct Offsets {
    machine_type: u16,
    versions: u16,
    uams: u16,
    signature: u16,
    addresses: u16,
    directories: u16,
    utf8_name: u16,
}

impl Model for Offsets {
    ghost use Rattle.afp_serial.specs.StatusBlock.{StatusOffsets};

    ghost Value = { StatusOffsets };

    ghost view = { λ o. record { machine_type = o.machine_type; versions = o.versions; uams = o.uams; signature = o.signature; addresses = o.addresses; directories = o.directories; utf8_name = o.utf8_name } };
}

/// Appends numbers in two bytes each.
fn put_numbers(block: &mut Bytes, numbers: &[u16]) -> Result<(), OutOfMemory>
    ensures { OnOk result (block.new ≡ block.old ++ flat_map (big_bytes 2) numbers.now) }
{
    for number in numbers {
        block.push_u16(*number)?;
    }
    Ok(())
}

/// Appends a count of one byte and the bytes.
fn put_counted(block: &mut Bytes, text: &[u8]) -> Result<(), OutOfMemory>
    requires { length text.now < 256 }
    ensures { OnOk result (block.new ≡ block.old ++ pascal_string text.now) }
{
    block.push_u8(text.len() as u8)?;
    block.extend(text)
}

/// Appends a count of two bytes and the bytes.
fn put_long_counted(block: &mut Bytes, text: &[u8]) -> Result<(), OutOfMemory>
    requires { length text.now < 2 ^ 16 }
    ensures { OnOk result (block.new ≡ block.old ++ long_counted text.now) }
{
    block.push_u16(text.len() as u16)?;
    block.extend(text)
}

/// Appends a count of one byte and the counted words.
fn put_counted_words(block: &mut Bytes, words: &[&str]) -> Result<(), OutOfMemory>
    requires few { length words.now < 256 }
    requires short { All (λ word. length word.now < 256) words.now }
    ensures { OnOk result (block.new ≡ block.old ++ counted_words (map (λ word. word.now) words.now)) }
{
    block.push_u8(words.len() as u8)?;
    for word in words {
        put_counted(block, word.as_bytes())?;
    }
    Ok(())
}

/// The place behind a head of this size and the parts so far.
fn place_behind(head_size: usize, parts: &Bytes) -> u16
    requires { head_size + length parts.now < 2 ^ 16 }
    ensures { result ≡ head_size + length parts.now }
{
    (head_size + parts.as_slice().len()) as u16
}

/// The size of the head, in bytes.
fn head_size(name: &[u8]) -> usize
    requires { length name.now ≤ longest_server }
    ensures { result ≡ status_head_size name.now }
{
    let name_end = SIZE_BEFORE_NAME + 1 + name.len();
    name_end + name_end % 2 + SIZE_BEHIND_NAME
}

/// Appends the counted name, and a zero byte where the next byte would stand at an odd place.
fn put_padded_name(block: &mut Bytes, name: &[u8]) -> Result<(), OutOfMemory>
    requires { length name.now ≤ longest_server }
    ensures { OnOk result (block.new ≡ block.old ++ pascal_string name.now ++ status_pad name.now) }
{
    put_counted(block, name)?;
    if name.len() % 2 == 0 {
        block.push_u8(0)?;
    }
    Ok(())
}

/// Appends the head.
fn put_head(block: &mut Bytes, name: &[u8], offsets: &Offsets) -> Result<(), OutOfMemory>
    requires { length name.now ≤ longest_server }
    ensures { OnOk result (block.new ≡ block.old ++ status_head name.now offsets.now) }
{
    let before = [
        offsets.machine_type,
        offsets.versions,
        offsets.uams,
        NO_ICON,
        SERVER_FLAGS,
    ];
    put_numbers(block, &before)?;
    put_padded_name(block, name)?;
    let behind = [
        offsets.signature,
        offsets.addresses,
        offsets.directories,
        offsets.utf8_name,
    ];
    put_numbers(block, &behind)?;
    Ok(())
}

/// The parts behind a head of this size, and where they stand.
fn status_parts(
    alloc: Global,
    head_size: usize,
    name: &[u8],
    signature: &[u8; 16],
) -> Result<(Bytes, Offsets), OutOfMemory>
    requires small_name { length name.now ≤ longest_server }
    requires small_head { head_size ≤ 64 }
    ensures parts { IfOk result (λ both. both.0 ≡ concat (status_parts name.now signature.now)) }
    ensures offsets { IfOk result (λ both. both.1 ≡ offsets_of head_size (status_parts name.now signature.now)) }
{
    let mut parts = Bytes::new(alloc);
    let machine_type = place_behind(head_size, &parts);
    put_counted(&mut parts, MACHINE_TYPE.as_bytes())?;
    let versions = place_behind(head_size, &parts);
    put_counted_words(&mut parts, &VERSIONS)?;
    let uams = place_behind(head_size, &parts);
    put_counted_words(&mut parts, &UAMS)?;
    let at_signature = place_behind(head_size, &parts);
    parts.extend(signature)?;
    let addresses = place_behind(head_size, &parts);
    put_counted_words(&mut parts, &[])?;
    let directories = place_behind(head_size, &parts);
    put_counted_words(&mut parts, &[])?;
    let utf8_name = place_behind(head_size, &parts);
    put_long_counted(&mut parts, name)?;
    let offsets = Offsets {
        machine_type,
        versions,
        uams,
        signature: at_signature,
        addresses,
        directories,
        utf8_name,
    };
    Ok((parts, offsets))
}

/// The status block of a server with this name and signature. The one error is want of memory.
pub fn status_block(alloc: Global, name: &[u8], signature: &[u8; 16]) -> Result<Bytes, OutOfMemory>
    requires { length name.now ≤ longest_server }
    ensures block { IfOk result (λ block. block ≡ status_of name.now signature.now) }
    ensures size { IfOk result (λ block. length block ≤ 256) }
{
    let (parts, offsets) = status_parts(alloc, head_size(name), name, signature)?;
    let mut block = Bytes::new(alloc);
    put_head(&mut block, name, &offsets)?;
    block.extend(parts.as_slice())?;
    Ok(block)
}
