//! The character set of long names: Mac Roman, with the euro sign.
ghost use Rattle.std.specs.Prelude.{◌≡◌, ◌<◌, ◌≤◌, ◌+◌, ◌-◌, ◌==◌, nat_lt, if◌then◌else◌, option_map, slice_index, length, position, string_bytes, IfOk, IfSome, Some};
ghost use Rattle.afp_names.specs.MacRoman.{mac_roman_char, mac_roman_byte, mac_roman_text};

use afp_base::OutOfMemory;
use std::alloc::Global;

/// The characters of the bytes 0x80 to 0xff.
pub const MAC_ROMAN: [char; 128] = [
    '\u{c4}', '\u{c5}', '\u{c7}', '\u{c9}', '\u{d1}', '\u{d6}', '\u{dc}', '\u{e1}', '\u{e0}',
    '\u{e2}', '\u{e4}', '\u{e3}', '\u{e5}', '\u{e7}', '\u{e9}', '\u{e8}', '\u{ea}', '\u{eb}',
    '\u{ed}', '\u{ec}', '\u{ee}', '\u{ef}', '\u{f1}', '\u{f3}', '\u{f2}', '\u{f4}', '\u{f6}',
    '\u{f5}', '\u{fa}', '\u{f9}', '\u{fb}', '\u{fc}', '\u{2020}', '\u{b0}', '\u{a2}', '\u{a3}',
    '\u{a7}', '\u{2022}', '\u{b6}', '\u{df}', '\u{ae}', '\u{a9}', '\u{2122}', '\u{b4}', '\u{a8}',
    '\u{2260}', '\u{c6}', '\u{d8}', '\u{221e}', '\u{b1}', '\u{2264}', '\u{2265}', '\u{a5}',
    '\u{b5}', '\u{2202}', '\u{2211}', '\u{220f}', '\u{3c0}', '\u{222b}', '\u{aa}', '\u{ba}',
    '\u{3a9}', '\u{e6}', '\u{f8}', '\u{bf}', '\u{a1}', '\u{ac}', '\u{221a}', '\u{192}', '\u{2248}',
    '\u{2206}', '\u{ab}', '\u{bb}', '\u{2026}', '\u{a0}', '\u{c0}', '\u{c3}', '\u{d5}', '\u{152}',
    '\u{153}', '\u{2013}', '\u{2014}', '\u{201c}', '\u{201d}', '\u{2018}', '\u{2019}', '\u{f7}',
    '\u{25ca}', '\u{ff}', '\u{178}', '\u{2044}', '\u{20ac}', '\u{2039}', '\u{203a}', '\u{fb01}',
    '\u{fb02}', '\u{2021}', '\u{b7}', '\u{201a}', '\u{201e}', '\u{2030}', '\u{c2}', '\u{ca}',
    '\u{c1}', '\u{cb}', '\u{c8}', '\u{cd}', '\u{ce}', '\u{cf}', '\u{cc}', '\u{d3}', '\u{d4}',
    '\u{f8ff}', '\u{d2}', '\u{da}', '\u{db}', '\u{d9}', '\u{131}', '\u{2c6}', '\u{2dc}', '\u{af}',
    '\u{2d8}', '\u{2d9}', '\u{2da}', '\u{b8}', '\u{2dd}', '\u{2db}', '\u{2c7}',
];

/// The character of a byte: ASCII below 0x80, and else that of [`MAC_ROMAN`].
pub fn char_of(byte: u8) -> char
    ensures char { result ≡ mac_roman_char byte }
    ensures back { mac_roman_byte result ≡ Some byte }
{
    char_in(&MAC_ROMAN, byte)
}

/// The byte of a character; `None` exactly where the character set has no such character.
pub fn byte_of(character: char) -> Option<u8>
    ensures byte { result ≡ mac_roman_byte character }
    ensures back { IfSome result (λ byte. mac_roman_char byte ≡ character) }
{
    byte_in(&MAC_ROMAN, character)
}

fn char_in(table: &[char], byte: u8) -> char
    requires { length table.now ≡ 128 }
    ensures { result ≡ (if nat_lt byte 128 then byte else slice_index table.now (byte - 128)) }
{
    if byte < 128 {
        char::from(byte)
    } else {
        table[byte as usize - 128]
    }
}

fn byte_in(table: &[char], character: char) -> Option<u8>
    requires { length table.now ≤ 128 }
    ensures { result ≡ (if nat_lt character 128 then Some character else option_map (λ place. place + 128) (position (λ c. c == character) table.now)) }
{
    if character < '\u{80}' {
        return Some(character as u8);
    }
    match place_of(table, character) {
        Some(place) => Some(place as u8 + 128),
        None => None,
    }
}

/// The place of a character in a table, from 0.
fn place_of(table: &[char], character: char) -> Option<usize>
    ensures place { result ≡ position (λ c. c == character) table.now }
    ensures within { IfSome result (λ place. place < length table.now) }
{
    table.iter().position(|c| *c == character)
}

/// The text that bytes of the character set spell, as those of a long name.
pub fn mac_roman_text(alloc: Global, bytes: &[u8]) -> Result<String, OutOfMemory>
    ensures { IfOk result (λ text. string_bytes text ≡ mac_roman_text bytes.now) }
{
    let mut text = String::new(alloc);
    for byte in bytes {
        text.push(char_of(*byte))?;
    }
    Ok(text)
}
