//! Names, and the keys by which names are told apart.
ghost use Rattle.std.specs.Prelude.{◌≡◌, ◌↔◌, ℕ, List, None, Some, ◌==◌, ◌<◌, ◌≤◌, nat_lt, false, length, map, take, IfOk, IfErr, IfSome, OnOk, IfNone, MatchOption};
ghost use Rattle.std.specs.Char.{to_ascii_lowercase};
ghost use Rattle.std.specs.Str.{IsAscii, IsNotAscii};
ghost use Rattle.std.specs.List.{list_any};
ghost use Rattle.afp_names.specs.LongName.{longest_long_name};
ghost use Rattle.afp_names.specs.MacRoman.{mac_roman_text};
ghost use Rattle.afp_names.specs.Name.{longest_name, name_fault, IsName, name_key};

use crate::mac_roman::mac_roman_text;
use afp_base::{Bytes, OutOfMemory};
use caseless::default_case_fold_str;
use std::alloc::Global;
use std::marker::Model;
use thiserror::Error;
use unicode_normalization::to_nfd;

/// The most bytes of a name.
pub const LONGEST_NAME: usize = 255;

/// Why bytes are no name. `Memory`: there is no memory, which comes for no other reason.
#[derive(Clone, Copy, Debug, PartialEq, Eq, Error)]
pub enum NameFault {
    #[error("the name is empty")]
    Empty,
    #[error("the name is too long")]
    TooLong,
    #[error("the name holds a NUL")]
    HasNul,
    #[error("the name is not UTF-8")]
    NotUtf8,
    #[error("out of memory")]
    Memory,
}

/// The name of a file or directory: 1 to 255 bytes of UTF-8, none of them 0.
///
/// Contracts see it as these bytes.
#[derive(Debug, Drop)]
pub struct Name {
    text: String,
}

impl Model for Name {
    ghost use Rattle.std.specs.Prelude.{ℕ, ◌≡◌, List, None, string_bytes};
    ghost use Rattle.afp_names.specs.Name.{name_fault};

    ghost Value = { List ℕ };

    ghost view = { λ name. string_bytes name.text };

    ghost invariant = { λ name. name_fault (string_bytes name.text) ≡ None };
}

impl Name {
    /// The name that these bytes are. Where they are none, the fault is the first that holds, in
    /// the order of [`NameFault`].
    pub fn new(alloc: Global, bytes: &[u8]) -> Result<Name, NameFault>
        ensures name { IfOk result (λ name. name ≡ bytes.now) }
        ensures good { OnOk result (name_fault bytes.now ≡ None) }
        ensures memory { name_fault bytes.now ≡ None → IfErr result (λ fault. fault ≡ NameFault.Memory) }
        ensures fault { (fault : NameFault) → name_fault bytes.now ≡ Some fault → result ≡ Err fault }

        // The faults are exactly what a name does not have.
        ensures faultless { (name_fault bytes.now ≡ None) ↔ IsName bytes.now }
    {
        let text = text_of(bytes)?;
        match String::from_str(alloc, text) {
            Ok(text) => Ok(Name { text }),
            Err(_) => Err(NameFault::Memory),
        }
    }

    /// The name that bytes of a long name spell.
    pub(crate) fn from_mac_roman(alloc: Global, bytes: &[u8]) -> Result<Name, OutOfMemory>
        requires not_empty { 0 < length bytes.now }
        requires short { length bytes.now ≤ longest_long_name }
        requires no_zero { list_any (λ byte. byte == 0) bytes.now ≡ false }
        ensures { IfOk result (λ name. name ≡ mac_roman_text bytes.now) }
    {
        let text = mac_roman_text(alloc, bytes)?;
        Ok(Name { text })
    }

    /// The name's text.
    pub fn as_str(&self) -> &str
        ensures text { result.now ≡ self.now }
        ensures name { IsName self.now }
        ensures faultless { name_fault self.now ≡ None }
    {
        self.text.as_str()
    }

    /// The same name once more. The one error is want of memory.
    pub fn copy(&self, alloc: Global) -> Result<Name, OutOfMemory>
        ensures { IfOk result (λ name. name ≡ self.now) }
    {
        Ok(Name {
            text: String::from_str(alloc, self.text.as_str())?,
        })
    }

    /// What the names that count as this one share, and no other: the text decomposed, with full
    /// case folding, and decomposed again, in UTF-8. The one error is want of memory.
    pub fn key(&self, alloc: Global) -> Result<Bytes, OutOfMemory>
        ensures { IfOk result (λ key. key ≡ name_key self.now) }
    {
        let mut room = [0; LONGEST_NAME];
        match self.ascii_key(&mut room) {
            Some(len) => Bytes::of(alloc, &room[..len]),
            None => self.folded_key(alloc),
        }
    }

    /// The key, whatever the characters are.
    fn folded_key(&self, alloc: Global) -> Result<Bytes, OutOfMemory>
        ensures { IfOk result (λ key. key ≡ name_key self.now) }
    {
        let decomposed = to_nfd(alloc, self.text.as_str())?;
        let folded = default_case_fold_str(alloc, decomposed.as_str())?;
        let key = to_nfd(alloc, folded.as_str())?;
        let bytes = Bytes::of(alloc, key.as_bytes())?;
        Ok(bytes)
    }

    /// Puts the key of a name of ASCII characters alone to the front of `room`, and answers its length. `None`: the
    /// name has another character, and `room` stays. It takes no memory.
    #[tactic(auto, using(crate::proofs::NameLemmas::ascii_name_key))]
    pub fn ascii_key(&self, room: &mut [u8]) -> Option<usize>
        requires { longest_name ≤ length room.old }
        ensures ascii { MatchOption result (IsNotAscii self.now) (λ len. IsAscii self.now) }
        ensures key { IfSome result (λ len. take len room.new ≡ name_key self.now) }
        ensures len { IfSome result (λ len. len ≤ longest_name) }
        ensures stays { IfNone result (room.new ≡ room.old) }
    {
        let text = self.as_str();
        if !text.is_ascii() {
            return None;
        }
        put_small(room, text.as_bytes());
        Some(text.len())
    }
}

/// Puts bytes to the front of `room`, with the letters of ASCII made small.
fn put_small(room: &mut [u8], bytes: &[u8])
    requires { length bytes.now ≤ length room.old }
    ensures { take (length bytes.now) room.new ≡ map to_ascii_lowercase bytes.now }
{
    let front = &mut room[..bytes.len()];
    front.copy_from_slice(bytes);
    front.make_ascii_lowercase();
}

/// The text of a name, or why the bytes are none.
fn text_of(bytes: &[u8]) -> Result<&str, NameFault>
    ensures text { IfOk result (λ text. text.now ≡ bytes.now) }
    ensures good { OnOk result (name_fault bytes.now ≡ None) }
    ensures fault { IfErr result (λ fault. name_fault bytes.now ≡ Some fault) }
{
    if bytes.is_empty() {
        return Err(NameFault::Empty);
    }
    if is_too_long(bytes) {
        return Err(NameFault::TooLong);
    }
    if has_zero(bytes) {
        return Err(NameFault::HasNul);
    }
    match std::str::from_utf8(bytes) {
        Ok(text) => Ok(text),
        Err(_) => Err(NameFault::NotUtf8),
    }
}

fn is_too_long(bytes: &[u8]) -> bool
    ensures { result ≡ nat_lt longest_name (length bytes.now) }
{
    bytes.len() > LONGEST_NAME
}

fn has_zero(bytes: &[u8]) -> bool
    ensures { result ≡ list_any (λ byte. byte == 0) bytes.now }
{
    bytes.iter().any(|byte| *byte == 0)
}
