//! What is asked of a list.
use std::marker::Model;

/// What is asked of a list, and by which user: whether the lengths of its entries are wide (they are but in FPEnumerate), what to tell of files and of
/// directories, how many entries at most, from which on (the first is 1), and how many bytes the reply may have (AFP Reference,
/// "FPEnumerate", "FPEnumerateExt2").
///
/// Contracts see the definition's.
#[derive(Drop)]
pub struct ListAsked {
    pub wide: bool,
    pub user: u32,
    pub file_bits: u16,
    pub dir_bits: u16,
    pub count: u16,
    pub start: u32,
    pub size: u32,
}

impl Model for ListAsked {
    ghost use Rattle.volume_spec.specs.Enumerate.{ListAsked as AskedValue};

    ghost Value = { AskedValue };

    ghost view = { λ a. record { wide = a.wide; user = a.user; file_bits = a.file_bits; dir_bits = a.dir_bits; count = a.count; start = a.start; size = a.size } };
}
